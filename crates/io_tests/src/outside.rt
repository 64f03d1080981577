// The store and the sink of the outside: over real files, and with calls that fail.
use std::alloc::{AllocError, Global};
use std::fs::File;
use std::io::BufWriter;
use std::test::Fail;
use std::{fs, io};
use tool_io::{
    Failed, FileShelf, Lines, MemShelf, MemSink, ReadRefused, Sink, StdSink, read_whole,
};

const BYTES: [u8; 5000] = [7; 5000];

// Whether a file of the system holds the bytes above, or why it is refused.
fn holds_the_bytes(rt: &HostRuntime, name: &str, limit: u32) -> Result<bool, ReadRefused> {
    let mut shelf = FileShelf::new(rt);
    let whole = read_whole(rt.alloc(), &mut shelf, name, limit)?;
    Ok(whole.as_slice() == BYTES.as_slice())
}

#[test]
fn reads_a_file_of_the_system(rt: HostRuntime) -> Result<(), Fail> {
    fs::write(&rt, "read_whole.bin", BYTES.as_slice())?;
    assert!(rt; holds_the_bytes(&rt, "read_whole.bin", 5000) == Ok(true));
    assert!(rt; holds_the_bytes(&rt, "read_whole.bin", 4999) == Err(ReadRefused::TooLong));
    assert!(rt; holds_the_bytes(&rt, "no_such_file.bin", 4999) == Err(ReadRefused::ReadFault));
    fs::remove_file(&rt, "read_whole.bin")?;
    Ok(())
}

// Puts a line with an integer into a sink.
fn put_line<K: Sink>(sink: &mut K, label: &[u8], value: i64) -> Result<(), Failed> {
    let mut lines = Lines::new(sink);
    lines.put(label)?;
    lines.put_int(value)?;
    lines.put(b"\n")?;
    lines.finish()
}

// The same into a file of the system.
fn write_file(rt: &HostRuntime, name: &str) -> Result<(), Fail> {
    let file = File::create(rt, name)?;
    let mut sink = StdSink::new(BufWriter::new(rt.alloc(), file)?);
    Ok(put_line(&mut sink, b"X N = ", i64::MIN)?)
}

#[test]
fn writes_a_file_of_the_system(rt: HostRuntime) -> Result<(), Fail> {
    write_file(&rt, "lines.txt")?;
    let written = fs::read(&rt, "lines.txt")?;
    assert!(rt; written.as_slice() == b"X N = -9223372036854775808\n".as_slice());
    fs::remove_file(&rt, "lines.txt")?;
    Ok(())
}

#[test]
fn writes_to_standard_output(rt: HostRuntime) -> Result<(), Fail> {
    let mut sink = StdSink::new(io::writer(&rt));
    put_line(&mut sink, b"E exit ", 0)?;
    Ok(())
}

// A store of one file `p` of the bytes above, of which the call of this number fails.
fn store(alloc: Global, failing: u32) -> Result<MemShelf, AllocError> {
    let failing = vec![in alloc; failing]?;
    let names = vec![in alloc; String::from_str(alloc, "p")?]?;
    let files = vec![in alloc; BYTES.to_vec(alloc)?]?;
    MemShelf::new(alloc, names, files, failing)
}

// How many bytes `read_whole` answers on that store.
fn read_of(
    alloc: Global,
    name: &str,
    limit: u32,
    failing: u32,
) -> Result<Result<usize, ReadRefused>, Fail> {
    let mut shelf = store(alloc, failing)?;
    let whole = read_whole(alloc, &mut shelf, name, limit);
    drop(shelf);
    Ok(whole.map(|bytes| bytes.len()))
}

#[test]
fn reads_a_file_in_memory(rt: HostRuntime) -> Result<(), Fail> {
    // A pick, two reads with bytes and one that finds the end are the calls 1 to 4.
    let cases = [
        ("p", 5000, 9, Ok(5000)),
        ("p", u32::MAX, 9, Ok(5000)),
        ("p", 4999, 9, Err(ReadRefused::TooLong)),
        ("p", 0, 9, Err(ReadRefused::TooLong)),
        ("q", 5000, 9, Err(ReadRefused::ReadFault)),
        ("p", 5000, 1, Err(ReadRefused::ReadFault)),
        ("p", 5000, 3, Err(ReadRefused::ReadFault)),
        ("p", 5000, 4, Err(ReadRefused::ReadFault)),
        ("p", 5000, 5, Ok(5000)),
    ];
    for (name, limit, failing, want) in cases {
        let found = read_of(rt.alloc(), name, limit, failing)?;
        assert!(rt; found == want, "{name} {limit} {failing}");
    }
    Ok(())
}

// What `finish` answers after the two lines of a play.
fn put_play(sink: &mut MemSink) -> Result<Result<(), Failed>, Failed> {
    let mut lines = Lines::new(sink);
    lines.put(b"P HELLO\n")?;
    lines.put(b"E exit 0\n")?;
    Ok(lines.finish())
}

// How many bytes a sink has that gets the two lines of a play, if they are a front of them, and what `finish` answers.
fn play_in(
    alloc: Global,
    room: u32,
    failing: u32,
) -> Result<(Option<usize>, Result<(), Failed>), Fail> {
    let failing = vec![in alloc; failing]?;
    let mut sink = MemSink::new(alloc, room, 4, failing)?;
    let answer = put_play(&mut sink);
    let written = sink.written();
    let is_front = b"P HELLO\nE exit 0\n".starts_with(written);
    let many = if is_front { Some(written.len()) } else { None };
    drop(sink);
    Ok((many, answer?))
}

#[test]
fn keeps_a_front_where_a_write_fails(rt: HostRuntime) -> Result<(), Fail> {
    // Four bytes a write: the third failing write leaves eight.
    let cases = [
        (100, 9, 17, Ok(())),
        (17, 9, 17, Ok(())),
        (100, 3, 8, Err(Failed)),
        (100, 1, 0, Err(Failed)),
        (10, 9, 10, Err(Failed)),
    ];
    for (room, failing, many, want) in cases {
        let found = play_in(rt.alloc(), room, failing)?;
        assert!(rt;
            found == (Some(many), want),
            "room {room} failing {failing}"
        );
    }
    Ok(())
}

// The numbers below 2,000, each with a semicolon.
fn numbers(alloc: Global) -> Result<String, Fail> {
    let mut text = String::new(alloc);
    for n in 0..2000 {
        text.push_str(format!(in alloc; "{n};")?.as_str())?;
    }
    Ok(text)
}

// Puts a text, an integer, and the text again.
fn put_twice(sink: &mut MemSink, text: &str) -> Result<(), Failed> {
    let mut lines = Lines::new(sink);
    lines.put(text.as_bytes())?;
    lines.put_int(-5)?;
    lines.put(text.as_bytes())?;
    lines.finish()
}

// Whether a sink has then these parts.
fn puts_all(alloc: Global, text: &str) -> Result<bool, Fail> {
    let want = format!(in alloc; "{text}-5{text}")?;
    let mut sink = MemSink::new(alloc, 100_000, 1000, Vec::new(alloc))?;
    let answer = put_twice(&mut sink, text);
    let is_written = sink.written() == want.as_bytes();
    drop(sink);
    drop(want);
    Ok(answer.is_ok() && is_written)
}

#[test]
fn writes_more_than_it_gathers(rt: HostRuntime) -> Result<(), Fail> {
    let text = numbers(rt.alloc())?;
    let is_written = puts_all(rt.alloc(), text.as_str())?;
    assert!(rt; is_written && text.len() == 8890);
    Ok(())
}
