// What the program writes, and how its process ends.
use crate::{Counter, help};
use std::test::Fail;
use tool_frame::{NoAnswer, run, run_program};
use tool_io::{MemShelf, MemSink};

// A store with this board in the file `b`.
fn shelf_with(rt: &HostRuntime, board: &str) -> Result<MemShelf, Fail> {
    let alloc = rt.alloc();
    let names = vec![in alloc; String::from_str(alloc, "b")?]?;
    let files = vec![in alloc; board.as_bytes().to_vec(alloc)?]?;
    Ok(MemShelf::new(alloc, names, files, Vec::new(alloc))?)
}

// The exit code after one word, with this board in the file `b`, and what is written, where a write fails.
fn ended(rt: &HostRuntime, word: &str, board: &str, failing: u32) -> Result<(u8, Vec<u8>), Fail> {
    let alloc = rt.alloc();
    let words = vec![in alloc; String::from_str(alloc, word)?]?;
    let mut shelf = shelf_with(rt, board)?;
    let mut out = MemSink::new(alloc, 1000, 1000, vec![in alloc; failing]?)?;
    let code = run_program(&Counter, alloc, &words, &mut shelf, &mut (), &mut out);
    Ok((code, out.written().to_vec(alloc)?))
}

#[test]
fn ends_and_writes(rt: HostRuntime) -> Result<(), Fail> {
    let board = "plain U1 4\nplain U2 8\n";
    let cases: [(&str, &str, u32, u8, &[u8]); 7] = [
        ("board=b", board, 0, 0, b"devices 2\n"),
        ("board=b", "plain U1\n", 0, 5, b"R board 1 Form\n"),
        ("boards=b", board, 0, 7, b"R usage 1\n"),
        ("board=c", board, 0, 9, b""),
        ("board=b", board, 1, 10, b""),
        ("--help", board, 0, 0, help::HELP),
        ("--version", board, 0, 0, help::VERSION),
    ];
    for (word, board, failing, code, text) in cases {
        let (ended, written) = ended(&rt, word, board, failing)?;
        assert_eq!(rt; ended, code);
        assert_eq!(rt; written.as_slice(), text);
    }
    Ok(())
}

#[test]
fn runs(rt: HostRuntime) -> Result<(), Fail> {
    let alloc = rt.alloc();
    let words = vec![in alloc; String::from_str(alloc, "board=b")?]?;
    let mut shelf = shelf_with(&rt, "plain U1 4\n")?;
    let mut out = MemSink::new(alloc, 1000, 1000, vec![in alloc; 2u32]?)?;
    let ending = run(&Counter, alloc, &words, &mut shelf, &mut (), &mut out)?;
    assert_eq!(rt; ending.exit_code(), 0);
    let failed = run(&Counter, alloc, &words, &mut shelf, &mut (), &mut out);
    assert_eq!(rt; failed.err(), Some(NoAnswer::Write));
    assert_eq!(rt; out.written(), b"devices 1\n".as_slice());
    Ok(())
}
