//! What the tool answers to its words, over a store and a sink in memory. What it answers if nothing fails is shown by
//! cases of tests/.
ghost use Rattle.std.specs.Prelude.{◌≡◌, length, IfOk};

use board_text::BoardReason;
use dev_card::Device;
use device_rack::{fill_rack, is_rack};
use play_tool::run_tool;
use play_words::Status;
use stapl_code::CodeReason;
use stapl_lexer::Reason;
use stapl_meaning::RunFault;
use std::alloc::{AllocError, Global};
use std::test::Fail;
use tool_io::{MemShelf, MemSink};

/// What the store and the sink do: the sink takes so many bytes a write, and the write and the pick or read with these
/// numbers fail, where 0 is none.
#[derive(Clone, Copy)]
pub struct Outside {
    pub bite: u32,
    pub write: u32,
    pub read: u32,
}

fn owned_words(alloc: Global, words: &[&str]) -> Result<Vec<String>, AllocError> {
    let mut list = Vec::new(alloc);
    for word in words {
        list.push(String::from_str(alloc, word)?)?;
    }
    Ok(list)
}

fn file_names(alloc: Global) -> Result<Vec<String>, AllocError>
    ensures { IfOk result (λ v. length v.items ≡ 2) }
{
    let board = String::from_str(alloc, "b")?;
    let program = String::from_str(alloc, "p")?;
    Ok(vec![in alloc; board, program]?)
}

fn file_contents(alloc: Global, files: [&str; 2]) -> Result<Vec<Vec<u8>>, AllocError>
    ensures { IfOk result (λ v. length v.items ≡ 2) }
{
    let board = files[0].as_bytes().to_vec(alloc)?;
    let program = files[1].as_bytes().to_vec(alloc)?;
    Ok(vec![in alloc; board, program]?)
}

// A store with a board in the file `b` and a program in `p`.
fn store_of(alloc: Global, files: [&str; 2], read: u32) -> Result<MemShelf, AllocError> {
    let failing = vec![in alloc; read]?;
    let names = file_names(alloc)?;
    let contents = file_contents(alloc, files)?;
    MemShelf::new(alloc, names, contents, failing)
}

fn sink_of(alloc: Global, outside: Outside) -> Result<MemSink, AllocError> {
    let failing = vec![in alloc; outside.write]?;
    MemSink::new(alloc, 1000, outside.bite.max(1), failing)
}

// The status of the tool over a store and a sink, on a new rack.
fn status_over(
    alloc: Global,
    words: &[String],
    shelf: &mut MemShelf,
    out: &mut MemSink,
) -> Result<Status, Fail> {
    let mut rack: Vec<Box<dyn Device>> = Vec::new(alloc);
    fill_rack!(alloc, rack);
    if !is_rack(&rack) {
        return Err("no rack".into());
    }
    let status = run_tool(alloc, words, shelf, &mut rack, out);
    drop(rack);
    Ok(status)
}

// The same with what the tool writes.
fn answered(
    alloc: Global,
    words: &[String],
    shelf: &mut MemShelf,
    outside: Outside,
) -> Result<(Status, Vec<u8>), Fail> {
    let mut out = sink_of(alloc, outside)?;
    let status = status_over(alloc, words, shelf, &mut out);
    let written = out.written().to_vec(alloc);
    drop(out);
    Ok((status?, written?))
}

fn answered_to(
    alloc: Global,
    words: &[String],
    files: [&str; 2],
    outside: Outside,
) -> Result<(Status, Vec<u8>), Fail> {
    let mut shelf = store_of(alloc, files, outside.read)?;
    let answer = answered(alloc, words, &mut shelf, outside);
    drop(shelf);
    answer
}

/// What the tool writes, and its status, for these words, where the store has this board in the file `b` and this
/// program in `p`.
pub fn answer(
    alloc: Global,
    words: &[&str],
    files: [&str; 2],
    outside: Outside,
) -> Result<(Status, Vec<u8>), Fail> {
    let words = owned_words(alloc, words)?;
    let answer = answered_to(alloc, &words, files, outside);
    drop(words);
    answer
}

const BOARD: &str = "plain U1 4\n";

const HELLO: &str = "ACTION A=P;PROCEDURE P;PRINT \"HELLO\";EXIT 0;ENDPROC;";

const PLAY: [&str; 4] = ["play", "board=b", "program=p", "action=A"];

#[test]
fn keeps_a_prefix_where_the_third_write_fails(rt: HostRuntime) -> Result<(), Fail> {
    let outside = Outside {
        bite: 4,
        write: 3,
        read: 0,
    };
    let (status, written) = answer(rt.alloc(), &PLAY, [BOARD, HELLO], outside)?;
    assert!(rt; status == Status::WriteFault && status.exit_code() == 10);
    assert!(rt; written.as_slice() == b"P HELLO\n".as_slice());
    Ok(())
}

// The exit code of each status.
#[test]
fn gives_exit_codes(rt: HostRuntime) {
    let table: [(Status, u8); 14] = [
        (Status::Done(0), 0),
        (Status::Done(-1), 1),
        (Status::Done(256), 1),
        (Status::Fault(RunFault::ShiftCount, 4), 2),
        (Status::Spent, 3),
        (Status::Refused(1, Reason::Syntax), 4),
        (Status::BoardRefused(1, BoardReason::Empty), 5),
        (Status::NoAction, 6),
        (Status::BadChoice, 6),
        (Status::Usage(1), 7),
        (Status::CodeRefused(0, CodeReason::Cut), 8),
        (Status::ReadFault, 9),
        (Status::WriteFault, 10),
        (Status::Memory, 11),
    ];
    for (status, code) in table {
        assert!(rt; status.exit_code() == code, "the status of {code}");
    }
}
