//! The answers to questions about a board: about one of its lines, and about the board alone.
ghost use Rattle.std.specs.Prelude.{◌≡◌, ◌≤◌, None, Some, map, length, string_bytes, IfOk};
ghost use Rattle.tool_io.specs.Lines.{IsWhole, IsSilent};
ghost use Rattle.tool_frame.specs.Answers.{Says};
ghost use Rattle.tool_frame.specs.Files.{OfFile, OfFiles, NamesThis, NamesOne, first_of, KeepsShelf};
ghost use Rattle.board_text.specs.Boards.{most_bytes};
ghost use Rattle.tool_questions.specs.BoardLines.{numbered_line, FaultAt, why_faulty, IsLongBoardAnswer, LineAnswer, CheckAnswer};
ghost use Rattle.tool_questions.specs.BoardLines.{HeldLineAnswer, HeldCheckAnswer};
ghost use Rattle.tool_questions.specs.Questions.{of_line, of_board, FileQuestionAnswer, NamesQuestionFile};

use crate::ask::refuse;
use crate::board_lines::{line_numbered, put_devices, put_fault, put_line_and_fault};
use crate::explanations::board_reason_explanation;
use crate::words::{part_asked, path_asked};
use board_text::{BoardReason, BoardTextRefused, MOST_BYTES, read_board};
use named_files::put_usage;
use play_words::Status;
use std::alloc::{AllocError, Global};
use tool_frame::NoAnswer;
use tool_io::{Lines, ReadRefused, Shelf, Sink, read_whole};

// What is said of the reason of a fault, if there is one.
fn why_faulty(alloc: Global, fault: Option<BoardReason>) -> Result<Vec<&'static str>, AllocError>
    ensures { IfOk result (λ why. map (λ line. line.now) why.items ≡ why_faulty fault) }
{
    match fault {
        Some(reason) => board_reason_explanation(alloc, reason),
        None => Ok(Vec::new(alloc)),
    }
}

// The reason of the first fault of a text, if that is at the line with this number.
fn fault_at(alloc: Global, text: &[u8], number: u32) -> Result<Option<BoardReason>, AllocError>
    ensures { IfOk result (FaultAt text.now number) }
{
    match read_board(alloc, text) {
        Ok(_devices) => Ok(None),
        Err(BoardTextRefused::At { line, .. }) if line != number => Ok(None),
        Err(BoardTextRefused::At { reason, .. }) => Ok(Some(reason)),
        Err(BoardTextRefused::Memory) => Err(AllocError),
    }
}

// Says what is known of a line that the text does not have.
fn answer_end<K: Sink>(
    text: &[u8],
    number: u32,
    fault: Option<BoardReason>,
    why: &[&'static str],
    lines: &mut Lines<K>,
) -> Result<Status, NoAnswer>
    requires small { length text.now ≤ most_bytes }
    requires none { numbered_line number text.now ≡ None }
    requires fault { FaultAt text.now number fault }
    requires why { map (λ line. line.now) why.now ≡ why_faulty fault }
    requires whole { IsWhole lines.old }
    ensures { Says K.Sink (LineAnswer text.now number) ⊥ lines.old lines.new result }
{
    match fault {
        Some(reason) => {
            put_fault(lines, number, reason, why)?;
            Ok(Status::Done(0))
        }
        None => {
            put_usage(lines, 2)?;
            Ok(Status::Usage(2))
        }
    }
}

// Says what is known of a line of a text that is not too long, if the reason of its first fault is known, if that is at
// this line.
fn answer_line<K: Sink>(
    alloc: Global,
    text: &[u8],
    number: u32,
    fault: Option<BoardReason>,
    lines: &mut Lines<K>,
) -> Result<Status, NoAnswer>
    requires small { length text.now ≤ most_bytes }
    requires fault { FaultAt text.now number fault }
    requires whole { IsWhole lines.old }
    ensures { Says K.Sink (LineAnswer text.now number) ⊥ lines.old lines.new result }
{
    let why = why_faulty(alloc, fault)?;
    match line_numbered(text, number) {
        Some(line) => {
            put_line_and_fault(lines, number, line, fault, &why)?;
            Ok(Status::Done(0))
        }
        None => answer_end(text, number, fault, &why, lines),
    }
}

// Says what is known of the line with this number of a text that is not too long.
fn answer_text<K: Sink>(
    alloc: Global,
    text: &[u8],
    number: u32,
    lines: &mut Lines<K>,
) -> Result<Status, NoAnswer>
    requires small { length text.now ≤ most_bytes }
    requires whole { IsWhole lines.old }
    ensures { Says K.Sink (LineAnswer text.now number) ⊥ lines.old lines.new result }
{
    let fault = fault_at(alloc, text, number)?;
    answer_line(alloc, text, number, fault, lines)
}

// Says how many devices the board has that is a text, which is not too long, or what is known of its first faulty line.
fn check_text<K: Sink>(alloc: Global, text: &[u8], lines: &mut Lines<K>) -> Result<Status, NoAnswer>
    requires small { length text.now ≤ most_bytes }
    requires whole { IsWhole lines.old }
    ensures { Says K.Sink (CheckAnswer text.now) ⊥ lines.old lines.new result }
{
    match read_board(alloc, text) {
        Ok(devices) => {
            put_devices(lines, &devices)?;
            Ok(Status::Done(0))
        }
        Err(BoardTextRefused::At { line, reason }) => {
            answer_line(alloc, text, line, Some(reason), lines)
        }
        Err(BoardTextRefused::Memory) => Err(NoAnswer::Memory),
    }
}

/// Says that a text is too long to be a board.
///
/// `Write` as of the sink; `Memory` is want of memory, and then nothing has reached the sink.
pub fn answer_long<K: Sink>(alloc: Global, lines: &mut Lines<K>) -> Result<Status, NoAnswer>
    requires whole { IsWhole lines.old }
    ensures { Says K.Sink IsLongBoardAnswer ⊥ lines.old lines.new result }
{
    let why = board_reason_explanation(alloc, BoardReason::TooLong)?;
    put_fault(lines, 0, BoardReason::TooLong, &why)?;
    Ok(Status::Done(0))
}

/// Says what is known of the line with this number, counted from 1, of a text, which may be any bytes: what `--line`
/// says of it.
///
/// `Write` as of the sink; `Memory` is want of memory, and then nothing has reached the sink.
pub fn show_line<K: Sink>(
    alloc: Global,
    text: &[u8],
    number: u32,
    lines: &mut Lines<K>,
) -> Result<Status, NoAnswer>
    requires { IsWhole lines.old }
    ensures { Says K.Sink (LineAnswer text.now number) ⊥ lines.old lines.new result }
{
    if text.len() > MOST_BYTES {
        return answer_long(alloc, lines);
    }
    answer_text(alloc, text, number, lines)
}

// Says what is known of the line with this number, counted from 1, of the board in a file, which may be any bytes.
fn answer_file<S: Shelf, K: Sink>(
    alloc: Global,
    path: &str,
    number: u32,
    shelf: &mut S,
    lines: &mut Lines<K>,
) -> Result<Status, NoAnswer>
    requires { IsWhole lines.old }
    ensures says { OfFile (S.told shelf.old) (Some path.now) (λ held.
        Says K.Sink (HeldLineAnswer number held) (IsSilent lines.old lines.new) lines.old lines.new result) }
    ensures shelf { KeepsShelf S.Shelf (NamesThis path.now) (λ read. read ≡ path.now) shelf.old shelf.new result }
{
    match read_whole(alloc, shelf, path, MOST_BYTES as u32) {
        Ok(bytes) => answer_text(alloc, &bytes, number, lines),
        Err(ReadRefused::TooLong) => answer_long(alloc, lines),
        Err(ReadRefused::ReadFault) => Err(NoAnswer::Read),
        Err(ReadRefused::Memory) => Err(NoAnswer::Memory),
    }
}

// Says how many devices the board in a file has, which may be any bytes, or what is known of its first faulty line.
fn check_file<S: Shelf, K: Sink>(
    alloc: Global,
    path: &str,
    shelf: &mut S,
    lines: &mut Lines<K>,
) -> Result<Status, NoAnswer>
    requires { IsWhole lines.old }
    ensures says { OfFile (S.told shelf.old) (Some path.now) (λ held.
        Says K.Sink (HeldCheckAnswer held) (IsSilent lines.old lines.new) lines.old lines.new result) }
    ensures shelf { KeepsShelf S.Shelf (NamesThis path.now) (λ read. read ≡ path.now) shelf.old shelf.new result }
{
    match read_whole(alloc, shelf, path, MOST_BYTES as u32) {
        Ok(bytes) => check_text(alloc, &bytes, lines),
        Err(ReadRefused::TooLong) => answer_long(alloc, lines),
        Err(ReadRefused::ReadFault) => Err(NoAnswer::Read),
        Err(ReadRefused::Memory) => Err(NoAnswer::Memory),
    }
}

/// Answers the words after `--line`: its number, counted from 1, and the file of its board, which may hold any bytes. It
/// says the text of the line, and if the board is refused there, the line of the refusal and what is said of its
/// reason. If the end comes too early, the board is refused at the number after its last line; a board that is too long
/// is refused whatever the number. If there is no such line, the second word of the command is refused.
///
/// `Read` comes only if the count of the file rose, or stands at its last value; `Write` as of the sink; `Memory` is
/// want of memory, and then nothing has reached the sink.
pub(crate) fn ask_line<S: Shelf, K: Sink>(
    alloc: Global,
    rest: &[String],
    shelf: &mut S,
    lines: &mut Lines<K>,
) -> Result<Status, NoAnswer>
    requires { IsWhole lines.old }
    ensures says { OfFiles (NamesOne (NamesQuestionFile of_line (map string_bytes rest.now))) (S.told shelf.old) (λ contents.
        Says K.Sink (FileQuestionAnswer of_line (first_of contents) (map string_bytes rest.now)) (IsSilent lines.old lines.new)
        lines.old lines.new result) }
    ensures shelf { KeepsShelf S.Shelf (NamesOne (NamesQuestionFile of_line (map string_bytes rest.now)))
        (NamesQuestionFile of_line (map string_bytes rest.now)) shelf.old shelf.new result }
{
    match part_asked(rest, "board=") {
        Ok(asked) => answer_file(alloc, asked.path, asked.number, shelf, lines),
        Err(n) => refuse(n, lines),
    }
}

/// Answers the words after `--board`, which are the file of a board; it may hold any bytes. It says how many devices the
/// board has, or what `--line` says of its first faulty line.
///
/// `Read` comes only if the count of the file rose, or stands at its last value; `Write` as of the sink; `Memory` is
/// want of memory, and then nothing has reached the sink.
pub(crate) fn ask_board<S: Shelf, K: Sink>(
    alloc: Global,
    rest: &[String],
    shelf: &mut S,
    lines: &mut Lines<K>,
) -> Result<Status, NoAnswer>
    requires { IsWhole lines.old }
    ensures says { OfFiles (NamesOne (NamesQuestionFile of_board (map string_bytes rest.now))) (S.told shelf.old) (λ contents.
        Says K.Sink (FileQuestionAnswer of_board (first_of contents) (map string_bytes rest.now)) (IsSilent lines.old lines.new)
        lines.old lines.new result) }
    ensures shelf { KeepsShelf S.Shelf (NamesOne (NamesQuestionFile of_board (map string_bytes rest.now)))
        (NamesQuestionFile of_board (map string_bytes rest.now)) shelf.old shelf.new result }
{
    match path_asked(rest, "board=", 2) {
        Ok(path) => check_file(alloc, path, shelf, lines),
        Err(n) => refuse(n, lines),
    }
}
