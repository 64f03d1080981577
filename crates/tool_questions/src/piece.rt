//! The answer to a question about a piece of a program.
ghost use Rattle.std.specs.Prelude.{◌≡◌, ◌≤◌, None, Some, map, length, string_bytes, IfSome, IfOk};
ghost use Rattle.tool_io.specs.Lines.{IsWhole, IsSilent};
ghost use Rattle.tool_frame.specs.Answers.{Says};
ghost use Rattle.tool_frame.specs.Files.{OfFile, OfFiles, NamesThis, NamesOne, first_of, KeepsShelf};
ghost use Rattle.stapl_lexer.specs.Pieces.{LiesIn, text_limit};
ghost use Rattle.tool_questions.specs.Pieces.{why_refused, IsReport, PieceAnswer, IsLongAnswer, HeldPieceAnswer};
ghost use Rattle.tool_questions.specs.Questions.{of_piece, FileQuestionAnswer, NamesQuestionFile};

use crate::ask::refuse;
use crate::explanations::reason_explanation;
use crate::lines::{Shown, put_refused, put_shown};
use crate::report::{PieceReport, Refusal, report_of};
use crate::words::part_asked;
use named_files::put_usage;
use play_words::Status;
use stapl_lexer::{Reason, TEXT_LIMIT};
use std::alloc::{AllocError, Global};
use tool_frame::NoAnswer;
use tool_io::{Lines, ReadRefused, Shelf, Sink, read_whole};

// What is said of the reason of a refusal, if there is one.
fn why_refused(alloc: Global, refusal: Option<Refusal>) -> Result<Vec<&'static str>, AllocError>
    ensures { IfOk result (λ why. map (λ line. line.now) why.items ≡ why_refused refusal) }
{
    match refusal {
        Some(refusal) => reason_explanation(alloc, refusal.reason),
        None => Ok(Vec::new(alloc)),
    }
}

// Says what is known of a piece that the text does not have.
fn answer_end<K: Sink>(
    text: &[u8],
    number: u32,
    report: PieceReport,
    why: &[&'static str],
    lines: &mut Lines<K>,
) -> Result<Status, NoAnswer>
    requires small { length text.now ≤ text_limit }
    requires report { IsReport text.now number report }
    requires none { report.place ≡ None }
    requires why { map (λ line. line.now) why.now ≡ why_refused report.refusal }
    requires whole { IsWhole lines.old }
    ensures { Says K.Sink (PieceAnswer text.now number) ⊥ lines.old lines.new result }
{
    match report.refusal {
        Some(refusal) => {
            put_refused(lines, number, refusal, why)?;
            Ok(Status::Done(0))
        }
        None => {
            put_usage(lines, 2)?;
            Ok(Status::Usage(2))
        }
    }
}

// Says what is known of a piece.
fn answer_report<K: Sink>(
    text: &[u8],
    number: u32,
    report: PieceReport,
    why: &[&'static str],
    lines: &mut Lines<K>,
) -> Result<Status, NoAnswer>
    requires small { length text.now ≤ text_limit }
    requires report { IsReport text.now number report }
    requires lies { IfSome report.place (LiesIn text.now) }
    requires why { map (λ line. line.now) why.now ≡ why_refused report.refusal }
    requires whole { IsWhole lines.old }
    ensures { Says K.Sink (PieceAnswer text.now number) ⊥ lines.old lines.new result }
{
    let refusal = report.refusal;
    match report.place {
        Some(piece) => {
            let shown = Shown {
                text,
                number,
                piece,
                refusal,
                why,
            };
            put_shown(lines, &shown)?;
            Ok(Status::Done(0))
        }
        None => answer_end(text, number, report, why, lines),
    }
}

// Says what is known of a piece of a text that is not too long.
fn answer_text<K: Sink>(
    alloc: Global,
    text: &[u8],
    number: u32,
    lines: &mut Lines<K>,
) -> Result<Status, NoAnswer>
    requires small { length text.now ≤ text_limit }
    requires whole { IsWhole lines.old }
    ensures { Says K.Sink (PieceAnswer text.now number) ⊥ lines.old lines.new result }
{
    let report = report_of(alloc, text, number)?;
    let why = why_refused(alloc, report.refusal)?;
    answer_report(text, number, report, &why, lines)
}

/// Says that a text is too long to be a program.
///
/// `Write` as of the sink; `Memory` is want of memory, and then nothing has reached the sink.
pub fn answer_long<K: Sink>(alloc: Global, lines: &mut Lines<K>) -> Result<Status, NoAnswer>
    requires whole { IsWhole lines.old }
    ensures { Says K.Sink IsLongAnswer ⊥ lines.old lines.new result }
{
    let refusal = Refusal {
        line: 0,
        reason: Reason::TooLong,
    };
    let why = why_refused(alloc, Some(refusal))?;
    put_refused(lines, 0, refusal, &why)?;
    Ok(Status::Done(0))
}

/// Says what is known of the piece with this number, counted from 1, of a text, which may be any bytes: what `--piece`
/// says of it.
///
/// `Write` as of the sink; `Memory` is want of memory, and then nothing has reached the sink.
pub fn show_piece<K: Sink>(
    alloc: Global,
    text: &[u8],
    number: u32,
    lines: &mut Lines<K>,
) -> Result<Status, NoAnswer>
    requires { IsWhole lines.old }
    ensures { Says K.Sink (PieceAnswer text.now number) ⊥ lines.old lines.new result }
{
    if text.len() > TEXT_LIMIT {
        return answer_long(alloc, lines);
    }
    answer_text(alloc, text, number, lines)
}

// Says what is known of the piece with this number, counted from 1, of the program in a file, which may be any bytes.
fn answer_piece<S: Shelf, K: Sink>(
    alloc: Global,
    path: &str,
    number: u32,
    shelf: &mut S,
    lines: &mut Lines<K>,
) -> Result<Status, NoAnswer>
    requires { IsWhole lines.old }
    ensures says { OfFile (S.told shelf.old) (Some path.now) (λ held.
        Says K.Sink (HeldPieceAnswer number held) (IsSilent lines.old lines.new) lines.old lines.new result) }
    ensures shelf { KeepsShelf S.Shelf (NamesThis path.now) (λ read. read ≡ path.now) shelf.old shelf.new result }
{
    match read_whole(alloc, shelf, path, TEXT_LIMIT as u32) {
        Ok(bytes) => answer_text(alloc, &bytes, number, lines),
        Err(ReadRefused::TooLong) => answer_long(alloc, lines),
        Err(ReadRefused::ReadFault) => Err(NoAnswer::Read),
        Err(ReadRefused::Memory) => Err(NoAnswer::Memory),
    }
}

/// Answers the words after `--piece`: its number, counted from 1, and the file of its program, which may hold any bytes.
/// It says the line and the text of the piece, and if the program is refused there, the line of the refusal and what is
/// said of its reason. If the program is refused at its end, that is at the number after its last piece; a program that
/// is too long is refused whatever the number. If there is no such piece, the second word of the command is refused.
///
/// `Read` comes only if the count of the file rose, or stands at its last value; `Write` as of the sink; `Memory` is
/// want of memory, and then nothing has reached the sink.
pub(crate) fn ask_piece<S: Shelf, K: Sink>(
    alloc: Global,
    rest: &[String],
    shelf: &mut S,
    lines: &mut Lines<K>,
) -> Result<Status, NoAnswer>
    requires { IsWhole lines.old }
    ensures says { OfFiles (NamesOne (NamesQuestionFile of_piece (map string_bytes rest.now))) (S.told shelf.old) (λ contents.
        Says K.Sink (FileQuestionAnswer of_piece (first_of contents) (map string_bytes rest.now)) (IsSilent lines.old lines.new)
        lines.old lines.new result) }
    ensures shelf { KeepsShelf S.Shelf (NamesOne (NamesQuestionFile of_piece (map string_bytes rest.now)))
        (NamesQuestionFile of_piece (map string_bytes rest.now)) shelf.old shelf.new result }
{
    match part_asked(rest, "program=") {
        Ok(asked) => answer_piece(alloc, asked.path, asked.number, shelf, lines),
        Err(n) => refuse(n, lines),
    }
}
