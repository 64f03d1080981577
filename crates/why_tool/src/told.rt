//! What is said under a head of the table of explanations, with what comes before it.
ghost use Rattle.std.specs.Prelude.{◌≡◌, [], ◌++◌, map};
ghost use Rattle.std.specs.List.{flat_map};
ghost use Rattle.tool_io.specs.Lines.{IsWhole, HasPut};
ghost use Rattle.tool_io.specs.Texts.{word_line};
ghost use Rattle.tool_frame.specs.Answers.{Says};
ghost use Rattle.why_tool.specs.Texts.{unread_line, misfit_line, front_text};
ghost use Rattle.why_tool.specs.Told.{IsToldUnder};

use code_plays::put_ending;
use play_tool::put_code_refusal;
use play_words::Status;
use stapl_code::CodeReason;
use stapl_meaning::Ending;
use std::alloc::Global;
use tool_frame::NoAnswer;
use tool_io::{Failed, Lines, Sink, put_labelled_text, put_word_line};
use tool_questions::{lines_with, put_paragraphs};

/// What comes before what is said.
#[derive(Clone, Copy)]
pub(crate) enum Front<'a> {
    /// The file of this path cannot be read.
    Unread(&'a [u8]),
    /// A code is refused: the offset of its first fault in bytes, and the reason.
    CodeAt(u32, CodeReason),
    /// What this name stands for does not fit the program or the board.
    Misfit(&'a [u8]),
    /// A play ended so.
    Ended(Ending),
    /// Nothing.
    Nothing,
}

// Puts that a file cannot be read.
fn put_unread<K: Sink>(lines: &mut Lines<K>, path: &[u8]) -> Result<(), Failed>
    requires { IsWhole lines.old }
    ensures { HasPut K.Sink lines.old (unread_line path.now) lines.new result }
{
    put_labelled_text(lines, b"cannot read ", path)?;
    lines.put(b"\n")
}

// Puts the line of a name that does not fit.
fn put_misfit<K: Sink>(lines: &mut Lines<K>, name: &[u8]) -> Result<(), Failed>
    requires { IsWhole lines.old }
    ensures { HasPut K.Sink lines.old (misfit_line name.now) lines.new result }
{
    lines.put(b"R ")?;
    lines.put(name)?;
    lines.put(b"\n")
}

// Puts what comes before what is said.
fn put_front<K: Sink>(lines: &mut Lines<K>, front: Front) -> Result<(), Failed>
    requires { IsWhole lines.old }
    ensures { HasPut K.Sink lines.old (front_text front.entry) lines.new result }
{
    match front {
        Front::Unread(path) => put_unread(lines, path),
        Front::CodeAt(offset, reason) => put_code_refusal(lines, offset, reason),
        Front::Misfit(name) => put_misfit(lines, name),
        Front::Ended(ending) => put_ending(lines, ending),
        Front::Nothing => lines.put(b""),
    }
}

/// Puts what is said, which is these paragraphs, after what comes before it.
///
/// `Failed` as of the sink.
pub(crate) fn put_told<K: Sink>(
    lines: &mut Lines<K>,
    front: Front,
    said: &[&'static str],
) -> Result<(), Failed>
    requires { IsWhole lines.old }
    ensures { HasPut K.Sink lines.old (front_text front.entry ++ flat_map word_line (map (λ line. line.now) said.now))
        lines.new result }
{
    put_front(lines, front)?;
    put_paragraphs(lines, said)
}

/// Says what the table says under a head, after what comes before it.
///
/// `Write` as of the sink; `Memory` is want of memory, and then nothing has reached the sink.
pub(crate) fn tell<K: Sink>(
    alloc: Global,
    front: Front,
    head: &[u8],
    lines: &mut Lines<K>,
) -> Result<Status, NoAnswer>
    requires { IsWhole lines.old }
    ensures { Says K.Sink (IsToldUnder (front_text front.entry) head.now []) ⊥ lines.old lines.new result }
{
    let said = lines_with(alloc, head)?;
    put_told(lines, front, &said)?;
    Ok(Status::Done(0))
}
