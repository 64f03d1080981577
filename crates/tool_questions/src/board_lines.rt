//! The lines of a board, by their numbers, and what is written of them.
ghost use Rattle.std.specs.Prelude.{◌≡◌, ◌≤◌, ◌++◌, length, map, slice_get, Some};
ghost use Rattle.std.specs.Option.{option_map};
ghost use Rattle.std.specs.Str.Lines.{lines};
ghost use Rattle.tool_io.specs.Lines.{IsWhole, HasPut};
ghost use Rattle.dev_card.specs.Board.{most_devices};
ghost use Rattle.tool_questions.specs.BoardLines.{numbered_line, why_faulty, line_text, fault_text, devices_line};

use crate::explanations::put_paragraphs;
use board_text::{BoardReason, first_line};
use dev_card::Desc;
use named_files::put_board_refusal;
use tool_io::{Failed, Lines, Sink, put_count, put_count_line, put_word_line};

// The line at a place, counted from 0.
fn line_at(text: &[u8], place: u32) -> Option<&[u8]>
    ensures { option_map (λ line. line.now) result ≡ slice_get (lines text.now) place }
{
    let mut rest = text;
    let mut left = place;
    'lines: while !rest.is_empty() {
        let (line, len) = first_line(rest);
        if left == 0 {
            return Some(line);
        }
        left -= 1;
        rest = &rest[len..];
    }
    None
}

/// The line with this number, counted from 1, without its end.
pub(crate) fn line_numbered(text: &[u8], number: u32) -> Option<&[u8]>
    ensures { option_map (λ line. line.now) result ≡ numbered_line number text.now }
{
    if number == 0 {
        return None;
    }
    line_at(text, number - 1)
}

// Puts the number of a line, and its text.
fn put_line<K: Sink>(lines: &mut Lines<K>, number: u32, line: &[u8]) -> Result<(), Failed>
    requires { IsWhole lines.old }
    ensures { HasPut K.Sink lines.old (line_text number line.now) lines.new result }
{
    put_count(lines, b"line ", number)?;
    lines.put(b" ")?;
    put_word_line(lines, line)
}

/// Puts how many devices a board has.
///
/// `Failed` as of the sink.
pub fn put_devices<K: Sink>(lines: &mut Lines<K>, devices: &[Desc]) -> Result<(), Failed>
    requires whole { IsWhole lines.old }
    requires few { length devices.now ≤ most_devices }
    ensures { HasPut K.Sink lines.old (devices_line devices.now) lines.new result }
{
    put_count_line(lines, b"devices ", devices.len() as u32)
}

/// Puts the line of the refusal of a board at a line, and what is said of its reason.
///
/// `Failed` as of the sink.
pub(crate) fn put_fault<K: Sink>(
    lines: &mut Lines<K>,
    number: u32,
    reason: BoardReason,
    why: &[&str],
) -> Result<(), Failed>
    requires whole { IsWhole lines.old }
    requires why { map (λ line. line.now) why.now ≡ why_faulty (Some reason) }
    ensures { HasPut K.Sink lines.old (fault_text number (Some reason)) lines.new result }
{
    put_board_refusal(lines, number, reason)?;
    put_paragraphs(lines, why)
}

// Puts the refusal of a board at a line, if it is refused there.
fn put_fault_if<K: Sink>(
    lines: &mut Lines<K>,
    number: u32,
    fault: Option<BoardReason>,
    why: &[&str],
) -> Result<(), Failed>
    requires whole { IsWhole lines.old }
    requires why { map (λ line. line.now) why.now ≡ why_faulty fault }
    ensures { HasPut K.Sink lines.old (fault_text number fault) lines.new result }
{
    match fault {
        Some(reason) => put_fault(lines, number, reason, why),
        None => lines.put(b""),
    }
}

/// Puts a line of a board, and the refusal of the board if that is at this line.
///
/// `Failed` as of the sink.
pub(crate) fn put_line_and_fault<K: Sink>(
    lines: &mut Lines<K>,
    number: u32,
    line: &[u8],
    fault: Option<BoardReason>,
    why: &[&str],
) -> Result<(), Failed>
    requires whole { IsWhole lines.old }
    requires why { map (λ line. line.now) why.now ≡ why_faulty fault }
    ensures { HasPut K.Sink lines.old (line_text number line.now ++ fault_text number fault) lines.new result }
{
    put_line(lines, number, line)?;
    put_fault_if(lines, number, fault, why)
}
