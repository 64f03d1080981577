//! The lines of what is refused.
ghost use Rattle.tool_io.specs.Lines.{IsWhole, HasPut};
ghost use Rattle.named_files.specs.Texts.{place_text, refusal_line, board_refusal_line, usage_line};

use board_text::BoardReason;
use stapl_lexer::Reason;
use tool_io::{Failed, Lines, Sink, put_count, put_count_line, put_word_line};

// Puts a piece and its line.
fn put_place<K: Sink>(lines: &mut Lines<K>, piece: u32, line: u32) -> Result<(), Failed>
    requires { IsWhole lines.old }
    ensures { HasPut K.Sink lines.old (place_text piece line) lines.new result }
{
    put_count(lines, b"R program ", piece)?;
    put_count(lines, b" line ", line)?;
    Ok(())
}

/// Puts the line of a refused program: the piece of its first fault, counted from 1, its line, counted from 1, and the
/// reason; both numbers are 0 if the text is too long.
///
/// `Failed` as of the sink.
pub fn put_refusal<K: Sink>(
    lines: &mut Lines<K>,
    piece: u32,
    line: u32,
    reason: Reason,
) -> Result<(), Failed>
    requires { IsWhole lines.old }
    ensures { HasPut K.Sink lines.old (refusal_line piece line reason) lines.new result }
{
    put_place(lines, piece, line)?;
    lines.put(b" ")?;
    put_word_line(lines, reason.name())?;
    Ok(())
}

/// Puts the line of a refused board: its first faulty line, counted from 1, or 0 if the text is too long, and the
/// reason.
///
/// `Failed` as of the sink.
pub fn put_board_refusal<K: Sink>(
    lines: &mut Lines<K>,
    line: u32,
    reason: BoardReason,
) -> Result<(), Failed>
    requires { IsWhole lines.old }
    ensures { HasPut K.Sink lines.old (board_refusal_line line reason) lines.new result }
{
    put_count(lines, b"R board ", line)?;
    lines.put(b" ")?;
    put_word_line(lines, reason.name())?;
    Ok(())
}

/// Puts the line of refused words: the first word, counted from 1, that is not as stated, or the number of words plus 1
/// if one is missing.
///
/// `Failed` as of the sink.
pub fn put_usage<K: Sink>(lines: &mut Lines<K>, n: u32) -> Result<(), Failed>
    requires { IsWhole lines.old }
    ensures { HasPut K.Sink lines.old (usage_line n) lines.new result }
{
    put_count_line(lines, b"R usage ", n)
}
