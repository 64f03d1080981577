//! The line of how a play ends.
ghost use Rattle.std.specs.Prelude.{pos, codes};
ghost use Rattle.tool_io.specs.Lines.{IsWhole, HasPut};
ghost use Rattle.tool_io.specs.Texts.{number_line};
ghost use Rattle.stapl_meaning.specs.Texts.{ending_line};
ghost use Rattle.stapl_meaning.specs.declared.events.Ending.TheVariants.{Exit, Fault};

use stapl_meaning::{Ending, RunFault};
use tool_io::{Failed, Lines, Sink, put_count_line, put_number_line};

// Puts the line of an exit.
fn put_exit<K: Sink>(lines: &mut Lines<K>, code: i32) -> Result<(), Failed>
    requires { IsWhole lines.old }
    ensures { HasPut K.Sink lines.old (ending_line (Exit code)) lines.new result }
{
    put_number_line(lines, b"E exit ", i64::from(code))
}

// Puts where a fault came, and the end of its line.
fn put_at_piece<K: Sink>(lines: &mut Lines<K>, piece: u32) -> Result<(), Failed>
    requires { IsWhole lines.old }
    ensures { HasPut K.Sink lines.old (number_line (codes " at ") (pos piece)) lines.new result }
{
    put_count_line(lines, b" at ", piece)
}

// Puts the line of a fault in the turn of a piece.
fn put_fault<K: Sink>(lines: &mut Lines<K>, fault: RunFault, piece: u32) -> Result<(), Failed>
    requires { IsWhole lines.old }
    ensures { HasPut K.Sink lines.old (ending_line (Fault fault piece)) lines.new result }
{
    lines.put(b"E fault ")?;
    lines.put(fault.name())?;
    put_at_piece(lines, piece)?;
    Ok(())
}

/// Puts the line of how a play ends.
///
/// `Failed` as of the sink.
pub fn put_ending<K: Sink>(lines: &mut Lines<K>, ending: Ending) -> Result<(), Failed>
    requires { IsWhole lines.old }
    ensures { HasPut K.Sink lines.old (ending_line ending) lines.new result }
{
    match ending {
        Ending::Exit(code) => put_exit(lines, code),
        Ending::Fault(fault, piece) => put_fault(lines, fault, piece),
        Ending::Spent => lines.put(b"E spent\n"),
    }
}
