//! What is answered for the trace in a file.
ghost use Rattle.std.specs.Prelude.{◌≡◌, ◌≤◌, Some, length};
ghost use Rattle.trace_check.specs.Limits.{trace_limit};
ghost use Rattle.tool_io.specs.Lines.{IsWhole, IsSilent};
ghost use Rattle.tool_frame.specs.Answers.{Says};
ghost use Rattle.tool_frame.specs.Files.{OfFile, NamesThis, KeepsShelf};
ghost use Rattle.wave_tool.specs.Answers.{WaveAnswer, FileAnswer};

use crate::WaveStatus;
use crate::wave::put_wave;
use std::alloc::Global;
use tool_frame::NoAnswer;
use tool_io::{Lines, ReadRefused, Shelf, Sink, read_whole};
use trace_check::{TRACE_LIMIT, first_bad_line};
use trace_tool::{put_bad_line, put_too_long};

// Answers the text of a trace.
fn answer_text<K: Sink>(text: &[u8], lines: &mut Lines<K>) -> Result<WaveStatus, NoAnswer>
    requires few { length text.now ≤ trace_limit }
    requires whole { IsWhole lines.old }
    ensures { Says K.Sink (WaveAnswer text.now) ⊥ lines.old lines.new result }
{
    match first_bad_line(text) {
        Some(n) => {
            put_bad_line(lines, n)?;
            Ok(WaveStatus::BadLine(n))
        }
        None => {
            put_wave(lines, text)?;
            Ok(WaveStatus::Written)
        }
    }
}

/// Answers the trace in a file.
pub(crate) fn answer_file<S: Shelf, K: Sink>(
    alloc: Global,
    path: &str,
    shelf: &mut S,
    lines: &mut Lines<K>,
) -> Result<WaveStatus, NoAnswer>
    requires { IsWhole lines.old }
    ensures says { OfFile (S.told shelf.old) (Some path.now) (λ held.
        Says K.Sink (FileAnswer held) (IsSilent lines.old lines.new) lines.old lines.new result) }
    ensures shelf { KeepsShelf S.Shelf (NamesThis path.now) (λ read. read ≡ path.now) shelf.old shelf.new result }
{
    match read_whole(alloc, shelf, path, TRACE_LIMIT) {
        Ok(bytes) => answer_text(&bytes, lines),
        Err(ReadRefused::TooLong) => {
            put_too_long(lines)?;
            Ok(WaveStatus::TooLong)
        }
        Err(ReadRefused::ReadFault) => Err(NoAnswer::Read),
        Err(ReadRefused::Memory) => Err(NoAnswer::Memory),
    }
}
