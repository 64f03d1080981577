//! A trace against a board.
ghost use Rattle.std.specs.Prelude.{◌≡◌, ◌≤◌, length, map, Some};
ghost use Rattle.trace_check.specs.Limits.{trace_limit};
ghost use Rattle.tool_io.specs.Lines.{IsWhole};
ghost use Rattle.tool_frame.specs.Answers.{Says};
ghost use Rattle.board_text.specs.Boards.{CanBeFitted};
ghost use Rattle.chain_sim.specs.Rack.{IsRack};
ghost use Rattle.tool_frame.specs.Files.{OfFile, NamesThis, KeepsShelf};
ghost use Rattle.tool_frame.specs.Frame.{SaysAndLeaves};
ghost use Rattle.trace_tool.specs.Answers.{TraceAnswer, FileAnswer};
ghost use Rattle.trace_tool.specs.FinalRacks.{HoldsLed, HeldLed, KeepsRack, LeavesRack};

use crate::TraceStatus;
use crate::lines::{put_bad_line, put_differs, put_good, put_too_long};
use chain_sim::fit_board;
use dev_card::{Desc, Device};
use std::alloc::Global;
use tool_frame::NoAnswer;
use tool_io::{Lines, ReadRefused, Shelf, Sink, read_whole};
use trace_check::{TRACE_LIMIT, TraceRefused, check_trace};

// Compares a text with a board, which is fitted into the rack.
fn compare<K: Sink>(
    alloc: Global,
    devices: &[Desc],
    text: &[u8],
    rack: &mut Vec<Box<dyn Device>>,
    lines: &mut Lines<K>,
) -> Result<TraceStatus, NoAnswer>
    requires devices { CanBeFitted devices.now }
    requires few { length text.now ≤ trace_limit }
    requires rack { IsRack (map kind_of rack.old.items) }
    requires whole { IsWhole lines.old }
    ensures says { Says K.Sink (TraceAnswer devices.now text.now) ⊥ lines.old lines.new result }
    ensures rack { KeepsRack kind_of fitted (HoldsLed devices.now text.now) rack.old.items rack.new.items result }
{
    let places = fit_board(alloc, rack, devices)?;
    match check_trace(rack, &places, text) {
        Ok(n) => {
            put_good(lines, n, rack, &places, devices)?;
            Ok(TraceStatus::Good(n))
        }
        Err(TraceRefused::Differs(i)) => {
            put_differs(lines, i)?;
            Ok(TraceStatus::Differs(i))
        }
        Err(TraceRefused::BadLine(n)) => {
            put_bad_line(lines, n)?;
            Ok(TraceStatus::BadLine(n))
        }
    }
}

/// Compares the trace in a file with a board of these devices, which is fitted into the rack. It is not fitted if the
/// trace is too long, or could not be read.
pub(crate) fn answer_file<S: Shelf, K: Sink>(
    alloc: Global,
    devices: &[Desc],
    path: &str,
    shelf: &mut S,
    rack: &mut Vec<Box<dyn Device>>,
    lines: &mut Lines<K>,
) -> Result<TraceStatus, NoAnswer>
    requires devices { CanBeFitted devices.now }
    requires rack { IsRack (map kind_of rack.old.items) }
    requires whole { IsWhole lines.old }
    ensures answers { OfFile (S.told shelf.old) (Some path.now) (λ held. SaysAndLeaves K.Sink
        (FileAnswer devices.now held) (LeavesRack kind_of fitted (HeldLed devices.now held))
        lines.old lines.new rack.old.items rack.new.items result) }
    ensures shelf { KeepsShelf S.Shelf (NamesThis path.now) (λ read. read ≡ path.now) shelf.old shelf.new result }
{
    match read_whole(alloc, shelf, path, TRACE_LIMIT) {
        Ok(bytes) => compare(alloc, devices, &bytes, rack, lines),
        Err(ReadRefused::TooLong) => {
            put_too_long(lines)?;
            Ok(TraceStatus::TooLong)
        }
        Err(ReadRefused::ReadFault) => Err(NoAnswer::Read),
        Err(ReadRefused::Memory) => Err(NoAnswer::Memory),
    }
}
