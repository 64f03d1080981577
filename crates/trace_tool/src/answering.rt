//! What is answered to a request: its board, and then its trace.
ghost use Rattle.std.specs.Prelude.{map};
ghost use Rattle.tool_io.specs.Lines.{IsWhole};
ghost use Rattle.tool_frame.specs.Files.{KeepsShelf};
ghost use Rattle.tool_frame.specs.Frame.{SaysAndLeaves};
ghost use Rattle.chain_sim.specs.Rack.{IsRack};
ghost use Rattle.named_files.specs.Named.{files_named};
ghost use Rattle.named_files.specs.Contents.{OfContents, AreFilesOf, IsReached};
ghost use Rattle.trace_tool.specs.Answers.{RequestAnswer};
ghost use Rattle.trace_tool.specs.FinalRacks.{RequestHoldsLed, LeavesRack};

use crate::TraceStatus;
use crate::comparing::answer_file;
use dev_card::Device;
use named_files::{BoardNotRead, Named, board_named, put_board_refusal};
use std::alloc::Global;
use tool_frame::NoAnswer;
use tool_io::{Lines, Shelf, Sink};

/// Answers a request: its board, and then its trace.
pub(crate) fn answer_request<S: Shelf, K: Sink>(
    alloc: Global,
    named: Named,
    shelf: &mut S,
    rack: &mut Vec<Box<dyn Device>>,
    lines: &mut Lines<K>,
) -> Result<TraceStatus, NoAnswer>
    requires rack { IsRack (map kind_of rack.old.items) }
    requires whole { IsWhole lines.old }
    ensures answers { OfContents (S.told shelf.old) (files_named named.entry) (λ contents. SaysAndLeaves K.Sink
        (RequestAnswer contents) (LeavesRack kind_of fitted (RequestHoldsLed contents))
        lines.old lines.new rack.old.items rack.new.items result) }
    ensures shelf { KeepsShelf S.Shelf (AreFilesOf (files_named named.entry))
        (IsReached (S.told shelf.old) (files_named named.entry)) shelf.old shelf.new result }
{
    match board_named(alloc, shelf, named.board) {
        Ok(devices) => answer_file(alloc, &devices, named.file, shelf, rack, lines),
        Err(BoardNotRead::At { line, reason }) => {
            put_board_refusal(lines, line, reason)?;
            Ok(TraceStatus::BoardRefused(line, reason))
        }
        Err(BoardNotRead::Read) => Err(NoAnswer::Read),
        Err(BoardNotRead::Memory) => Err(NoAnswer::Memory),
    }
}
