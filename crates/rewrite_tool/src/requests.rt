//! A request: a board, and the program of a file for a run of its devices.
ghost use Rattle.tool_io.specs.Lines.{IsWhole, IsSilent};
ghost use Rattle.tool_frame.specs.Answers.{Says};
ghost use Rattle.tool_frame.specs.Files.{KeepsShelf};
ghost use Rattle.named_files.specs.Contents.{OfContents, AreFilesOf, IsReached};
ghost use Rattle.rewrite_tool.specs.Words.{IsPlaceRun};
ghost use Rattle.rewrite_tool.specs.Named.{request_of};
ghost use Rattle.rewrite_tool.specs.Answers.{RequestAnswer};

use crate::RewriteStatus;
use crate::programs::answer_file;
use crate::words::Named;
use named_files::{BoardNotRead, board_named, put_board_refusal};
use std::alloc::Global;
use tool_frame::NoAnswer;
use tool_io::{Lines, Shelf, Sink};

/// Answers a request: its board, and then its program.
pub(crate) fn answer_request<S: Shelf, K: Sink>(
    alloc: Global,
    named: Named,
    shelf: &mut S,
    lines: &mut Lines<K>,
) -> Result<RewriteStatus, NoAnswer>
    requires run { IsPlaceRun named.run }
    requires whole { IsWhole lines.old }
    ensures says { OfContents (S.told shelf.old) (request_of named.entry).files (λ contents. Says K.Sink
        (RequestAnswer (request_of named.entry) contents) (IsSilent lines.old lines.new)
        lines.old lines.new result) }
    ensures shelf { KeepsShelf S.Shelf (AreFilesOf (request_of named.entry).files)
        (IsReached (S.told shelf.old) (request_of named.entry).files) shelf.old shelf.new result }
{
    match board_named(alloc, shelf, named.board) {
        Ok(devices) => answer_file(alloc, named.program, &devices, named.run, shelf, lines),
        Err(BoardNotRead::At { line, reason }) => {
            put_board_refusal(lines, line, reason)?;
            Ok(RewriteStatus::BoardRefused(line, reason))
        }
        Err(BoardNotRead::Read) => Err(NoAnswer::Read),
        Err(BoardNotRead::Memory) => Err(NoAnswer::Memory),
    }
}
