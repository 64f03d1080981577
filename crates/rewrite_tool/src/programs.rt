//! A program for a run of devices of a board.
ghost use Rattle.std.specs.Prelude.{◌≡◌, Some};
ghost use Rattle.tool_io.specs.Lines.{IsWhole, IsSilent};
ghost use Rattle.tool_frame.specs.Answers.{Says};
ghost use Rattle.stapl_syntax.specs.Programs.{IsProgram};
ghost use Rattle.stapl_syntax.specs.ProgramValues.{trees_of};
ghost use Rattle.board_text.specs.Boards.{CanBeFitted};
ghost use Rattle.tool_frame.specs.Files.{OfFile, NamesThis, KeepsShelf};
ghost use Rattle.rewrite_tool.specs.Words.{IsPlaceRun};
ghost use Rattle.rewrite_tool.specs.Answers.{ProgramAnswer, FileAnswer};

use crate::RewriteStatus;
use chain_rewrite::{RewriteRefused, rewrite};
use command_words::PlaceRun;
use dev_card::Desc;
use named_files::put_refusal;
use program_files::{ProgramNotRead, program_named};
use stapl_syntax::Program;
use std::alloc::Global;
use tool_frame::NoAnswer;
use tool_io::{Lines, Shelf, Sink, put_count_line};

// Puts the new program, or why there is none.
fn put_rewritten<K: Sink>(
    alloc: Global,
    program: &Program,
    devices: &[Desc],
    run: PlaceRun,
    lines: &mut Lines<K>,
) -> Result<RewriteStatus, NoAnswer>
    requires program { IsProgram program.now.text (trees_of program.now) }
    requires devices { CanBeFitted devices.now }
    requires run { IsPlaceRun run }
    requires whole { IsWhole lines.old }
    ensures { Says K.Sink (ProgramAnswer devices.now run program.now.text) ⊥ lines.old lines.new result }
{
    if run.last as usize > devices.len() {
        lines.put(b"R place\n")?;
        return Ok(RewriteStatus::BadPlace);
    }
    match rewrite(alloc, program, devices, run.first, run.last) {
        Ok(text) => {
            lines.put(&text)?;
            Ok(RewriteStatus::Done)
        }
        Err(RewriteRefused::OwnPadding(piece)) => {
            put_count_line(lines, b"R padding ", piece)?;
            Ok(RewriteStatus::OwnPadding(piece))
        }
        Err(RewriteRefused::TooLarge) => {
            lines.put(b"R print TooLarge\n")?;
            Ok(RewriteStatus::TooLarge)
        }
        Err(RewriteRefused::Memory) => Err(NoAnswer::Memory),
    }
}

/// Answers for the text in a file, on a board of these devices.
pub(crate) fn answer_file<S: Shelf, K: Sink>(
    alloc: Global,
    path: &str,
    devices: &[Desc],
    run: PlaceRun,
    shelf: &mut S,
    lines: &mut Lines<K>,
) -> Result<RewriteStatus, NoAnswer>
    requires devices { CanBeFitted devices.now }
    requires run { IsPlaceRun run }
    requires whole { IsWhole lines.old }
    ensures says { OfFile (S.told shelf.old) (Some path.now) (λ held. Says K.Sink
        (FileAnswer devices.now run held) (IsSilent lines.old lines.new) lines.old lines.new result) }
    ensures shelf { KeepsShelf S.Shelf (NamesThis path.now) (λ read. read ≡ path.now) shelf.old shelf.new result }
{
    match program_named(alloc, shelf, path) {
        Ok(program) => put_rewritten(alloc, &program, devices, run, lines),
        Err(
            ProgramNotRead::Refused {
                piece,
                line,
                reason,
            },
        ) => {
            put_refusal(lines, piece, line, reason)?;
            Ok(RewriteStatus::Refused(piece, reason))
        }
        Err(ProgramNotRead::Read) => Err(NoAnswer::Read),
        Err(ProgramNotRead::Memory) => Err(NoAnswer::Memory),
    }
}
