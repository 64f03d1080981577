//! What is answered to a play: by the board, and then by the program.
ghost use Rattle.std.specs.Prelude.{◌≡◌, Some, map};
ghost use Rattle.tool_io.specs.Lines.{IsWhole, IsSilent};
ghost use Rattle.tool_frame.specs.Answers.{Says};
ghost use Rattle.board_text.specs.Boards.{CanBeFitted};
ghost use Rattle.chain_sim.specs.Rack.{IsRack};
ghost use Rattle.tool_frame.specs.Files.{OfFile, OfFiles, NamesThis, KeepsShelf};
ghost use Rattle.play_tool.specs.ReadContents.{ArePlayFiles, IsPlayFile};
ghost use Rattle.scans_tool.specs.Answers.{HeldAnswer, RequestAnswer};

use crate::playing::play_program;
use code_plays::Task;
use dev_card::Device;
use named_files::{BoardNotRead, board_named, put_board_refusal, put_refusal};
use play_words::{FilePlay, Status};
use program_files::{ProgramNotRead, program_named};
use std::alloc::Global;
use tool_frame::NoAnswer;
use tool_io::{Lines, Shelf, Sink};

// Answers for the text in a file.
fn answer_file<S: Shelf, K: Sink>(
    alloc: Global,
    task: &Task,
    path: &str,
    shelf: &mut S,
    rack: &mut Vec<Box<dyn Device>>,
    lines: &mut Lines<K>,
) -> Result<Status, NoAnswer>
    requires devices { CanBeFitted task.now.devices.now }
    requires rack { IsRack (map kind_of rack.old.items) }
    requires whole { IsWhole lines.old }
    ensures says { OfFile (S.told shelf.old) (Some path.now) (λ held. Says K.Sink
        (HeldAnswer task.now.request.now task.now.devices.now held)
        (IsSilent lines.old lines.new) lines.old lines.new result) }
    ensures shelf { KeepsShelf S.Shelf (NamesThis path.now) (λ read. read ≡ path.now) shelf.old shelf.new result }
    ensures kinds { map kind_of rack.new.items ≡ map kind_of rack.old.items }
{
    match program_named(alloc, shelf, path) {
        Ok(program) => play_program(alloc, &program, task, rack, lines),
        Err(
            ProgramNotRead::Refused {
                piece,
                line,
                reason,
            },
        ) => {
            put_refusal(lines, piece, line, reason)?;
            Ok(Status::Refused(piece, reason))
        }
        Err(ProgramNotRead::Read) => Err(NoAnswer::Read),
        Err(ProgramNotRead::Memory) => Err(NoAnswer::Memory),
    }
}

/// Answers a play: by the board, which is read first, and then by the program.
///
/// `Read` comes only if the count of a file rose that was reached, `Write` only if that of the sink did; `Memory` is
/// want of memory. At `Read` and `Memory` nothing has reached the sink. Each device of the rack keeps its kind.
pub(crate) fn answer_play<S: Shelf, K: Sink>(
    alloc: Global,
    play: &FilePlay,
    shelf: &mut S,
    rack: &mut Vec<Box<dyn Device>>,
    lines: &mut Lines<K>,
) -> Result<Status, NoAnswer>
    requires rack { IsRack (map kind_of rack.old.items) }
    requires whole { IsWhole lines.old }
    ensures says { OfFiles (ArePlayFiles play.now) (S.told shelf.old) (λ contents. Says K.Sink
        (RequestAnswer play.now.request contents) (IsSilent lines.old lines.new) lines.old lines.new result) }
    ensures shelf { KeepsShelf S.Shelf (ArePlayFiles play.now) (IsPlayFile (S.told shelf.old) play.now)
        shelf.old shelf.new result }
    ensures kinds { map kind_of rack.new.items ≡ map kind_of rack.old.items }
{
    match board_named(alloc, shelf, play.board.as_str()) {
        Ok(devices) => {
            let task = Task {
                request: &play.request,
                devices: &devices,
            };
            answer_file(alloc, &task, play.source.as_str(), shelf, rack, lines)
        }
        Err(BoardNotRead::At { line, reason }) => {
            put_board_refusal(lines, line, reason)?;
            Ok(Status::BoardRefused(line, reason))
        }
        Err(BoardNotRead::Read) => Err(NoAnswer::Read),
        Err(BoardNotRead::Memory) => Err(NoAnswer::Memory),
    }
}
