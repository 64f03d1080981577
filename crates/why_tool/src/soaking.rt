//! What is said of a soak: of the play of a program on a board, both of which are made from a number.
ghost use Rattle.std.specs.Prelude.{◌≡◌, Some, map};
ghost use Rattle.tool_io.specs.Lines.{IsWhole};
ghost use Rattle.tool_frame.specs.Answers.{Says};
ghost use Rattle.chain_sim.specs.Rack.{IsRack};
ghost use Rattle.soak_texts.specs.Boards.{soak_board};
ghost use Rattle.soak_texts.specs.Soak.{soak_program};
ghost use Rattle.play_tool.specs.declared.sources.Source.TheVariants as sources;
ghost use Rattle.play_tool.specs.Answers.{PlayAnswer, SoakAnswer};
ghost use Rattle.why_tool.specs.Told.{known_with};
ghost use Rattle.why_tool.specs.Whys.{Explains};

use crate::texts::tell_text;
use code_plays::Task;
use dev_card::Device;
use named_files::{BoardNotRead, board_of};
use play_tool::request_at;
use play_words::{PlayRequest, Status};
use soak_texts::soak_texts;
use std::alloc::Global;
use tool_frame::NoAnswer;
use tool_io::{Lines, Sink};
use tool_questions::show_line;

// Says what the play of a program with these bytes comes to on a board with those, as a request asks for it.
fn tell_texts<K: Sink>(
    alloc: Global,
    request: &PlayRequest,
    board: &[u8],
    program: &[u8],
    rack: &mut Vec<Box<dyn Device>>,
    lines: &mut Lines<K>,
) -> Result<Status, NoAnswer>
    requires rack { IsRack (map kind_of rack.old.items) }
    requires whole { IsWhole lines.old }
    ensures says { Says K.Sink (Explains (PlayAnswer sources.Program request.now (Some board.now) (Some program.now))
        (known_with board.now (Some program.now))) ⊥ lines.old lines.new result }
    ensures kinds { map kind_of rack.new.items ≡ map kind_of rack.old.items }
{
    match board_of(alloc, board) {
        Ok(devices) => {
            let task = Task {
                request,
                devices: &devices,
            };
            tell_text(alloc, &task, program, rack, lines)
        }
        Err(BoardNotRead::At { line, .. }) => {
            show_line(alloc, board, line, lines)?;
            Ok(Status::Done(0))
        }
        Err(BoardNotRead::Read) => Err(NoAnswer::Read),
        Err(BoardNotRead::Memory) => Err(NoAnswer::Memory),
    }
}

/// Says what a soak comes to.
///
/// `Write` as of the sink; `Memory` is want of memory, and then nothing has reached the sink.
pub(crate) fn tell_soak<K: Sink>(
    alloc: Global,
    seed: u32,
    rack: &mut Vec<Box<dyn Device>>,
    lines: &mut Lines<K>,
) -> Result<Status, NoAnswer>
    requires rack { IsRack (map kind_of rack.old.items) }
    requires whole { IsWhole lines.old }
    ensures says { Says K.Sink (Explains (SoakAnswer seed) (known_with (soak_board seed) (Some (soak_program seed)))) ⊥
        lines.old lines.new result }
    ensures kinds { map kind_of rack.new.items ≡ map kind_of rack.old.items }
{
    let soak = soak_texts(alloc, seed)?;
    let request = request_at(alloc, soak.place);
    tell_texts(alloc, &request, &soak.board, &soak.program, rack, lines)
}
