//! What is answered to a question: by the board, and then by the program.
ghost use Rattle.std.specs.Prelude.{◌≡◌, Some, map};
ghost use Rattle.tool_io.specs.Lines.{IsWhole, IsSilent};
ghost use Rattle.tool_frame.specs.Answers.{Says};
ghost use Rattle.stapl_syntax.specs.Programs.{IsProgram};
ghost use Rattle.stapl_syntax.specs.ProgramValues.{trees_of};
ghost use Rattle.board_text.specs.Boards.{CanBeFitted};
ghost use Rattle.chain_sim.specs.Rack.{IsRack};
ghost use Rattle.tool_frame.specs.Files.{OfFile, OfFiles, NamesThis, KeepsShelf};
ghost use Rattle.play_tool.specs.ReadContents.{ArePlayFiles, IsPlayFile};
ghost use Rattle.quiet_tool.specs.Answers.{ProgramAnswer, HeldAnswer, QuestionAnswer};

use crate::QuietStatus;
use crate::actions::{Asked, answer_program};
use crate::words::Question;
use code_plays::Task;
use dev_card::Device;
use named_files::{BoardNotRead, board_named, put_board_refusal, put_refusal};
use program_files::{ProgramNotRead, program_named};
use stapl_syntax::Program;
use std::alloc::Global;
use tool_frame::NoAnswer;
use tool_io::{Lines, Shelf, Sink};

// Puts the answer for a program.
fn put_answer<K: Sink>(
    alloc: Global,
    asked: &Asked,
    program: &Program,
    rack: &mut Vec<Box<dyn Device>>,
    lines: &mut Lines<K>,
) -> Result<QuietStatus, NoAnswer>
    requires program { IsProgram program.now.text (trees_of program.now) }
    requires devices { CanBeFitted asked.now.task.devices.now }
    requires rack { IsRack (map kind_of rack.old.items) }
    requires whole { IsWhole lines.old }
    ensures says { Says K.Sink (ProgramAnswer asked.now.actions program.now.text (trees_of program.now)
        asked.now.task.request.now asked.now.task.devices.now) ⊥ lines.old lines.new result }
    ensures kinds { map kind_of rack.new.items ≡ map kind_of rack.old.items }
{
    let answer = answer_program(alloc, asked, program, rack)?;
    lines.put(&answer.text)?;
    Ok(answer.status)
}

// Answers for the text in a file.
fn answer_file<S: Shelf, K: Sink>(
    alloc: Global,
    asked: &Asked,
    path: &str,
    shelf: &mut S,
    rack: &mut Vec<Box<dyn Device>>,
    lines: &mut Lines<K>,
) -> Result<QuietStatus, NoAnswer>
    requires devices { CanBeFitted asked.now.task.devices.now }
    requires rack { IsRack (map kind_of rack.old.items) }
    requires whole { IsWhole lines.old }
    ensures says { OfFile (S.told shelf.old) (Some path.now) (λ held. Says K.Sink
        (HeldAnswer asked.now.actions asked.now.task.request.now asked.now.task.devices.now held)
        (IsSilent lines.old lines.new) lines.old lines.new result) }
    ensures shelf { KeepsShelf S.Shelf (NamesThis path.now) (λ read. read ≡ path.now) shelf.old shelf.new result }
    ensures kinds { map kind_of rack.new.items ≡ map kind_of rack.old.items }
{
    match program_named(alloc, shelf, path) {
        Ok(program) => put_answer(alloc, asked, &program, rack, lines),
        Err(
            ProgramNotRead::Refused {
                piece,
                line,
                reason,
            },
        ) => {
            put_refusal(lines, piece, line, reason)?;
            Ok(QuietStatus::Refused(piece, reason))
        }
        Err(ProgramNotRead::Read) => Err(NoAnswer::Read),
        Err(ProgramNotRead::Memory) => Err(NoAnswer::Memory),
    }
}

/// Answers a question: by the board, which is read first, and then by the program.
///
/// `Read` comes only if the count of a file rose that was reached, `Write` only if that of the sink did; `Memory` is
/// want of memory. At `Read` and `Memory` nothing has reached the sink. Each device of the rack keeps its kind.
pub(crate) fn answer_question<S: Shelf, K: Sink>(
    alloc: Global,
    question: &Question,
    shelf: &mut S,
    rack: &mut Vec<Box<dyn Device>>,
    lines: &mut Lines<K>,
) -> Result<QuietStatus, NoAnswer>
    requires rack { IsRack (map kind_of rack.old.items) }
    requires whole { IsWhole lines.old }
    ensures says { OfFiles (ArePlayFiles question.now.play) (S.told shelf.old) (λ contents. Says K.Sink
        (QuestionAnswer question.now contents) (IsSilent lines.old lines.new) lines.old lines.new result) }
    ensures shelf { KeepsShelf S.Shelf (ArePlayFiles question.now.play) (IsPlayFile (S.told shelf.old) question.now.play)
        shelf.old shelf.new result }
    ensures kinds { map kind_of rack.new.items ≡ map kind_of rack.old.items }
{
    let play = &question.play;
    match board_named(alloc, shelf, play.board.as_str()) {
        Ok(devices) => {
            let asked = Asked {
                task: Task {
                    request: &play.request,
                    devices: &devices,
                },
                actions: question.actions,
            };
            answer_file(alloc, &asked, play.source.as_str(), shelf, rack, lines)
        }
        Err(BoardNotRead::At { line, reason }) => {
            put_board_refusal(lines, line, reason)?;
            Ok(QuietStatus::BoardRefused(line, reason))
        }
        Err(BoardNotRead::Read) => Err(NoAnswer::Read),
        Err(BoardNotRead::Memory) => Err(NoAnswer::Memory),
    }
}
