//! What is done before anything is sent or written: the files are read, the program is compiled, its procedures are
//! chosen, and all memory is taken.
ghost use Rattle.std.specs.Prelude.{◌≡◌, Some, true, length, IfOk, IsErrOf};
ghost use Rattle.stapl_syntax.specs.Programs.{IsProgram};
ghost use Rattle.stapl_syntax.specs.ProgramValues.{trees_of};
ghost use Rattle.stapl_code.specs.Safe.{AllBelow};
ghost use Rattle.board_text.specs.Boards.{CanBeFitted};
ghost use Rattle.tool_frame.specs.Files.{OfFile, OfFiles, NamesThis, KeepsShelf};
ghost use Rattle.code_plays.specs.Plays.{has_place};
ghost use Rattle.code_plays.specs.CodePlays.{far_play};
ghost use Rattle.play_tool.specs.ReadContents.{ArePlayFiles, IsPlayFile};
ghost use Rattle.drive_tool.specs.Plans.{drive, ProgramPlan, HeldPlan, RequestPlan};
ghost use Rattle.drive_tool.specs.Steps.{IsStepOf, CodePlan, Prepares};

use crate::refusals::Refusal;
use code_plays::{Task, base_of, choose_asked, has_place};
use named_files::{BoardNotRead, board_named};
use play_words::FilePlay;
use program_files::{ProgramNotRead, program_named};
use scan_paths::BasePads;
use stapl_codegen::generate;
use stapl_machine::Machine;
use stapl_meaning::laws::programs_are_typed;
use stapl_player::ChoiceRefused;
use stapl_syntax::Program;
use std::alloc::{AllocError, Global};
use tool_frame::NoAnswer;
use tool_io::Shelf;
use valid_codes::Code;

/// A play that is ready: a code, a machine that is prepared for it, its chosen procedures, and how it is played.
#[derive(Drop)]
pub struct Ready {
    pub(crate) code: Code,
    pub(crate) machine: Machine,
    pub(crate) chosen: Vec<u32>,
    pub(crate) base: BasePads,
    pub(crate) turns: u32,
    pub(crate) pins: bool,
}

/// What words and their files came to.
#[derive(Drop)]
pub enum Step {
    /// Nothing is played.
    Refused(Refusal),
    /// This is played.
    Ready(Ready),
}

// The play of the chosen procedures of a code.
fn prepare_chosen(
    alloc: Global,
    code: Code,
    chosen: Vec<u32>,
    task: &Task,
) -> Result<Step, AllocError>
    requires below { AllBelow (length code.procedures) chosen.items }
    requires placed { has_place task.now.request.now.place task.now.devices.now ≡ true }
    requires devices { CanBeFitted task.now.devices.now }
    ensures { IfOk result
        (IsStepOf (drive task.now.request.now.pins (far_play code chosen.items task.now))) }
{
    let base = base_of(task);
    let machine = Machine::prepare(alloc, &code)?;
    Ok(Step::Ready(Ready {
        code,
        machine,
        chosen,
        base,
        turns: task.request.turns,
        pins: task.request.pins,
    }))
}

// What a code comes to, as a task asks for it.
fn prepare_code(alloc: Global, code: Code, task: &Task) -> Result<Step, AllocError>
    requires devices { CanBeFitted task.now.devices.now }
    ensures { IfOk result (Prepares (CodePlan code task.now)) }
{
    match choose_asked(alloc, &code, task.request) {
        Ok(chosen) if has_place(task) => prepare_chosen(alloc, code, chosen, task),
        Ok(_) => Ok(Step::Refused(Refusal::Place)),
        Err(ChoiceRefused::NoAction) => Ok(Step::Refused(Refusal::Action)),
        Err(ChoiceRefused::BadChoice) => Ok(Step::Refused(Refusal::Choice)),
        Err(ChoiceRefused::Memory) => Err(AllocError),
    }
}

// What a program comes to.
fn prepare_program(alloc: Global, program: &Program, task: &Task) -> Result<Step, AllocError>
    requires program { IsProgram program.now.text (trees_of program.now) }
    requires devices { CanBeFitted task.now.devices.now }
    ensures { IfOk result
        (Prepares (ProgramPlan task.now.request.now task.now.devices.now (trees_of program.now))) }
{
    programs_are_typed();
    let code = generate(alloc, program)?;
    prepare_code(alloc, code, task)
}

// What the text in a file comes to.
fn prepare_file<S: Shelf>(
    alloc: Global,
    task: &Task,
    path: &str,
    shelf: &mut S,
) -> Result<Step, NoAnswer>
    requires devices { CanBeFitted task.now.devices.now }
    ensures plan { OfFile (S.told shelf.old) (Some path.now) (λ held.
        IfOk result (Prepares (HeldPlan task.now.request.now task.now.devices.now held))) }
    ensures shelf { KeepsShelf S.Shelf (NamesThis path.now) (λ read. read ≡ path.now) shelf.old shelf.new result }
    ensures no_write { IsErrOf result NoAnswer.Write → ⊥ }
{
    match program_named(alloc, shelf, path) {
        Ok(program) => {
            let step = prepare_program(alloc, &program, task)?;
            Ok(step)
        }
        Err(
            ProgramNotRead::Refused {
                piece,
                line,
                reason,
            },
        ) => Ok(Step::Refused(Refusal::Program(piece, line, reason))),
        Err(ProgramNotRead::Read) => Err(NoAnswer::Read),
        Err(ProgramNotRead::Memory) => Err(NoAnswer::Memory),
    }
}

/// What a play comes to: its board is read first, and then its program.
///
/// `Read` comes only if the count of a file rose that was reached; `Memory` is want of memory.
pub(crate) fn prepare_play<S: Shelf>(
    alloc: Global,
    play: &FilePlay,
    shelf: &mut S,
) -> Result<Step, NoAnswer>
    ensures plan { OfFiles (ArePlayFiles play.now) (S.told shelf.old) (λ contents.
        IfOk result (Prepares (RequestPlan play.now.request contents))) }
    ensures shelf { KeepsShelf S.Shelf (ArePlayFiles play.now) (IsPlayFile (S.told shelf.old) play.now)
        shelf.old shelf.new result }
    ensures no_write { IsErrOf result NoAnswer.Write → ⊥ }
{
    match board_named(alloc, shelf, play.board.as_str()) {
        Ok(devices) => {
            let task = Task {
                request: &play.request,
                devices: &devices,
            };
            prepare_file(alloc, &task, play.source.as_str(), shelf)
        }
        Err(BoardNotRead::At { line, reason }) => Ok(Step::Refused(Refusal::Board(line, reason))),
        Err(BoardNotRead::Read) => Err(NoAnswer::Read),
        Err(BoardNotRead::Memory) => Err(NoAnswer::Memory),
    }
}
