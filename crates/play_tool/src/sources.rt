//! What is asked of a program or of a code in a file.
ghost use Rattle.std.specs.Prelude.{◌≡◌, Some, map};
ghost use Rattle.tool_io.specs.Lines.{IsWhole, IsSilent};
ghost use Rattle.tool_frame.specs.Answers.{Says};
ghost use Rattle.tool_frame.specs.Files.{OfFile, NamesThis, KeepsShelf};
ghost use Rattle.tool_frame.specs.Frame.{SaysAndLeaves};
ghost use Rattle.board_text.specs.Boards.{CanBeFitted};
ghost use Rattle.chain_sim.specs.Rack.{IsRack};
ghost use Rattle.play_tool.specs.declared.sources.Source.TheVariants.{Program as OfProgram, Code as OfCode};
ghost use Rattle.play_tool.specs.Answers.{SourceAnswer, HeldAnswer, WorkAnswer};
ghost use Rattle.play_tool.specs.FinalRacks.{SourceHoldsFinal, HeldFinal, LeavesRack};

use crate::codes::{CodeNotRead, code_named};
use crate::lines::put_code_refusal;
use crate::programs::{Work, play_program, work_on};
use code_plays::{Task, play_code};
use dev_card::Device;
use named_files::put_refusal;
use play_words::Status;
use program_files::{ProgramNotRead, program_named};
use std::alloc::Global;
use tool_frame::NoAnswer;
use tool_io::{Lines, Shelf, Sink};

/// What the file of a play holds.
#[derive(Clone, Copy)]
pub enum Source {
    /// A program.
    Program,
    /// A code.
    Code,
}

// Plays the program in a file, as a task asks for it.
fn play_program_file<S: Shelf, K: Sink>(
    alloc: Global,
    task: &Task,
    path: &str,
    shelf: &mut S,
    rack: &mut Vec<Box<dyn Device>>,
    lines: &mut Lines<K>,
) -> Result<Status, NoAnswer>
    requires rack { IsRack (map kind_of rack.old.items) }
    requires devices { CanBeFitted task.now.devices.now }
    requires whole { IsWhole lines.old }
    ensures answers { OfFile (S.told shelf.old) (Some path.now) (λ held. SaysAndLeaves K.Sink
        (HeldAnswer (SourceAnswer OfProgram task.now.request.now task.now.devices.now) held)
        (LeavesRack kind_of fitted (Unit {0})
        (HeldFinal (SourceHoldsFinal OfProgram task.now.request.now task.now.devices.now) held))
        lines.old lines.new rack.old.items rack.new.items result) }
    ensures shelf { KeepsShelf S.Shelf (NamesThis path.now) (λ read. read ≡ path.now) shelf.old shelf.new result }
{
    match program_named(alloc, shelf, path) {
        Ok(program) => play_program(alloc, &program, task, rack, lines),
        Err(
            ProgramNotRead::Refused {
                piece,
                line,
                reason,
            },
        ) => {
            put_refusal(lines, piece, line, reason)?;
            Ok(Status::Refused(piece, reason))
        }
        Err(ProgramNotRead::Read) => Err(NoAnswer::Read),
        Err(ProgramNotRead::Memory) => Err(NoAnswer::Memory),
    }
}

// Plays the code in a file, as a task asks for it.
fn play_code_file<S: Shelf, K: Sink>(
    alloc: Global,
    task: &Task,
    path: &str,
    shelf: &mut S,
    rack: &mut Vec<Box<dyn Device>>,
    lines: &mut Lines<K>,
) -> Result<Status, NoAnswer>
    requires rack { IsRack (map kind_of rack.old.items) }
    requires devices { CanBeFitted task.now.devices.now }
    requires whole { IsWhole lines.old }
    ensures answers { OfFile (S.told shelf.old) (Some path.now) (λ held. SaysAndLeaves K.Sink
        (HeldAnswer (SourceAnswer OfCode task.now.request.now task.now.devices.now) held)
        (LeavesRack kind_of fitted (Unit {0})
        (HeldFinal (SourceHoldsFinal OfCode task.now.request.now task.now.devices.now) held))
        lines.old lines.new rack.old.items rack.new.items result) }
    ensures shelf { KeepsShelf S.Shelf (NamesThis path.now) (λ read. read ≡ path.now) shelf.old shelf.new result }
{
    match code_named(alloc, shelf, path) {
        Ok(code) => play_code(alloc, &code, task, rack, lines),
        Err(CodeNotRead::At { offset, reason }) => {
            put_code_refusal(lines, offset, reason)?;
            Ok(Status::CodeRefused(offset, reason))
        }
        Err(CodeNotRead::Read) => Err(NoAnswer::Read),
        Err(CodeNotRead::Memory) => Err(NoAnswer::Memory),
    }
}

/// Plays what a file holds, as a task asks for it. It only branches, so that `answer_play` has one exit for both.
pub(crate) fn play_source<S: Shelf, K: Sink>(
    alloc: Global,
    source: Source,
    task: &Task,
    path: &str,
    shelf: &mut S,
    rack: &mut Vec<Box<dyn Device>>,
    lines: &mut Lines<K>,
) -> Result<Status, NoAnswer>
    requires rack { IsRack (map kind_of rack.old.items) }
    requires devices { CanBeFitted task.now.devices.now }
    requires whole { IsWhole lines.old }
    ensures answers { OfFile (S.told shelf.old) (Some path.now) (λ held. SaysAndLeaves K.Sink
        (HeldAnswer (SourceAnswer source task.now.request.now task.now.devices.now) held)
        (LeavesRack kind_of fitted (Unit {0})
        (HeldFinal (SourceHoldsFinal source task.now.request.now task.now.devices.now) held))
        lines.old lines.new rack.old.items rack.new.items result) }
    ensures shelf { KeepsShelf S.Shelf (NamesThis path.now) (λ read. read ≡ path.now) shelf.old shelf.new result }
{
    match source {
        Source::Program => play_program_file(alloc, task, path, shelf, rack, lines),
        Source::Code => play_code_file(alloc, task, path, shelf, rack, lines),
    }
}

/// Does some work on the program in a file.
pub(crate) fn work_on_file<S: Shelf, K: Sink>(
    alloc: Global,
    work: Work,
    path: &str,
    shelf: &mut S,
    lines: &mut Lines<K>,
) -> Result<Status, NoAnswer>
    requires { IsWhole lines.old }
    ensures says { OfFile (S.told shelf.old) (Some path.now) (λ held.
        Says K.Sink (WorkAnswer work held) (IsSilent lines.old lines.new) lines.old lines.new result) }
    ensures shelf { KeepsShelf S.Shelf (NamesThis path.now) (λ read. read ≡ path.now) shelf.old shelf.new result }
{
    match program_named(alloc, shelf, path) {
        Ok(program) => work_on(alloc, work, &program, lines),
        Err(
            ProgramNotRead::Refused {
                piece,
                line,
                reason,
            },
        ) => {
            put_refusal(lines, piece, line, reason)?;
            Ok(Status::Refused(piece, reason))
        }
        Err(ProgramNotRead::Read) => Err(NoAnswer::Read),
        Err(ProgramNotRead::Memory) => Err(NoAnswer::Memory),
    }
}
