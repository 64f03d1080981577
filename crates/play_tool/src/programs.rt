//! What is done with a program.
ghost use Rattle.std.specs.Prelude.{◌≡◌, map};
ghost use Rattle.tool_io.specs.Lines.{IsWhole};
ghost use Rattle.tool_frame.specs.Answers.{Says};
ghost use Rattle.stapl_syntax.specs.Programs.{IsProgram};
ghost use Rattle.stapl_syntax.specs.ProgramValues.{trees_of};
ghost use Rattle.chain_sim.specs.Rack.{IsRack};
ghost use Rattle.board_text.specs.Boards.{CanBeFitted};
ghost use Rattle.program_reports.specs.Checks.{IsCheckText};
ghost use Rattle.program_reports.specs.Listings.{list_text};
ghost use Rattle.code_plays.specs.Racks.{KeepsRack};
ghost use Rattle.play_tool.specs.Answers.{IsDoneWith, Compiles, Works, PlaysAction};
ghost use Rattle.play_tool.specs.FinalRacks.{HoldsFinal};

use code_files::encode_code;
use code_plays::{Task, play_code};
use dev_card::Device;
use play_words::Status;
use program_reports::{check_words, put_check, put_list};
use stapl_codegen::generate;
use stapl_meaning::laws::programs_are_typed;
use stapl_syntax::Program;
use std::alloc::Global;
use tool_frame::NoAnswer;
use tool_io::{Lines, Sink};

/// What is done with a program that is not played.
#[derive(Clone, Copy)]
pub enum Work {
    /// It is checked.
    Check,
    /// What it offers is listed.
    List,
    /// It is written as the file of a code.
    Compile,
}

/// Plays a program, as a task asks for it: its code.
///
/// If the program has no such action, or a name cannot be chosen in it, or the board lacks the run, the rack stays as
/// it was. If it is played, the devices of the board are as the play leaves them.
pub fn play_program<K: Sink>(
    alloc: Global,
    program: &Program,
    task: &Task,
    rack: &mut Vec<Box<dyn Device>>,
    lines: &mut Lines<K>,
) -> Result<Status, NoAnswer>
    requires program { IsProgram program.now.text (trees_of program.now) }
    requires rack { IsRack (map kind_of rack.old.items) }
    requires devices { CanBeFitted task.now.devices.now }
    requires whole { IsWhole lines.old }
    ensures says { Says K.Sink (PlaysAction task.now.request.now task.now.devices.now (trees_of program.now)) ⊥
        lines.old lines.new result }
    ensures rack { KeepsRack kind_of fitted (Unit {0})
        (HoldsFinal task.now.request.now task.now.devices.now (trees_of program.now))
        rack.old.items rack.new.items result }
{
    programs_are_typed();
    let code = generate(alloc, program)?;
    play_code(alloc, &code, task, rack, lines)
}

// Says how many statements a program has, and whether its check word is that of its text.
fn check_program<K: Sink>(
    alloc: Global,
    program: &Program,
    lines: &mut Lines<K>,
) -> Result<Status, NoAnswer>
    requires program { IsProgram program.now.text (trees_of program.now) }
    requires whole { IsWhole lines.old }
    ensures { Says K.Sink (IsDoneWith (IsCheckText program.now.text (trees_of program.now))) ⊥
        lines.old lines.new result }
{
    let words = check_words(alloc, program.text(), program.statements())?;
    put_check(lines, program.statements(), words)?;
    Ok(Status::Done(0))
}

// Lists the notes of a program, and its actions with their procedures.
fn list_program<K: Sink>(program: &Program, lines: &mut Lines<K>) -> Result<Status, NoAnswer>
    requires whole { IsWhole lines.old }
    ensures { Says K.Sink (IsDoneWith (λ text. text ≡ list_text (trees_of program.now))) ⊥
        lines.old lines.new result }
{
    put_list(lines, program.statements())?;
    Ok(Status::Done(0))
}

// Puts the file of the code of a program.
fn compile_program<K: Sink>(
    alloc: Global,
    program: &Program,
    lines: &mut Lines<K>,
) -> Result<Status, NoAnswer>
    requires program { IsProgram program.now.text (trees_of program.now) }
    requires whole { IsWhole lines.old }
    ensures { Says K.Sink (Compiles (trees_of program.now)) ⊥ lines.old lines.new result }
{
    let code = generate(alloc, program)?;
    let file = encode_code(alloc, &code)?;
    lines.put(&file)?;
    Ok(Status::Done(0))
}

/// Does some work on a program.
pub fn work_on<K: Sink>(
    alloc: Global,
    work: Work,
    program: &Program,
    lines: &mut Lines<K>,
) -> Result<Status, NoAnswer>
    requires program { IsProgram program.now.text (trees_of program.now) }
    requires whole { IsWhole lines.old }
    ensures { Says K.Sink (Works work program.now.text (trees_of program.now)) ⊥ lines.old lines.new result }
{
    match work {
        Work::Check => check_program(alloc, program, lines),
        Work::List => list_program(program, lines),
        Work::Compile => compile_program(alloc, program, lines),
    }
}
