//! Plays whose lines nobody reads: what counts is how they end.
ghost use Rattle.std.specs.Prelude.{◌≡◌, map, Ok, IfOk, IsErrOf};
ghost use Rattle.stapl_syntax.specs.Programs.{IsProgram};
ghost use Rattle.stapl_syntax.specs.ProgramValues.{trees_of};
ghost use Rattle.chain_sim.specs.Rack.{IsRack};
ghost use Rattle.board_text.specs.Boards.{CanBeFitted};
ghost use Rattle.code_plays.specs.Plays.{PlaysCode};
ghost use Rattle.play_tool.specs.Answers.{PlaysAction, Works};
ghost use Rattle.why_tool.specs.Whys.{HasAnswer};

use code_plays::{Task, play_code};
use dev_card::Device;
use play_tool::{Work, play_program, work_on};
use play_words::Status;
use quiet_runs::Silence;
use stapl_syntax::Program;
use std::alloc::{AllocError, Global};
use tool_frame::NoAnswer;
use tool_io::Lines;
use valid_codes::Code;

// How a call ended that answers no fault but want of memory.
fn ended(answer: Result<Status, NoAnswer>) -> Result<Status, AllocError>
    requires read { IsErrOf answer NoAnswer.Read → ⊥ }
    requires write { IsErrOf answer NoAnswer.Write → ⊥ }
    ensures { IfOk result (λ status. answer ≡ Ok status) }
{
    match answer {
        Ok(status) => Ok(status),
        Err(NoAnswer::Memory) => Err(AllocError),
        Err(_) => unreachable!(),
    }
}

/// How the play of a program ends that a task asks for. The only error is want of memory.
pub(crate) fn program_status(
    alloc: Global,
    program: &Program,
    task: &Task,
    rack: &mut Vec<Box<dyn Device>>,
) -> Result<Status, AllocError>
    requires program { IsProgram program.now.text (trees_of program.now) }
    requires rack { IsRack (map kind_of rack.old.items) }
    requires devices { CanBeFitted task.now.devices.now }
    ensures status { IfOk result (HasAnswer (PlaysAction task.now.request.now task.now.devices.now (trees_of program.now))) }
    ensures kinds { map kind_of rack.new.items ≡ map kind_of rack.old.items }
{
    let mut silence = Silence;
    let mut lines = Lines::new(&mut silence);
    ended(play_program(alloc, program, task, rack, &mut lines))
}

/// How the play of a code ends that a task asks for. The only error is want of memory.
pub(crate) fn code_status(
    alloc: Global,
    code: &Code,
    task: &Task,
    rack: &mut Vec<Box<dyn Device>>,
) -> Result<Status, AllocError>
    requires rack { IsRack (map kind_of rack.old.items) }
    requires devices { CanBeFitted task.now.devices.now }
    ensures status { IfOk result (HasAnswer (PlaysCode code.now task.now.request.now task.now.devices.now)) }
    ensures kinds { map kind_of rack.new.items ≡ map kind_of rack.old.items }
{
    let mut silence = Silence;
    let mut lines = Lines::new(&mut silence);
    ended(play_code(alloc, code, task, rack, &mut lines))
}

/// How other work on a program ends. The only error is want of memory.
pub(crate) fn work_status(
    alloc: Global,
    work: Work,
    program: &Program,
) -> Result<Status, AllocError>
    requires program { IsProgram program.now.text (trees_of program.now) }
    ensures status { IfOk result (HasAnswer (Works work program.now.text (trees_of program.now))) }
{
    let mut silence = Silence;
    let mut lines = Lines::new(&mut silence);
    ended(work_on(alloc, work, program, &mut lines))
}
