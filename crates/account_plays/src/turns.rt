//! One turn of a code.
ghost use Rattle.std.specs.Prelude.{◌≡◌, false, IfOk};
ghost use Rattle.scan_paths.specs.Scans.{lengths_of};
ghost use Rattle.machine_memory.specs.Acts.{state_of};
ghost use Rattle.machine_memory.specs.RunRooms.{KeepsRoom};
ghost use Rattle.stapl_instructions.specs.Moves.{led_on, IsClean};
ghost use Rattle.stapl_machine.specs.Turns.{no_ticks};
ghost use Rattle.written_cable.specs.Ports.{IsOpenPort, IsDone, Keeps, KeepsParts};
ghost use Rattle.account_plays.specs.AccountTurns.{part_at, part_ticks, IsOpenCable, CanPlayTurns, HasTurned, HasTurnedKept};

use account_lines::TurnPlace;
use base::Steps;
use machine_memory::memory::Workspace;
use run_cable::{RunCable, Runs};
use scan_paths::{BasePads, Cable};
use stapl_code::CodeLists;
use stapl_instructions::Went;
use stapl_machine::{rest_of_turn, turn};
use std::sync::ledger::Ledger;
use tap_states::Tap;
use written_cable::{Digits, Paper, PinCable, Trouble};

/// What is played: the chosen procedures of a code, told by their numbers, with this base padding around each scan, and
/// what is told of each piece of the program.
#[derive(Clone, Copy)]
pub struct Course<'a> {
    pub code: &'a CodeLists,
    pub chosen: &'a [u32],
    pub base: BasePads,
    pub table: &'a [TurnPlace],
}

/// A part of a play: the prologue, which begins it, or the turn at a place of the code.
#[derive(Clone, Copy)]
pub(crate) enum Part {
    Prologue,
    Turn(u32),
}

/// Where a part led, and in which state all controllers are then.
#[derive(Clone, Copy)]
pub struct Turned {
    pub went: Went,
    pub tap: Tap,
}

// Does a part of a play over a port.
fn do_part<C: Cable, O: Paper, L: Ledger>(
    course: &Course<'_>,
    part: Part,
    work: &mut Workspace,
    port: &mut PinCable<C, O>,
    steps: &mut Steps<L>,
) -> Result<Went, Trouble>
    requires ready { CanPlayTurns course.now.code.now work.old }
    requires open { IsOpenPort C.Cable O.Paper port.old }
    ensures does { IsDone C.Cable O.Paper (part_at course.now.code.now part course.now.chosen.now work.old)
        (part_ticks course.now.code.now part course.now.chosen.now work.old) port.old steps.old result
        (λ went. led_on went (state_of course.now.chosen.now work.new)) (λ went. no_ticks) port.new steps.new }
    ensures clean { IfOk result (λ went. IsClean went work.new.operands.items) }
    ensures room { KeepsRoom work.old work.new }
    ensures keeps { Keeps C.Cable O.Paper port.old port.new result }
{
    match part {
        Part::Turn(place) => match turn(course.code, course.chosen, place, work, port, steps) {
            Ok(went) => Ok(went),
            Err(trouble) => Err(trouble),
        },
        Part::Prologue => match rest_of_turn(course.code, course.chosen, 0, work, port, steps) {
            Ok(went) => Ok(went),
            Err(trouble) => Err(trouble),
        },
    }
}

/// Plays a part of a code, from a state of the controllers on. It puts the lines of its events.
///
/// It takes no memory. A `Trouble` comes as at a play.
pub(crate) fn play_part<C: Cable, O: Paper, L: Ledger>(
    course: &Course<'_>,
    part: Part,
    tap: Tap,
    work: &mut Workspace,
    cable: &mut C,
    out: &mut O,
    steps: &mut Steps<L>,
) -> Result<Turned, Trouble>
    requires ready { CanPlayTurns course.now.code.now work.old }
    requires open { IsOpenCable C.Cable tap cable.old }
    requires whole { O.failed out.old ≡ false }
    ensures turned { HasTurned C.Cable O.Paper (lengths_of course.now.base)
        (part_at course.now.code.now part course.now.chosen.now work.old) tap cable.old out.old result
        (λ went. led_on went (state_of course.now.chosen.now work.new)) cable.new out.new }
    ensures clean { IfOk result (λ t. IsClean t.went work.new.operands.items) }
    ensures room { KeepsRoom work.old work.new }
    ensures open { IfOk result (λ t. IsOpenCable C.Cable t.tap cable.new) }
    ensures kept { KeepsParts C.Cable O.Paper cable.old out.old cable.new out.new result }
{
    let mut port = PinCable::over(cable, out, tap, Digits::none(), false, course.base);
    match do_part(course, part, work, &mut port, steps) {
        Ok(went) => {
            let tap = port.tap();
            Ok(Turned { went, tap })
        }
        Err(trouble) => Err(trouble),
    }
}

/// The same over a cable whose runs are kept: what is kept becomes the runs of this part, and the sums go on.
pub(crate) fn play_kept_part<C: Cable, O: Paper, L: Ledger>(
    course: &Course<'_>,
    part: Part,
    tap: Tap,
    work: &mut Workspace,
    cable: &mut C,
    runs: &mut Runs,
    out: &mut O,
    steps: &mut Steps<L>,
) -> Result<Turned, Trouble>
    requires ready { CanPlayTurns course.now.code.now work.old }
    requires open { IsOpenCable C.Cable tap cable.old }
    requires whole { O.failed out.old ≡ false }
    ensures turned { HasTurnedKept C.Cable O.Paper (lengths_of course.now.base)
        (part_at course.now.code.now part course.now.chosen.now work.old) tap cable.old runs.old out.old
        result (λ went. led_on went (state_of course.now.chosen.now work.new)) cable.new runs.new out.new }
    ensures clean { IfOk result (λ t. IsClean t.went work.new.operands.items) }
    ensures room { KeepsRoom work.old work.new }
    ensures open { IfOk result (λ t. IsOpenCable C.Cable t.tap cable.new) }
    ensures kept { KeepsParts C.Cable O.Paper cable.old out.old cable.new out.new result }
{
    runs.begin(tap);
    let mut over = RunCable::over(cable, runs);
    match play_part(course, part, tap, work, &mut over, out, steps) {
        Ok(turned) => Ok(turned),
        Err(trouble) => Err(trouble),
    }
}
