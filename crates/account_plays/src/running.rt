//! The turns of a run of a code, with their accounts.
ghost use Rattle.std.specs.Prelude.{◌≡◌, false, IfSome};
ghost use Rattle.tool_io.specs.Lines.{IsWhole};
ghost use Rattle.scan_paths.specs.Scans.{lengths_of};
ghost use Rattle.scan_paths.specs.Cables.{cable_faults, IsCableLast};
ghost use Rattle.machine_memory.specs.Acts.{state_of};
ghost use Rattle.stapl_machine.specs.Runs.{run_of};
ghost use Rattle.code_plays.specs.CodePlays.{NeverRises, WasClocked};
ghost use Rattle.account_plays.specs.AccountTurns.{IsOpenCable, CanPlayTurns};
ghost use Rattle.account_plays.specs.AccountedRuns.{HasTurnAt, IsUntoldAt, TurnsAreTold, TurnsFindRoom, HasPlayedTurns};

use crate::accounting::account_turn;
use crate::turns::Course;
use account_lines::TurnPlace;
use base::Steps;
use machine_memory::memory::Workspace;
use run_cable::Runs;
use scan_paths::Cable;
use stapl_instructions::Went;
use stapl_machine::piece_at;
use stapl_meaning::Ending;
use std::sync::ledger::Ledger;
use tap_states::Tap;
use tool_io::{Failed, Lines, Sink};

/// How a run stands when it is over: its ending, if it has one, and how many turns it had.
#[derive(Clone, Copy)]
pub struct Over {
    pub ending: Option<Ending>,
    pub turns: u32,
}

// What is told of the piece of the turn at a place of a code, if there is a turn and it is told. A code counts pieces from
// 1, and the table from 0.
fn said_at(course: &Course<'_>, place: u32) -> Option<TurnPlace>
    ensures told { IfSome result (HasTurnAt course.now.code.now course.now.table.now place) }
    ensures untold { IsUntoldAt course.now.code.now course.now.table.now place result }
{
    let piece = piece_at(course.code.instrs.as_slice(), place as usize)?;
    let index = piece.checked_sub(1)?;
    course.table.get(index as usize).copied()
}

/// Plays at most so many turns of a code, from a place and a state of the controllers on and over a cable that never
/// fails, and puts the text of each: what it writes besides, and then the lines of its runs. There is no ending if the
/// run met what no valid code meets.
///
/// `Failed` as of the sink; then a front of the text was put. It takes no memory.
pub fn account_turns<C: Cable, K: Sink, L: Ledger>(
    course: &Course<'_>,
    start: u32,
    from: Tap,
    work: &mut Workspace,
    cable: &mut C,
    runs: &mut Runs,
    out: &mut Lines<K>,
    turns: u32,
    steps: &mut Steps<L>,
) -> Result<Over, Failed>
    requires ready { CanPlayTurns course.now.code.now work.old }
    requires open { IsOpenCable C.Cable from cable.old }
    requires sure { NeverRises (cable_faults C.line_faults C.pin_faults) (IsCableLast C.is_line_last C.is_pin_last) }
    requires whole { IsWhole out.old }
    requires none_lost { runs.old.lost ≡ false }
    requires told { TurnsAreTold C.Cable course.now.code.now course.now.table.now (lengths_of course.now.base)
        (λ n. run_of course.now.code.now n start (state_of course.now.chosen.now work.old)) from cable.old }
    requires room { TurnsFindRoom C.Cable course.now.code.now course.now.table.now (lengths_of course.now.base)
        (λ n. run_of course.now.code.now n start (state_of course.now.chosen.now work.old)) from cable.old runs.old }
    ensures played { HasPlayedTurns C.Cable K.Sink course.now.code.now course.now.table.now (lengths_of course.now.base)
        (λ n. run_of course.now.code.now n start (state_of course.now.chosen.now work.old)) from cable.old runs.old out.old
        turns cable.new runs.new out.new result }
    ensures clocked { WasClocked C.made cable.old cable.new }
{
    let mut place = start;
    let mut tap = from;
    for turn in 0..turns {
        let Some(said) = said_at(course, place) else {
            unreachable!()
        };
        let turned = match account_turn(course, place, said, tap, work, cable, runs, out, steps) {
            Ok(turned) => turned,
            Err(failed) => return Err(failed),
        };
        match turned.went {
            Went::On(to) => {
                place = to;
                tap = turned.tap;
            }
            Went::Over(ending) => {
                return Ok(Over {
                    ending,
                    turns: turn + 1,
                });
            }
        }
    }
    Ok(Over {
        ending: Some(Ending::Spent),
        turns,
    })
}
