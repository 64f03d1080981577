//! A whole run of a code, with its account.
ghost use Rattle.std.specs.Prelude.{◌≡◌, false};
ghost use Rattle.tap_states.specs.declared.Tap.TheVariants.{Reset};
ghost use Rattle.tool_io.specs.Lines.{IsWhole};
ghost use Rattle.scan_paths.specs.Scans.{lengths_of};
ghost use Rattle.scan_paths.specs.Cables.{cable_faults, IsCableLast};
ghost use Rattle.machine_memory.specs.Acts.{IsUnused};
ghost use Rattle.stapl_machine.specs.Runs.{play_from};
ghost use Rattle.code_plays.specs.CodePlays.{NeverRises, WasClocked};
ghost use Rattle.account_plays.specs.AccountTurns.{IsOpenCable, CanPlayTurns};
ghost use Rattle.account_plays.specs.AccountedRuns.{TurnsAreTold, TurnsFindRoom, FirstFindsRoom, HasPlayedRun};

use crate::running::{Over, account_turns};
use crate::turns::{Course, Part, play_kept_part};
use base::Steps;
use code_plays::failed;
use machine_memory::memory::Workspace;
use run_cable::Runs;
use scan_paths::Cable;
use stapl_instructions::{Went, begin_next};
use std::sync::ledger::Ledger;
use tap_states::Tap;
use tool_io::{Failed, Lines, Sink};

/// Plays the prologue of a code, and then at most so many turns of the chosen procedures, over a cable that never fails
/// and whose controllers are all in the reset state. It puts what comes before the turns, and then the text of each turn.
/// There is no ending if the run met what no valid code meets.
///
/// `Failed` as of the sink; then a front of the text was put. It takes no memory.
pub fn account_run<C: Cable, K: Sink, L: Ledger>(
    course: &Course<'_>,
    work: &mut Workspace,
    cable: &mut C,
    runs: &mut Runs,
    out: &mut Lines<K>,
    turns: u32,
    steps: &mut Steps<L>,
) -> Result<Over, Failed>
    requires ready { CanPlayTurns course.now.code.now work.old }
    requires unused { IsUnused work.old.memory }
    requires open { IsOpenCable C.Cable Reset cable.old }
    requires sure { NeverRises (cable_faults C.line_faults C.pin_faults) (IsCableLast C.is_line_last C.is_pin_last) }
    requires whole { IsWhole out.old }
    requires none_lost { runs.old.lost ≡ false }
    requires told { TurnsAreTold C.Cable course.now.code.now course.now.table.now (lengths_of course.now.base)
        (λ n. play_from course.now.code.now course.now.chosen.now work.old.memory.variables.items n) Reset cable.old }
    requires room { TurnsFindRoom C.Cable course.now.code.now course.now.table.now (lengths_of course.now.base)
        (λ n. play_from course.now.code.now course.now.chosen.now work.old.memory.variables.items n) Reset cable.old runs.old }
    requires first_room { FirstFindsRoom C.Cable course.now.code.now course.now.table.now (lengths_of course.now.base)
        (λ n. play_from course.now.code.now course.now.chosen.now work.old.memory.variables.items n) Reset cable.old runs.old }
    ensures played { HasPlayedRun C.Cable K.Sink course.now.code.now course.now.table.now (lengths_of course.now.base)
        (λ n. play_from course.now.code.now course.now.chosen.now work.old.memory.variables.items n) Reset cable.old runs.old
        out.old turns cable.new runs.new out.new result }
    ensures clocked { WasClocked C.made cable.old cable.new }
{
    work.next = 0;
    match play_kept_part(
        course,
        Part::Prologue,
        Tap::Reset,
        work,
        cable,
        runs,
        out,
        steps,
    ) {
        Ok(turned) => match turned.went {
            Went::On(_) => match begin_next(course.code, course.chosen, &mut work.next) {
                Went::On(start) => match account_turns(
                    course, start, turned.tap, work, cable, runs, out, turns, steps,
                ) {
                    Ok(over) => Ok(over),
                    Err(failed) => Err(failed),
                },
                Went::Over(ending) => Ok(Over { ending, turns: 0 }),
            },
            Went::Over(_) => Ok(Over {
                ending: None,
                turns: 0,
            }),
        },
        Err(trouble) => Err(failed(trouble)),
    }
}
