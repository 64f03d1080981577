//! A turn of a code with the account of its runs.
ghost use Rattle.std.specs.Prelude.{◌≡◌, false, IfOk};
ghost use Rattle.tool_io.specs.Lines.{IsWhole};
ghost use Rattle.scan_paths.specs.Scans.{lengths_of};
ghost use Rattle.scan_paths.specs.Cables.{cable_faults, IsCableLast};
ghost use Rattle.machine_memory.specs.Acts.{state_of};
ghost use Rattle.machine_memory.specs.RunRooms.{KeepsRoom};
ghost use Rattle.stapl_instructions.specs.Moves.{led_on, IsClean};
ghost use Rattle.stapl_machine.specs.Turns.{turn_at};
ghost use Rattle.code_plays.specs.CodePlays.{NeverRises, WasClocked};
ghost use Rattle.account_plays.specs.AccountTurns.{IsOpenCable, CanPlayTurns};
ghost use Rattle.account_plays.specs.AccountedTurns.{HasAccounted, TurnFindsRoom};

use crate::run_lines::put_runs;
use crate::turns::{Course, Part, Turned, play_kept_part};
use account_lines::TurnPlace;
use base::Steps;
use code_plays::failed;
use machine_memory::memory::Workspace;
use run_cable::Runs;
use scan_paths::Cable;
use std::sync::ledger::Ledger;
use tap_states::Tap;
use tool_io::{Failed, Lines, Sink};

/// Plays the turn at a place of a code, from a state of the controllers on and over a cable that never fails, and puts
/// its text: what it writes besides, and then the lines of its runs, of which this is said.
///
/// `Failed` as of the sink; then a front of the text was put. It takes no memory.
pub fn account_turn<C: Cable, K: Sink, L: Ledger>(
    course: &Course<'_>,
    place: u32,
    said: TurnPlace,
    tap: Tap,
    work: &mut Workspace,
    cable: &mut C,
    runs: &mut Runs,
    out: &mut Lines<K>,
    steps: &mut Steps<L>,
) -> Result<Turned, Failed>
    requires ready { CanPlayTurns course.now.code.now work.old }
    requires open { IsOpenCable C.Cable tap cable.old }
    requires sure { NeverRises (cable_faults C.line_faults C.pin_faults) (IsCableLast C.is_line_last C.is_pin_last) }
    requires whole { IsWhole out.old }
    requires none_lost { runs.old.lost ≡ false }
    requires room { TurnFindsRoom C.Cable (lengths_of course.now.base)
        (turn_at course.now.code.now place (state_of course.now.chosen.now work.old)) tap cable.old runs.old }
    ensures accounted { HasAccounted C.Cable K.Sink (lengths_of course.now.base) said
        (turn_at course.now.code.now place (state_of course.now.chosen.now work.old)) tap cable.old runs.old out.old
        result (λ went. led_on went (state_of course.now.chosen.now work.new)) cable.new runs.new out.new }
    ensures clean { IfOk result (λ t. IsClean t.went work.new.operands.items) }
    ensures room { KeepsRoom work.old work.new }
    ensures open { IfOk result (λ t. IsOpenCable C.Cable t.tap cable.new) }
    ensures clocked { WasClocked C.made cable.old cable.new }
{
    match play_kept_part(
        course,
        Part::Turn(place),
        tap,
        work,
        cable,
        runs,
        out,
        steps,
    ) {
        Ok(turned) => {
            runs.close();
            runs.count_scans(said.scans);
            match put_runs(out, said, &course.base, &runs.ended()) {
                Ok(()) => Ok(turned),
                Err(failed) => Err(failed),
            }
        }
        Err(trouble) => Err(failed(trouble)),
    }
}
