//! The first clocks of a play, with its account.
ghost use Rattle.std.specs.Prelude.{◌≡◌, false, []};
ghost use Rattle.scan_paths.specs.Cables.{whole, cable_faults, IsCableLast};
ghost use Rattle.stapl_machine.specs.Machines.{IsReady, Resets, digits_in};
ghost use Rattle.code_plays.specs.CodePlays.{NeverRises};
ghost use Rattle.account_plays.specs.AccountedTurns.{SumsGoOn};

use run_cable::{RunCable, Runs};
use scan_paths::Cable;
use stapl_machine::Machine;
use tap_states::Tap;

/// Makes the five first clocks of a play, with TMS 1, over a cable that never fails: after them all controllers are in the
/// reset state, whatever their state was. They are added to the sums. What runs they have is not said.
pub fn account_reset<C: Cable>(machine: &mut Machine, cable: &mut C, runs: &mut Runs)
    requires whole { C.breakage cable.old ≡ whole }
    requires sure { NeverRises (cable_faults C.line_faults C.pin_faults) (IsCableLast C.is_line_last C.is_pin_last) }
    requires no_digit { digits_in machine.old ≡ [] }
    requires none_lost { runs.old.lost ≡ false }
    ensures ready { (code : _) → IsReady code machine.old → IsReady code machine.new }
    ensures reset { Resets C.Cable cable.old cable.new (digits_in machine.new) }
    ensures sums { SumsGoOn runs.old 5 0 0 0 runs.new }
{
    runs.begin(Tap::Reset);
    let mut over = RunCable::over(cable, runs);
    match machine.reset_chain(&mut over) {
        Ok(()) => {}
        Err(_) => unreachable!(),
    }
}
