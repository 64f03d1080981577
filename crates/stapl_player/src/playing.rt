//! The play of a code.
ghost use Rattle.std.specs.Prelude.{◌≤◌, ◌+◌, ◌*◌, length};
ghost use Rattle.scan_paths.specs.Scans.{lengths_of};
ghost use Rattle.written_cable.specs.OnPaper.{lines_paper};
ghost use Rattle.written_cable.specs.Ports.{KeepsParts};
ghost use Rattle.stapl_player.specs.Plays.{CanPlay, PlaysOver};

use base::Steps;
use scan_paths::{BasePads, Cable};
use stapl_machine::Machine;
use stapl_meaning::Ending;
use std::sync::ledger::Ledger;
use tool_io::{Lines, Sink};
use valid_codes::Code;
use written_cable::Trouble;

/// Plays the chosen procedures of a code, which are told by their numbers, for at most so many turns, on a machine that
/// is prepared for it and over a cable: first five clocks with TMS 1, and then the run of the code, in which each scan
/// has this base padding around what the program shifts. It puts the lines of the events, with those of the clocks if
/// `pins` is true, and answers how the play ended: with `Spent` if it still goes on after these turns. A play of no
/// procedures ends with the code 0 after no turn. Each instruction is one step.
///
/// It takes no memory. `CableFault` comes only if the count of faults of the cable rose, or stands at its last value,
/// and `WriteFault` only if that of the sink did.
pub fn play<C: Cable, K: Sink, L: Ledger>(
    machine: &mut Machine,
    code: &Code,
    chosen: &[u32],
    base: &BasePads,
    cable: &mut C,
    out: &mut Lines<K>,
    pins: bool,
    turns: u32,
    steps: &mut Steps<L>,
) -> Result<Ending, Trouble>
    requires { CanPlay C.Cable code.now chosen.now machine.old cable.old out.old }
    ensures played { PlaysOver C.Cable K.Sink pins code.now chosen.now turns (lengths_of base.now)
        cable.old out.old steps.old result cable.new out.new steps.new machine.new }
    ensures bounded { steps.new ≤ steps.old + (turns + 1) * length code.now.instrs }
    ensures kept { KeepsParts C.Cable (lines_paper K.Sink) cable.old out.old cable.new out.new result }
{
    match machine.reset_chain(cable) {
        Ok(()) => match machine.run(code, chosen, base, cable, out, pins, turns, steps) {
            Ok(ending) => Ok(ending),
            Err(trouble) => Err(trouble),
        },
        Err(_) => Err(Trouble::CableFault),
    }
}
