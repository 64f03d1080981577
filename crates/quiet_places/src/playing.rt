//! The place at which a play over a cable goes on.
ghost use Rattle.std.specs.Prelude.{◌≡◌, false, List, length, IfOk, IfSome};
ghost use Rattle.scan_paths.specs.Cables.{Signal, whole};
ghost use Rattle.scan_paths.specs.Scans.{lengths_of};
ghost use Rattle.stapl_code.specs.Safe.{AllBelow};
ghost use Rattle.stapl_machine.specs.Machines.{play_of, IsPrepared, IsResetCable};
ghost use Rattle.quiet_places.specs.Places.{IsFreshFor, GoesOnOver, GoesOnTold};

use crate::places::play_place;
use base::Steps;
use machine_memory::memory::Workspace;
use scan_paths::{BasePads, Cable};
use stapl_machine::Machine;
use std::sync::ledger::Ledger;
use tap_states::Tap;
use tool_io::{Lines, Sink};
use valid_codes::Code;
use written_cable::{Digits, Paper, PinCable, Trouble};

// The place after the first clocks, which led all controllers to the reset state.
fn place_on<C: Cable, O: Paper, L: Ledger>(
    work: &mut Workspace,
    code: &Code,
    chosen: &[u32],
    base: &BasePads,
    cable: &mut C,
    out: &mut O,
    turns: u32,
    steps: &mut Steps<L>,
) -> Result<Option<u32>, Trouble>
    requires fresh { IsFreshFor code.now work.old }
    requires reset { IsResetCable C.Cable cable.old }
    requires whole { O.failed out.old ≡ false }
    ensures place { IfOk result (λ found. IfSome found (GoesOnOver C.board (lengths_of base.now)
        (play_of code.now chosen.now turns) cable.old)) }
    ensures made { (signals : List Signal) × C.made cable.old signals cable.new }
{
    let lists = code.raw().lists();
    let mut port = PinCable::over(cable, out, Tap::Reset, Digits::none(), false, *base);
    match play_place(lists, chosen, work, &mut port, turns, steps) {
        Ok(place) => Ok(place),
        Err(trouble) => Err(trouble),
    }
}

// The same over lines.
fn place_with<C: Cable, K: Sink, L: Ledger>(
    work: &mut Workspace,
    code: &Code,
    chosen: &[u32],
    base: &BasePads,
    cable: &mut C,
    sink: &mut K,
    turns: u32,
    steps: &mut Steps<L>,
) -> Result<Option<u32>, Trouble>
    requires fresh { IsFreshFor code.now work.old }
    requires reset { IsResetCable C.Cable cable.old }
    ensures place { IfOk result (λ found. IfSome found (GoesOnOver C.board (lengths_of base.now)
        (play_of code.now chosen.now turns) cable.old)) }
    ensures made { (signals : List Signal) × C.made cable.old signals cable.new }
{
    let mut lines = Lines::new(sink);
    place_on(work, code, chosen, base, cable, &mut lines, turns, steps)
}

/// The place in a code at which the play of the chosen procedures goes on after so many turns, if it does: over a cable
/// that tells its board, the place of the play on that board. The machine is prepared for the code, and is given up.
/// Whatever is answered, nothing but signals was made on the cable.
///
/// It takes no memory. A `Trouble` comes as at a play.
pub fn place_after<C: Cable, K: Sink, L: Ledger>(
    machine: Machine,
    code: &Code,
    chosen: &[u32],
    base: &BasePads,
    cable: &mut C,
    sink: &mut K,
    turns: u32,
    steps: &mut Steps<L>,
) -> Result<Option<u32>, Trouble>
    requires prepared { IsPrepared code.now machine }
    requires chosen { AllBelow (length code.now.procedures) chosen.now }
    requires whole_cable { C.breakage cable.old ≡ whole }
    ensures place { IfOk result (λ found. IfSome found (GoesOnTold C.board (lengths_of base.now)
        (play_of code.now chosen.now turns) cable.old)) }
    ensures made { (signals : List Signal) × C.made cable.old signals cable.new }
{
    let mut machine = machine;
    match machine.reset_chain(cable) {
        Ok(()) => {
            let mut work = machine.into_workspace();
            match place_with(&mut work, code, chosen, base, cable, sink, turns, steps) {
                Ok(place) => Ok(place),
                Err(trouble) => Err(trouble),
            }
        }
        Err(_) => Err(Trouble::CableFault),
    }
}
