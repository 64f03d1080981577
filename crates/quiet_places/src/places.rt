//! The place at which a run goes on.
ghost use Rattle.std.specs.Prelude.{◌≡◌, [], IfOk, IfSome};
ghost use Rattle.machine_memory.specs.Acts.{IsUnused, state_of};
ghost use Rattle.stapl_instructions.specs.Moves.{led_on, IsClean};
ghost use Rattle.stapl_machine.specs.Runs.{run_of, chosen_run, begun_run, play_from};
ghost use Rattle.quiet_places.specs.Places.{CanTurn, GoesOnAt, MakesOn};

use base::Steps;
use machine_memory::memory::Workspace;
use scan_paths::Cable;
use stapl_code::CodeLists;
use stapl_instructions::{Went, begin_next};
use stapl_machine::{rest_of_turn, turn};
use std::sync::ledger::Ledger;
use written_cable::{Paper, PinCable, Trouble};

// The place after so many turns from a place on, if the run still goes on.
#[inline(never)]
fn turns_place<C: Cable, O: Paper, L: Ledger>(
    code: &CodeLists,
    chosen: &[u32],
    start: u32,
    work: &mut Workspace,
    port: &mut PinCable<C, O>,
    turns: u32,
    steps: &mut Steps<L>,
) -> Result<Option<u32>, Trouble>
    requires ready { CanTurn C.Cable O.Paper code.now work.old port.old }
    requires none { work.old.operands.items ≡ [] }
    ensures place { IfOk result (λ found. IfSome found (λ place. GoesOnAt C.Cable O.Paper
        (run_of code.now turns start (state_of chosen.now work.old)) port.old place port.new)) }
    ensures made { MakesOn C.made port.old port.new }
{
    let mut place = start;
    for _turn in 0..turns {
        match turn(code, chosen, place, work, port, steps) {
            Ok(Went::On(to)) => place = to,
            Ok(Went::Over(_)) => return Ok(None),
            Err(trouble) => return Err(trouble),
        }
    }
    Ok(Some(place))
}

// The same after the prologue of a play.
fn chosen_place<C: Cable, O: Paper, L: Ledger>(
    code: &CodeLists,
    chosen: &[u32],
    work: &mut Workspace,
    port: &mut PinCable<C, O>,
    turns: u32,
    steps: &mut Steps<L>,
) -> Result<Option<u32>, Trouble>
    requires ready { CanTurn C.Cable O.Paper code.now work.old port.old }
    requires none { work.old.operands.items ≡ [] }
    ensures place { IfOk result (λ found. IfSome found (λ place. GoesOnAt C.Cable O.Paper
        (chosen_run code.now turns (state_of chosen.now work.old)) port.old place port.new)) }
    ensures made { MakesOn C.made port.old port.new }
{
    match begin_next(code, chosen, &mut work.next) {
        Went::On(start) => match turns_place(code, chosen, start, work, port, turns, steps) {
            Ok(place) => Ok(place),
            Err(trouble) => Err(trouble),
        },
        Went::Over(_) => Ok(None),
    }
}

// The same after a prologue that led there.
fn begun_place<C: Cable, O: Paper, L: Ledger>(
    code: &CodeLists,
    chosen: &[u32],
    went: Went,
    work: &mut Workspace,
    port: &mut PinCable<C, O>,
    turns: u32,
    steps: &mut Steps<L>,
) -> Result<Option<u32>, Trouble>
    requires ready { CanTurn C.Cable O.Paper code.now work.old port.old }
    requires none { IsClean went work.old.operands.items }
    ensures place { IfOk result (λ found. IfSome found (λ place. GoesOnAt C.Cable O.Paper
        (begun_run code.now turns (led_on went (state_of chosen.now work.old)) (state_of chosen.now work.old))
        port.old place port.new)) }
    ensures made { MakesOn C.made port.old port.new }
{
    match went {
        Went::On(_) => match chosen_place(code, chosen, work, port, turns, steps) {
            Ok(place) => Ok(place),
            Err(trouble) => Err(trouble),
        },
        Went::Over(_) => Ok(None),
    }
}

/// The place at which the play of the chosen procedures of a code goes on after so many turns, if it does.
pub(crate) fn play_place<C: Cable, O: Paper, L: Ledger>(
    code: &CodeLists,
    chosen: &[u32],
    work: &mut Workspace,
    port: &mut PinCable<C, O>,
    turns: u32,
    steps: &mut Steps<L>,
) -> Result<Option<u32>, Trouble>
    requires ready { CanTurn C.Cable O.Paper code.now work.old port.old }
    requires none { work.old.operands.items ≡ [] }
    requires unused { IsUnused work.old.memory }
    ensures place { IfOk result (λ found. IfSome found (λ place. GoesOnAt C.Cable O.Paper
        (play_from code.now chosen.now work.old.memory.variables.items turns) port.old place port.new)) }
    ensures made { MakesOn C.made port.old port.new }
{
    work.next = 0;
    match rest_of_turn(code, chosen, 0, work, port, steps) {
        Ok(went) => match begun_place(code, chosen, went, work, port, turns, steps) {
            Ok(place) => Ok(place),
            Err(trouble) => Err(trouble),
        },
        Err(trouble) => Err(trouble),
    }
}
