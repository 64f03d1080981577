//! Runs of turns, and whole plays of a code.
ghost use Rattle.std.specs.Prelude.{◌≡◌, ◌<◌, ◌^◌, [], length};
ghost use Rattle.machine_memory.specs.Acts.{IsUnused, state_of};
ghost use Rattle.machine_memory.specs.RunRooms.{HasRoom};
ghost use Rattle.written_cable.specs.Pins.{cable_of, lines_of, IsSamePort};
ghost use Rattle.written_cable.specs.Ports.{IsOpenPort, IsRun, Keeps, IsPlayedOut, KeepsParts};
ghost use Rattle.stapl_machine.specs.Runs.{run_of, run_ticks_of, play_from, play_ticks_from};

use crate::turns::{rest_of_turn, turn};
use base::Steps;
use machine_memory::memory::Workspace;
use scan_paths::Cable;
use stapl_code::CodeLists;
use stapl_instructions::{Went, begin_next};
use stapl_meaning::Ending;
use std::sync::ledger::Ledger;
use written_cable::{Paper, PinCable, Trouble, trouble_of};

// At most so many turns from a place on, and how the run stands then. There is no ending where it met what no valid
// code meets.
#[inline(never)]
fn run_turns<C: Cable, O: Paper, L: Ledger>(
    code: &CodeLists,
    chosen: &[u32],
    start: u32,
    work: &mut Workspace,
    port: &mut PinCable<C, O>,
    turns: u32,
    steps: &mut Steps<L>,
) -> Result<Option<Ending>, Trouble>
    requires countable { length code.now.instrs < 2 ^ 32 }
    requires none { work.old.operands.items ≡ [] }
    requires open { IsOpenPort C.Cable O.Paper port.old }
    requires room { HasRoom code.now work.old }
    ensures runs { IsRun C.Cable O.Paper
        (run_of code.now turns start (state_of chosen.now work.old))
        (run_ticks_of code.now turns start (state_of chosen.now work.old))
        port.old steps.old result (state_of chosen.now work.new) port.new steps.new }
    ensures keeps { Keeps C.Cable O.Paper port.old port.new result }
{
    let mut place = start;
    for _turn in 0..turns {
        match turn(code, chosen, place, work, port, steps) {
            Ok(Went::On(to)) => place = to,
            Ok(Went::Over(ending)) => return Ok(ending),
            Err(trouble) => return Err(trouble),
        }
    }
    Ok(Some(Ending::Spent))
}

// The prologue of a code and at most so many turns of the chosen procedures, and how the play stands then. There is no
// ending where it met what no valid code meets.
fn play<C: Cable, O: Paper, L: Ledger>(
    code: &CodeLists,
    chosen: &[u32],
    work: &mut Workspace,
    port: &mut PinCable<C, O>,
    turns: u32,
    steps: &mut Steps<L>,
) -> Result<Option<Ending>, Trouble>
    requires countable { length code.now.instrs < 2 ^ 32 }
    requires none { work.old.operands.items ≡ [] }
    requires unused { IsUnused work.old.memory }
    requires open { IsOpenPort C.Cable O.Paper port.old }
    requires room { HasRoom code.now work.old }
    ensures runs { IsRun C.Cable O.Paper
        (play_from code.now chosen.now work.old.memory.variables.items turns)
        (play_ticks_from code.now chosen.now work.old.memory.variables.items turns)
        port.old steps.old result (state_of chosen.now work.new) port.new steps.new }
    ensures keeps { Keeps C.Cable O.Paper port.old port.new result }
{
    work.next = 0;
    match rest_of_turn(code, chosen, 0, work, port, steps) {
        Ok(Went::On(_)) => match begin_next(code, chosen, &mut work.next) {
            Went::On(start) => match run_turns(code, chosen, start, work, port, turns, steps) {
                Ok(ending) => Ok(ending),
                Err(trouble) => Err(trouble),
            },
            Went::Over(ending) => Ok(ending),
        },
        Ok(Went::Over(_)) => Ok(None),
        Err(trouble) => Err(trouble),
    }
}

/// The same, and then the line of the digits that wait.
pub fn play_out<C: Cable, O: Paper, L: Ledger>(
    code: &CodeLists,
    chosen: &[u32],
    work: &mut Workspace,
    port: &mut PinCable<C, O>,
    turns: u32,
    steps: &mut Steps<L>,
) -> Result<Option<Ending>, Trouble>
    requires countable { length code.now.instrs < 2 ^ 32 }
    requires none { work.old.operands.items ≡ [] }
    requires unused { IsUnused work.old.memory }
    requires open { IsOpenPort C.Cable O.Paper port.old }
    requires room { HasRoom code.now work.old }
    ensures plays { IsPlayedOut C.Cable O.Paper
        (play_from code.now chosen.now work.old.memory.variables.items turns)
        (play_ticks_from code.now chosen.now work.old.memory.variables.items turns)
        port.old steps.old result (state_of chosen.now work.new) port.new steps.new }
    ensures same { IsSamePort port.old port.new }
    ensures kept { KeepsParts C.Cable O.Paper (cable_of port.old) (lines_of port.old)
        (cable_of port.new) (lines_of port.new) result }
{
    match play(code, chosen, work, port, turns, steps) {
        Ok(ending) => match port.finish() {
            Ok(()) => Ok(ending),
            Err(_) => Err(trouble_of(port)),
        },
        Err(trouble) => Err(trouble),
    }
}
