//! The turns of a code with their account, over a cable that tells its board and never fails.
ghost use Rattle.std.specs.Prelude.{◌≡◌, ◌<◌, [], false, map};
ghost use Rattle.tap_states.specs.declared.Tap.TheVariants.{Reset};
ghost use Rattle.tool_io.specs.Lines.{IsWhole};
ghost use Rattle.scan_paths.specs.Scans.{lengths_of};
ghost use Rattle.scan_paths.specs.Cables.{cable_faults, IsCableLast};
ghost use Rattle.machine_memory.specs.Acts.{IsUnused};
ghost use Rattle.machine_memory.specs.Zeros.{zeros_of_code};
ghost use Rattle.stapl_machine.specs.Machines.{IsReady, IsPrepared, digits_in};
ghost use Rattle.chain_sim.specs.Chains.{devices_of, chain_places};
ghost use Rattle.chain_sim.specs.Chains.{IsOverSame as IsSameRack};
ghost use Rattle.code_plays.specs.CodePlays.{IsFittedAt, IsSureCable, NeverRises, WasClocked};
ghost use Rattle.account_plays.specs.AccountTurns.{IsOpenCable, CanPlayTurns};
ghost use Rattle.account_plays.specs.AccountedTurns.{SumsGoOn};
ghost use Rattle.accounted_plays.specs.CodeAccounts.{HasFirstBoard, CanAccount, HasPlayedTurns};

use account_plays::{Course, Over, account_reset, account_run};
use base::Steps;
use chain_sim::Chain;
use code_plays::Task;
use dev_card::Device;
use machine_memory::memory::Workspace;
use run_cable::Runs;
use scan_paths::Cable;
use stapl_machine::Machine;
use std::marker::Brand;
use std::sync::ledger::{Blank, Ledger};
use tool_io::{Failed, Lines, Sink};

// Makes the first clocks of a play.
fn reset_surely<C: Cable>(machine: &mut Machine, task: &Task, cable: &mut C, runs: &mut Runs)
    requires cable { IsSureCable C.Cable task.now cable.old }
    requires no_digit { digits_in machine.old ≡ [] }
    requires none_lost { runs.old.lost ≡ false }
    ensures ready { (code : _) → IsReady code machine.old → IsReady code machine.new }
    ensures open { IsOpenCable C.Cable Reset cable.new }
    ensures board { HasFirstBoard (C.board cable.new) task.now.devices.now }
    ensures sums { SumsGoOn runs.old 5 0 0 0 runs.new }
    ensures clocked { WasClocked C.made cable.old cable.new }
{
    account_reset(machine, cable, runs);
}

// Plays the turns after them. Its steps are counted in a ledger that nobody asks, for which the caller makes the blank:
// so the proof of the caller picks the ledger.
fn run_surely<C: Cable, K: Sink, L: Ledger>(
    course: &Course<'_>,
    work: &mut Workspace,
    task: &Task,
    cable: &mut C,
    runs: &mut Runs,
    lines: &mut Lines<K>,
    blank: Blank,
) -> Result<Over, Failed>
    requires name { blank.name ≡ L.name }
    requires parts { blank.parts ≡ L.parts }
    requires some { 0 < L.parts }
    requires ready { CanPlayTurns course.now.code.now work.old }
    requires unused { IsUnused work.old.memory }
    requires zeros { work.old.memory.variables.items ≡ zeros_of_code course.now.code.now }
    requires open { IsOpenCable C.Cable Reset cable.old }
    requires board { HasFirstBoard (C.board cable.old) task.now.devices.now }
    requires sure { NeverRises (cable_faults C.line_faults C.pin_faults) (IsCableLast C.is_line_last C.is_pin_last) }
    requires whole { IsWhole lines.old }
    requires none_lost { runs.old.lost ≡ false }
    requires can { CanAccount course.now.code.now course.now.table.now course.now.chosen.now
        (lengths_of course.now.base) task.now.devices.now runs.old }
    ensures played { HasPlayedTurns course.now.code.now course.now.table.now course.now.chosen.now
        (lengths_of course.now.base) task.now.devices.now K.Sink task.now.request.now.turns 0 lines.old runs.old result
        lines.new runs.new }
    ensures clocked { WasClocked C.made cable.old cable.new }
{
    let turns = task.request.turns;
    let mut steps = Steps::<L>::none(blank);
    match account_run(course, work, cable, runs, lines, turns, &mut steps) {
        Ok(over) => Ok(over),
        Err(failed) => Err(failed),
    }
}

// Plays a code from its first clocks on.
fn account_over_cable<C: Cable, K: Sink, L: Ledger>(
    mut machine: Machine,
    course: &Course<'_>,
    task: &Task,
    cable: &mut C,
    runs: &mut Runs,
    lines: &mut Lines<K>,
    blank: Blank,
) -> Result<Over, Failed>
    requires name { blank.name ≡ L.name }
    requires parts { blank.parts ≡ L.parts }
    requires some { 0 < L.parts }
    requires prepared { IsPrepared course.now.code.now machine }
    requires cable { IsSureCable C.Cable task.now cable.old }
    requires whole { IsWhole lines.old }
    requires none_lost { runs.old.lost ≡ false }
    requires can { CanAccount course.now.code.now course.now.table.now course.now.chosen.now
        (lengths_of course.now.base) task.now.devices.now runs.old }
    ensures played { HasPlayedTurns course.now.code.now course.now.table.now course.now.chosen.now
        (lengths_of course.now.base) task.now.devices.now K.Sink task.now.request.now.turns 5 lines.old runs.old result
        lines.new runs.new }
    ensures clocked { WasClocked C.made cable.old cable.new }
{
    reset_surely(&mut machine, task, cable, runs);
    let mut work = machine.into_workspace();
    let played = run_surely::<C, K, L>(course, &mut work, task, cable, runs, lines, blank);
    drop(work);
    played
}

// The same over a chain with the fresh board of the task.
fn account_over_chain<K: Sink>(
    machine: Machine,
    course: &Course<'_>,
    task: &Task,
    chain: &mut Chain,
    runs: &mut Runs,
    lines: &mut Lines<K>,
) -> Result<Over, Failed>
    requires prepared { IsPrepared course.now.code.now machine }
    requires fitted { IsFittedAt (map fitted (devices_of chain.old)) (chain_places chain.old) task.now }
    requires whole { IsWhole lines.old }
    requires none_lost { runs.old.lost ≡ false }
    requires can { CanAccount course.now.code.now course.now.table.now course.now.chosen.now
        (lengths_of course.now.base) task.now.devices.now runs.old }
    ensures played { HasPlayedTurns course.now.code.now course.now.table.now course.now.chosen.now
        (lengths_of course.now.base) task.now.devices.now K.Sink task.now.request.now.turns 5 lines.old runs.old result
        lines.new runs.new }
    ensures same_rack { IsSameRack chain.old chain.new }
    ensures kinds { map kind_of (devices_of chain.new) ≡ map kind_of (devices_of chain.old) }
{
    let blank = Blank::new(1);
    account_over_cable::<Chain, K, Brand>(machine, course, task, chain, runs, lines, blank)
}

/// Plays a code with an account on the devices at these places of the rack, where the board of the task is fitted: puts
/// what comes before its turns, and the text of each turn.
///
/// `Failed` as of the sink. It takes no memory.
pub(crate) fn account_on_chain<K: Sink>(
    machine: Machine,
    course: &Course<'_>,
    task: &Task,
    rack: &mut Vec<Box<dyn Device>>,
    places: &[u32],
    runs: &mut Runs,
    lines: &mut Lines<K>,
) -> Result<Over, Failed>
    requires prepared { IsPrepared course.now.code.now machine }
    requires fitted { IsFittedAt (map fitted rack.old.items) places.now task.now }
    requires whole { IsWhole lines.old }
    requires none_lost { runs.old.lost ≡ false }
    requires can { CanAccount course.now.code.now course.now.table.now course.now.chosen.now
        (lengths_of course.now.base) task.now.devices.now runs.old }
    ensures played { HasPlayedTurns course.now.code.now course.now.table.now course.now.chosen.now
        (lengths_of course.now.base) task.now.devices.now K.Sink task.now.request.now.turns 5 lines.old runs.old result
        lines.new runs.new }
    ensures kinds { map kind_of rack.new.items ≡ map kind_of rack.old.items }
{
    let mut chain = Chain::over(rack, places);
    account_over_chain(machine, course, task, &mut chain, runs, lines)
}
