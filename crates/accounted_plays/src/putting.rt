//! The text of a play of a code with its account.
ghost use Rattle.std.specs.Prelude.{◌≡◌, map};
ghost use Rattle.tool_io.specs.Lines.{IsWhole};
ghost use Rattle.scan_paths.specs.Scans.{lengths_of};
ghost use Rattle.stapl_machine.specs.Machines.{IsPrepared};
ghost use Rattle.code_plays.specs.CodePlays.{HasEnding, IsFittedAt};
ghost use Rattle.accounted_plays.specs.CodeAccounts.{CanAccount, AreFirstRuns, AreSums, plays_at, PutsAccount};

use crate::over_cable::account_on_chain;
use account_lines::{Sums, put_sums};
use account_plays::Course;
use code_plays::{Task, put_ending};
use dev_card::Device;
use run_cable::Runs;
use stapl_machine::Machine;
use stapl_meaning::Ending;
use tool_io::{Failed, Lines, Sink};

// The sums of a play of so many turns, as they were kept.
fn sums_of(turns: u32, runs: &Runs) -> Sums
    ensures { AreSums turns runs.now result }
{
    Sums {
        turns,
        clocks: runs.clocks() as usize,
        usec: runs.usec() as usize,
        ir_scans: runs.ir_scans() as usize,
        dr_scans: runs.dr_scans() as usize,
    }
}

/// Puts a play of a code with its account, on the devices at these places of the rack, where the board of the task is
/// fitted: the text of its turns, the sums, and its ending.
///
/// `Failed` as of the sink. It takes no memory.
pub(crate) fn put_account<K: Sink>(
    machine: Machine,
    course: &Course<'_>,
    task: &Task,
    rack: &mut Vec<Box<dyn Device>>,
    places: &[u32],
    runs: &mut Runs,
    lines: &mut Lines<K>,
) -> Result<Ending, Failed>
    requires prepared { IsPrepared course.now.code.now machine }
    requires fitted { IsFittedAt (map fitted rack.old.items) places.now task.now }
    requires whole { IsWhole lines.old }
    requires first { (states : _) × AreFirstRuns (lengths_of course.now.base) states runs.old }
    requires can { CanAccount course.now.code.now course.now.table.now course.now.chosen.now
        (lengths_of course.now.base) task.now.devices.now runs.old }
    requires ends { HasEnding (plays_at course.now.code.now course.now.chosen.now (lengths_of course.now.base)
        task.now.devices.now task.now.request.now.turns) }
    ensures puts { PutsAccount course.now.code.now course.now.table.now course.now.chosen.now
        (lengths_of course.now.base) task.now.devices.now K.Sink task.now.request.now.turns lines.old lines.new result }
    ensures kinds { map kind_of rack.new.items ≡ map kind_of rack.old.items }
{
    let over = account_on_chain(machine, course, task, rack, places, runs, lines)?;
    let Some(ending) = over.ending else {
        unreachable!()
    };
    put_sums(lines, sums_of(over.turns, runs))?;
    put_ending(lines, ending)?;
    Ok(ending)
}
