//! The play of a code over a cable that tells its board and never fails.
ghost use Rattle.std.specs.Prelude.{◌≡◌, ◌≢◌, ◌<◌, [], true};
ghost use Rattle.tool_io.specs.Lines.{IsWhole};
ghost use Rattle.scan_paths.specs.Scans.{lengths_of};
ghost use Rattle.dev_card.specs.FarEnds.{far_end};
ghost use Rattle.stapl_meaning.specs.Texts.{events_text};
ghost use Rattle.written_cable.specs.declared.trouble.Trouble.TheVariants as troubles;
ghost use Rattle.stapl_machine.specs.Machines.{IsPrepared};
ghost use Rattle.code_plays.specs.Plays.{has_place};
ghost use Rattle.board_text.specs.Boards.{CanBeFitted};
ghost use Rattle.code_plays.specs.CodePlays.{task_base, task_play, IsPlayable, PlaysRun, IsSureCable, WasClocked};

use crate::playing::Task;
use base::Steps;
use scan_paths::{BasePads, Cable};
use stapl_machine::Machine;
use stapl_meaning::Ending;
use stapl_player::{base_pads, play};
use std::sync::ledger::{Blank, Ledger};
use tool_io::{Failed, Lines, Sink};
use valid_codes::Code;
use written_cable::Trouble;

/// The failure of the lines that a trouble is which is none of the cable.
pub fn failed(trouble: Trouble) -> Failed
    requires { trouble ≢ troubles.CableFault }
    ensures { trouble ≡ troubles.WriteFault }
{
    match trouble {
        Trouble::WriteFault => Failed,
        Trouble::CableFault => unreachable!(),
    }
}

/// The base padding that a task asks for: around its run of devices, if it names one.
pub fn base_of(task: &Task) -> BasePads
    requires placed { has_place task.now.request.now.place task.now.devices.now ≡ true }
    requires devices { CanBeFitted task.now.devices.now }
    ensures { lengths_of result ≡ task_base task.now }
{
    match task.request.place {
        Some(run) => base_pads(task.devices, run.first, run.last),
        None => BasePads::none(),
    }
}

/// Plays the chosen procedures of a code, as a task asks for it, over a cable that tells the fresh board of the task
/// and never fails, and puts the lines of the events. Its steps are counted in a ledger that nobody asks, for which the
/// caller makes the blank: so the proof of the caller picks the ledger.
pub fn play_over_cable<C: Cable, K: Sink, L: Ledger>(
    machine: &mut Machine,
    code: &Code,
    chosen: &[u32],
    task: &Task,
    cable: &mut C,
    lines: &mut Lines<K>,
    blank: Blank,
) -> Result<Ending, Failed>
    requires name { blank.name ≡ L.name }
    requires parts { blank.parts ≡ L.parts }
    requires some { 0 < L.parts }
    requires prepared { IsPrepared code.now machine.old }
    requires playable { IsPlayable code.now chosen.now task.now }
    requires cable { IsSureCable C.Cable task.now cable.old }
    requires whole { IsWhole lines.old }
    ensures plays { PlaysRun K.Sink (task_play code.now chosen.now task.now) (events_text task.now.request.now.pins []
        (task_play code.now chosen.now task.now).events)
        ((task_play code.now chosen.now task.now).chain.far ≡ far_end (C.board cable.new) [])
        lines.old lines.new result }
    ensures clocked { WasClocked C.made cable.old cable.new }
{
    let base = base_of(task);
    let (pins, turns) = (task.request.pins, task.request.turns);
    let mut steps = Steps::<L>::none(blank);
    match play(
        machine, code, chosen, &base, cable, lines, pins, turns, &mut steps,
    ) {
        Ok(ending) => Ok(ending),
        Err(trouble) => Err(failed(trouble)),
    }
}
