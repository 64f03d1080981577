//! One play of a code on devices alone: how it ended, and whether it was quiet.
ghost use Rattle.std.specs.Prelude.{◌≡◌, length, map, Some, IsTrue, IfOk};
ghost use Rattle.dev_card.specs.Card.{fresh};
ghost use Rattle.tap_states.specs.declared.Tap.TheVariants.{Reset};
ghost use Rattle.board_text.specs.Boards.{CanBeFitted};
ghost use Rattle.chain_sim.specs.Places.{cards_at, is_chain};
ghost use Rattle.chain_sim.specs.Rack.{IsRack};
ghost use Rattle.stapl_code.specs.Safe.{AllBelow};
ghost use Rattle.padded_plays.specs.PaddedRuns.{fresh_board};
ghost use Rattle.quiet_watch.specs.HeardPlays.{new_watch};
ghost use Rattle.quiet_runs.specs.Verdicts.{JudgesCode};
ghost use Rattle.quiet_watch.specs.WatchedDevices.{watched_of, devices_of, IsOverSame};
ghost use Rattle.quiet_runs.specs.WatchedPlays.{CanBegin, CanWatch};

use crate::watching::watch_play;
use chain_sim::fit_board;
use dev_card::{Desc, Device};
use padded_plays::Unquiet;
use quiet_watch::Watch;
use stapl_machine::Machine;
use stapl_meaning::Ending;
use std::alloc::{AllocError, Global};
use valid_codes::Code;

/// How a play ended, and the reason of its first deed that is not quiet, if there is one.
#[derive(Clone, Copy)]
pub struct Judged {
    pub ending: Ending,
    pub unquiet: Option<Unquiet>,
}

// The play over a watch over new devices of these descriptions, which were fitted.
fn judge_over(
    machine: &mut Machine,
    code: &Code,
    chosen: &[u32],
    watch: &mut Watch<Box<dyn Device>>,
    descs: &[Desc],
    turns: u32,
) -> Result<Judged, AllocError>
    requires ready { CanWatch fitted kind_of code.now chosen.now machine.old watch.old }
    requires new { watched_of fitted kind_of watch.old ≡ new_watch descs.now }
    ensures judged { IfOk result (JudgesCode code.now chosen.now turns descs.now) }
    ensures same_rack { IsOverSame watch.old watch.new }
    ensures kinds { map kind_of (devices_of watch.new) ≡ map kind_of (devices_of watch.old) }
{
    match watch_play(machine, code, chosen, watch, turns) {
        Ok(ending) => Ok(Judged {
            ending,
            unquiet: watch.unquiet(),
        }),
        Err(_) => Err(AllocError),
    }
}

// The same over new devices at these places of the rack.
fn judge_on(
    machine: &mut Machine,
    code: &Code,
    chosen: &[u32],
    rack: &mut Vec<Box<dyn Device>>,
    places: &[u32],
    descs: &[Desc],
    turns: u32,
) -> Result<Judged, AllocError>
    requires ready { CanBegin code.now chosen.now machine.old }
    requires chain { IsTrue (is_chain (map fitted rack.old.items) places.now) }
    requires cards { cards_at (map fitted rack.old.items) places.now ≡ Some (map fresh descs.now) }
    ensures judged { IfOk result (JudgesCode code.now chosen.now turns descs.now) }
    ensures kinds { map kind_of rack.new.items ≡ map kind_of rack.old.items }
{
    let mut watch = Watch::over(rack, places, descs);
    judge_over(machine, code, chosen, &mut watch, descs, turns)
}

/// Plays the chosen procedures of a code on a board of these devices alone, which is fitted into the rack, for at most
/// so many turns, and says how the play ended and whether it was quiet.
///
/// `AllocError` comes only for want of memory, or if a scan has 2 ^ 64 bits or more. Each device keeps its kind.
pub(crate) fn judge(
    alloc: Global,
    code: &Code,
    chosen: &[u32],
    rack: &mut Vec<Box<dyn Device>>,
    descs: &[Desc],
    turns: u32,
) -> Result<Judged, AllocError>
    requires below { AllBelow (length code.now.procedures) chosen.now }
    requires devices { CanBeFitted descs.now }
    requires rack { IsRack (map kind_of rack.old.items) }
    ensures judged { IfOk result (JudgesCode code.now chosen.now turns descs.now) }
    ensures kinds { map kind_of rack.new.items ≡ map kind_of rack.old.items }
{
    let places = fit_board(alloc, rack, descs)?;
    let mut machine = Machine::prepare(alloc, code)?;
    judge_on(&mut machine, code, chosen, rack, &places, descs, turns)
}
