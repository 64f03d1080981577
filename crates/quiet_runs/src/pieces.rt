//! The piece of a turn.
ghost use Rattle.std.specs.Prelude.{◌≡◌, ◌<◌, ◌^◌, List, length, map, Some, IsTrue, IfOk, IfSome, slice_get};
ghost use Rattle.dev_card.specs.Card.{fresh};
ghost use Rattle.scan_paths.specs.Cables.{Signal, whole};
ghost use Rattle.board_text.specs.Boards.{CanBeFitted};
ghost use Rattle.chain_sim.specs.Chains.{devices_of, chain_places};
ghost use Rattle.chain_sim.specs.Chains.{IsOverSame as IsSameRack};
ghost use Rattle.chain_sim.specs.Places.{cards_at, is_chain};
ghost use Rattle.chain_sim.specs.Rack.{IsRack};
ghost use Rattle.stapl_code.specs.Safe.{AllBelow};
ghost use Rattle.stapl_machine.specs.Machines.{play_of};
ghost use Rattle.stapl_machine.specs.Turns.{piece_of};
ghost use Rattle.padded_plays.specs.QuietPlays.{no_base};
ghost use Rattle.quiet_places.specs.Places.{GoesOnTold};
ghost use Rattle.quiet_runs.specs.Verdicts.{GoesOnAlone, TellsPiece};
ghost use Rattle.quiet_runs.specs.WatchedPlays.{CanBegin};

use crate::silence::Silence;
use base::Steps;
use chain_sim::{Chain, fit_board};
use dev_card::{Desc, Device};
use quiet_places::place_after;
use scan_paths::{BasePads, Cable};
use stapl_machine::{Machine, piece_at};
use std::alloc::{AllocError, Global};
use std::marker::Brand;
use std::sync::ledger::{Blank, Ledger};
use valid_codes::Code;
use written_cable::Trouble;

// The place at which a play without base padding goes on.
fn place_counted<C: Cable, L: Ledger>(
    machine: Machine,
    code: &Code,
    chosen: &[u32],
    cable: &mut C,
    turns: u32,
    blank: Blank,
) -> Result<Option<u32>, Trouble>
    requires name { blank.name ≡ L.name }
    requires parts { blank.parts ≡ L.parts }
    requires some { 0 < L.parts }
    requires ready { CanBegin code.now chosen.now machine }
    requires whole { C.breakage cable.old ≡ whole }
    ensures place { IfOk result (λ found. IfSome found (GoesOnTold C.board no_base
        (play_of code.now chosen.now turns) cable.old)) }
    ensures made { (signals : List Signal) × C.made cable.old signals cable.new }
{
    let mut steps = Steps::<L>::none(blank);
    let mut silence = Silence;
    let base = BasePads::none();
    place_after::<C, Silence, L>(
        machine,
        code,
        chosen,
        &base,
        cable,
        &mut silence,
        turns,
        &mut steps,
    )
}

// The same over a chain of new devices of these descriptions. Its steps are counted in a ledger that nobody asks.
fn place_over(
    machine: Machine,
    code: &Code,
    chosen: &[u32],
    chain: &mut Chain,
    descs: &[Desc],
    turns: u32,
) -> Result<Option<u32>, Trouble>
    requires ready { CanBegin code.now chosen.now machine }
    requires chain { IsTrue (is_chain (map fitted (devices_of chain.old)) (chain_places chain.old)) }
    requires cards { cards_at (map fitted (devices_of chain.old)) (chain_places chain.old)
        ≡ Some (map fresh descs.now) }
    ensures place { IfOk result (λ found. IfSome found (GoesOnAlone code.now chosen.now turns descs.now)) }
    ensures same_rack { IsSameRack chain.old chain.new }
    ensures kinds { map kind_of (devices_of chain.new) ≡ map kind_of (devices_of chain.old) }
{
    let blank = Blank::new(1);
    place_counted::<Chain, Brand>(machine, code, chosen, chain, turns, blank)
}

// The same over new devices at these places of the rack.
fn place_alone(
    machine: Machine,
    code: &Code,
    chosen: &[u32],
    rack: &mut Vec<Box<dyn Device>>,
    places: &[u32],
    descs: &[Desc],
    turns: u32,
) -> Result<Option<u32>, Trouble>
    requires ready { CanBegin code.now chosen.now machine }
    requires chain { IsTrue (is_chain (map fitted rack.old.items) places.now) }
    requires cards { cards_at (map fitted rack.old.items) places.now ≡ Some (map fresh descs.now) }
    ensures place { IfOk result (λ found. IfSome found (GoesOnAlone code.now chosen.now turns descs.now)) }
    ensures kinds { map kind_of rack.new.items ≡ map kind_of rack.old.items }
{
    let mut chain = Chain::over(rack, places);
    place_over(machine, code, chosen, &mut chain, descs, turns)
}

// The piece of the Turn at a place of a code.
fn piece_in(code: &Code, place: u32) -> Option<u32>
    ensures piece { result ≡ piece_of (slice_get code.now.instrs place) }
    ensures countable { length code.now.instrs < 2 ^ 32 }
{
    piece_at(code.raw().lists().instrs.as_slice(), place as usize)
}

/// The piece of the turn after so many turns of the play of the chosen procedures on a board of these devices alone,
/// which is fitted into the rack.
///
/// `AllocError` comes for want of memory; no clause says that it does not come if the play has no such turn. Each device
/// keeps its kind.
pub(crate) fn turn_piece(
    alloc: Global,
    code: &Code,
    chosen: &[u32],
    rack: &mut Vec<Box<dyn Device>>,
    descs: &[Desc],
    before: u32,
) -> Result<u32, AllocError>
    requires below { AllBelow (length code.now.procedures) chosen.now }
    requires devices { CanBeFitted descs.now }
    requires rack { IsRack (map kind_of rack.old.items) }
    ensures piece { IfOk result (TellsPiece code.now chosen.now before descs.now) }
    ensures kinds { map kind_of rack.new.items ≡ map kind_of rack.old.items }
{
    let places = fit_board(alloc, rack, descs)?;
    let machine = Machine::prepare(alloc, code)?;
    let Ok(Some(place)) = place_alone(machine, code, chosen, rack, &places, descs, before) else {
        return Err(AllocError);
    };
    match piece_in(code, place) {
        Some(piece) => Ok(piece),
        None => Err(AllocError),
    }
}
