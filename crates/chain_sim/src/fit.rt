//! Fitting a board into a rack.
ghost use Rattle.std.specs.Prelude.{◌≡◌, ◌≢◌, ◌<◌, ◌≤◌, ℕ, length, map, Some, All, IfOk, OnOk, IsErrOf, IsTrue, slice_get, vec_len};
ghost use Rattle.dev_card.specs.Descriptions.{IsGood};
ghost use Rattle.dev_card.specs.Board.{most_devices};
ghost use Rattle.dev_card.specs.Card.{fresh};
ghost use Rattle.chain_sim.specs.Places.{card_at, cards_at, IsAbsent, is_chain};
ghost use Rattle.chain_sim.specs.Rack.{IsRack, kind_number, place_of, places_of};

use dev_card::{Desc, Device, FitRefused, Kind};
use std::alloc::{AllocError, Global};

// The number of a kind among the three.
fn number_of_kind(kind: Kind) -> usize
    ensures { result ≡ kind_number kind }
{
    match kind {
        Kind::Plain => 0,
        Kind::Regs => 1,
        Kind::Flash => 2,
    }
}

// The place of device i of a board, counted from 0.
fn place_at(i: usize, desc: &Desc) -> usize
    requires { i < most_devices }
    ensures { result ≡ place_of i desc.now }
{
    3 * i + number_of_kind(desc.kind)
}

// Fits the device at a place; the others stay as they are.
fn fit_at<D: Device>(
    alloc: Global,
    rack: &mut Vec<D>,
    place: usize,
    desc: &Desc,
) -> Result<(), FitRefused>
    requires inside { place < vec_len rack.old }
    requires good { IsGood desc.now }
    ensures kinds { map D.kind_of rack.new.items ≡ map D.kind_of rack.old.items }
    ensures card { OnOk result (card_at (map D.fitted rack.new.items) place ≡ Some (fresh desc.now)) }
    ensures others { (k : ℕ) → k ≢ place → slice_get rack.new.items k ≡ slice_get rack.old.items k }
    ensures wrong_kind { IsErrOf result FitRefused.WrongKind →
        slice_get (map D.kind_of rack.old.items) place ≢ Some desc.now.kind }
{
    rack[place].fit(alloc, desc)
}

// Fits a device for each description, and answers the places.
fn fit_all<D: Device>(
    alloc: Global,
    rack: &mut Vec<D>,
    descs: &[Desc],
) -> Result<Vec<u32>, AllocError>
    requires rack { IsRack (map D.kind_of rack.old.items) }
    requires most { length descs.now ≤ most_devices }
    requires good { All IsGood descs.now }
    ensures kinds { map D.kind_of rack.new.items ≡ map D.kind_of rack.old.items }
    ensures places { IfOk result (λ v. v.items ≡ places_of descs.now) }
    ensures cards { OnOk result (cards_at (map D.fitted rack.new.items) (places_of descs.now)
        ≡ Some (map fresh descs.now)) }
    ensures others { (k : ℕ) → IsAbsent k (places_of descs.now) →
        slice_get rack.new.items k ≡ slice_get rack.old.items k }
{
    let mut places = Vec::new(alloc);
    for i in 0..descs.len() {
        let desc = &descs[i];
        let place = place_at(i, desc);
        match fit_at(alloc, rack, place, desc) {
            Ok(()) => {}
            Err(FitRefused::Memory) => return Err(AllocError),
            Err(FitRefused::WrongKind) => unreachable!(),
        }
        places.push(place as u32)?;
    }
    Ok(places)
}

/// Fits a device of the rack for each of 1 to 64 good descriptions, and answers their places in the rack, counted from
/// 0. These devices are then as after power-up, and a chain can be laid over the places.
///
/// The rack has a device of each kind for each device that a board may have: the device at place `3 * p + k`, where p
/// is 0 to 63, is of kind k, with 0 for `Plain`, 1 for `Regs` and 2 for `Flash`. Device i of the board, counted from 1,
/// of kind k, gets the place `3 * (i - 1) + k`.
///
/// `AllocError` comes only for want of memory; then some of these devices may be fitted. Each device keeps its kind in
/// any case, and those at other places stay as they are.
pub fn fit_board(
    alloc: Global,
    rack: &mut Vec<Box<dyn Device>>,
    descs: &[Desc],
) -> Result<Vec<u32>, AllocError>
    requires rack { IsRack (map kind_of rack.old.items) }
    requires some { 1 ≤ length descs.now }
    requires most { length descs.now ≤ most_devices }
    requires good { All IsGood descs.now }
    ensures kinds { map kind_of rack.new.items ≡ map kind_of rack.old.items }
    ensures places { IfOk result (λ v. v.items ≡ places_of descs.now) }
    ensures cards { OnOk result
        (cards_at (map fitted rack.new.items) (places_of descs.now) ≡ Some (map fresh descs.now)) }
    ensures others { (k : ℕ) → IsAbsent k (places_of descs.now) →
        slice_get rack.new.items k ≡ slice_get rack.old.items k }
    ensures chain { OnOk result (IsTrue (is_chain (map fitted rack.new.items) (places_of descs.now))) }
{
    fit_all(alloc, rack, descs)
}
