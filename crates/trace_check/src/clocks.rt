//! Digits of clocks on a board (IEEE 1149.1, test access port).
ghost use Rattle.std.specs.Prelude.{◌≡◌, ◌≤◌, ◌<◌, ◌+◌, ◌-◌, ℕ, List, map, length, Some, IsSome, slice_get, slice_index_or};
ghost use Rattle.dev_card.specs.Card.{Card};
ghost use Rattle.chain_sim.specs.Places.{cards_at, AreApart, IsAbsent};
ghost use Rattle.trace_check.specs.Clocked.{IsOneClock, AreClocked, DiffersAt};

use chain_sim::{clock_all, first_tdo};
use dev_card::Device;
use pin_lines::{tdi_of, tdo_of, tms_of};

// One digit: the board at the places is clocked if it answers TDO so. Otherwise no device changes.
fn clock_digit<D: Device>(rack: &mut Vec<D>, places: &[u32], digit: u8) -> bool
    requires digit { 48 ≤ digit }
    requires fitted { IsSome (cards_at (map D.fitted rack.old.items) places.now) }
    requires apart { AreApart places.now }
    ensures kinds { map D.kind_of rack.new.items ≡ map D.kind_of rack.old.items }
    ensures others { (k : ℕ) → IsAbsent k places.now → slice_get rack.new.items k ≡ slice_get rack.old.items k }
    ensures clocked { (cs : List Card) → cards_at (map D.fitted rack.old.items) places.now ≡ Some cs →
        IsOneClock cs digit result (cards_at (map D.fitted rack.new.items) places.now) }
{
    let tdi = tdi_of(digit);
    let tdo = first_tdo(rack, places, tdi);
    if tdo != tdo_of(digit) {
        return false;
    }
    clock_all(rack, places, tms_of(digit), tdi);
    true
}

/// Clocks these digits on the board at the places until it answers one otherwise, and how many digits were clocked. The
/// devices are as before the digit that is answered otherwise.
pub(crate) fn clock_digits<D: Device>(rack: &mut Vec<D>, places: &[u32], digits: &[u8]) -> usize
    requires digits { (k : ℕ) → k < length digits.now → 48 ≤ slice_index_or digits.now k 48 }
    requires fitted { IsSome (cards_at (map D.fitted rack.old.items) places.now) }
    requires apart { AreApart places.now }
    ensures within { result ≤ length digits.now }
    ensures kinds { map D.kind_of rack.new.items ≡ map D.kind_of rack.old.items }
    ensures others { (k : ℕ) → IsAbsent k places.now → slice_get rack.new.items k ≡ slice_get rack.old.items k }
    ensures clocked { (cs : List Card) → cards_at (map D.fitted rack.old.items) places.now ≡ Some cs →
        AreClocked cs digits.now result (cards_at (map D.fitted rack.new.items) places.now) }
    ensures differs { result < length digits.now → (cs : List Card) →
        cards_at (map D.fitted rack.old.items) places.now ≡ Some cs → DiffersAt cs digits.now result }
{
    let mut n = 0;
    'clocks: while n < digits.len() {
        if !clock_digit(rack, places, digits[n]) {
            return n;
        }
        n += 1;
    }
    n
}
