// One clock of the devices at some places of a rack, and one block of clocks.
ghost use Rattle.std.specs.Prelude.{◌≡◌, ◌≢◌, ◌<◌, ◌≤◌, ℕ, map, Some, IsSome, slice_get, vec_len};
ghost use Rattle.std.specs.Option.{option_map};
ghost use Rattle.dev_card.specs.Card.{tdo_of, step};
ghost use Rattle.dev_card.specs.Board.{board_step, board_tdo};
ghost use Rattle.dev_card.specs.Blocks.{card_after_block, card_block, board_after_block, board_block};
ghost use Rattle.base.specs.Bits.{low_bits, number_of};
ghost use Rattle.chain_sim.specs.Places.{card_at, cards_at, IsAbsent, AreApart};

use base::lowest;
use dev_card::Device;

// The TDO of the device at a place.
fn tdo_at<D: Device>(rack: &Vec<D>, place: usize) -> bool
    requires inside { place < vec_len rack.now }
    requires fitted { IsSome (card_at (map D.fitted rack.now.items) place) }
    ensures { option_map tdo_of (card_at (map D.fitted rack.now.items) place) ≡ Some result }
{
    rack[place].tdo()
}

// One clock of the device at a place; the others stay as they are.
fn clock_at<D: Device>(rack: &mut Vec<D>, place: usize, tms: bool, tdi: bool)
    requires inside { place < vec_len rack.old }
    requires fitted { IsSome (card_at (map D.fitted rack.old.items) place) }
    ensures kinds { map D.kind_of rack.new.items ≡ map D.kind_of rack.old.items }
    ensures card { card_at (map D.fitted rack.new.items) place
        ≡ option_map (λ c. step c tms tdi) (card_at (map D.fitted rack.old.items) place) }
    ensures others { (k : ℕ) → k ≢ place → slice_get rack.new.items k ≡ slice_get rack.old.items k }
{
    rack[place].clock(tms, tdi);
}

/// TDO of the devices at some places of a rack, without a clock, which are fitted: that of the device at the first
/// place, which is nearest TDO, as it is before the next clock, or what comes in if there is no place.
pub fn first_tdo<D: Device>(rack: &Vec<D>, places: &[u32], tdi: bool) -> bool
    requires fitted { IsSome (cards_at (map D.fitted rack.now.items) places.now) }
    ensures { option_map (λ cs. board_tdo cs tdi) (cards_at (map D.fitted rack.now.items) places.now) ≡ Some result }
{
    match places.split_first() {
        None => tdi,
        Some((first, _)) => tdo_at(rack, *first as usize),
    }
}

/// One clock of the devices at some places of a rack, which differ and have fitted devices (IEEE 1149.1, serial
/// connection). Each gets the TDO that the one after it has before the clock, and the last one what comes in. No other
/// device changes.
pub fn clock_all<D: Device>(rack: &mut Vec<D>, places: &[u32], tms: bool, tdi: bool)
    requires fitted { IsSome (cards_at (map D.fitted rack.old.items) places.now) }
    requires apart { AreApart places.now }
    ensures kinds { map D.kind_of rack.new.items ≡ map D.kind_of rack.old.items }
    ensures cards { cards_at (map D.fitted rack.new.items) places.now
        ≡ option_map (λ cs. board_step cs tms tdi) (cards_at (map D.fitted rack.old.items) places.now) }
    ensures others { (k : ℕ) → IsAbsent k places.now → slice_get rack.new.items k ≡ slice_get rack.old.items k }
{
    if let Some((first, rest)) = places.split_first() {
        let bit = first_tdo(rack, rest, tdi);
        clock_at(rack, *first as usize, tms, bit);
        clock_all(rack, rest, tms, tdi);
    }
}

// A block of the device at a place; the others stay as they are.
fn shift_at<D: Device>(rack: &mut Vec<D>, place: usize, tdi: u64, n: u32, last: bool) -> u64
    requires inside { place < vec_len rack.old }
    requires fitted { IsSome (card_at (map D.fitted rack.old.items) place) }
    requires some { 1 ≤ n }
    requires most { n ≤ 64 }
    ensures kinds { map D.kind_of rack.new.items ≡ map D.kind_of rack.old.items }
    ensures card { card_at (map D.fitted rack.new.items) place
        ≡ option_map (λ c. card_after_block c tdi n last) (card_at (map D.fitted rack.old.items) place) }
    ensures tdo { option_map (λ c. card_block c tdi n last) (card_at (map D.fitted rack.old.items) place)
        ≡ Some result }
    ensures others { (k : ℕ) → k ≢ place → slice_get rack.new.items k ≡ slice_get rack.old.items k }
{
    rack[place].shift_block(tdi, n, last)
}

// A block of the devices at all places, one call of each, from the last place to the first: each gets what the one
// after it answers, and the last one what comes in.
pub fn shift_all<D: Device>(rack: &mut Vec<D>, places: &[u32], tdi: u64, n: u32, last: bool) -> u64
    requires fitted { IsSome (cards_at (map D.fitted rack.old.items) places.now) }
    requires apart { AreApart places.now }
    requires some { 1 ≤ n }
    requires most { n ≤ 64 }
    ensures kinds { map D.kind_of rack.new.items ≡ map D.kind_of rack.old.items }
    ensures cards { cards_at (map D.fitted rack.new.items) places.now
        ≡ option_map (λ cs. board_after_block cs tdi n last) (cards_at (map D.fitted rack.old.items) places.now) }
    ensures tdo { option_map (λ cs. board_block cs tdi n last) (cards_at (map D.fitted rack.old.items) places.now)
        ≡ Some result }
    ensures others { (k : ℕ) → IsAbsent k places.now → slice_get rack.new.items k ≡ slice_get rack.old.items k }
{
    match places.split_first() {
        None => lowest(tdi, n),
        Some((first, rest)) => {
            let after = shift_all(rack, rest, tdi, n, last);
            shift_at(rack, *first as usize, after, n, last)
        }
    }
}
