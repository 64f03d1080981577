//! A text with lines of clocks, against a board (IEEE 1149.1, test access port).
ghost use Rattle.std.specs.Prelude.{◌≡◌, ◌≤◌, ℕ, List, map, length, IsTrue, IsSome, None, Some, Ok, Err, IsOk, ◌↔◌, slice_get, false};
ghost use Rattle.trace_check.specs.Limits.{trace_limit};
ghost use Rattle.dev_card.specs.Card.{Card};
ghost use Rattle.chain_sim.specs.Places.{cards_at, is_chain, AreApart, IsAbsent};
ghost use Rattle.pin_lines.specs.PinLines.{has_bad_line, pins_in};
ghost use Rattle.pin_lines.specs.FirstFaults.{IsFirstBadLine, IsFirstDifference};
ghost use Rattle.pin_lines.specs.Traces.{IsGoodTrace};
ghost use Rattle.trace_check.specs.declared.trace.TraceRefused.TheVariants as refusals;
ghost use Rattle.trace_check.specs.Clocked.{IsTraced, IsTracedUpTo};

use crate::clocks::clock_digits;
use crate::lines::{digits_of, first_bad_line, first_line};
use dev_card::Device;
use thiserror::Error;

/// The most bytes of the text of a trace.
pub const TRACE_LIMIT: u32 = 67_108_864;

/// Why a text is no trace of a board. Lines and clocks are counted from 1.
#[derive(Clone, Copy, Debug, PartialEq, Eq, Error)]
pub enum TraceRefused {
    /// The first line that begins as a line of clocks and is none.
    #[error("line {0} is no line of clocks")]
    BadLine(u32),
    /// The first clock that the board answers otherwise.
    #[error("the board answers clock {0} otherwise")]
    Differs(u32),
}

// Clocks the digits of all lines, until the board answers one otherwise: its number, or how many there are.
fn clock_lines<D: Device>(rack: &mut Vec<D>, places: &[u32], text: &[u8]) -> Result<u32, u32>
    requires few { length text.now ≤ trace_limit }
    requires good { has_bad_line text.now ≡ false }
    requires fitted { IsSome (cards_at (map D.fitted rack.old.items) places.now) }
    requires apart { AreApart places.now }
    ensures kinds { map D.kind_of rack.new.items ≡ map D.kind_of rack.old.items }
    ensures others { (k : ℕ) → IsAbsent k places.now → slice_get rack.new.items k ≡ slice_get rack.old.items k }
    ensures ok { (n : ℕ) → result ≡ Ok n → (cs : List Card) →
        cards_at (map D.fitted rack.old.items) places.now ≡ Some cs →
        IsTraced cs (pins_in text.now) n (cards_at (map D.fitted rack.new.items) places.now) }
    ensures differs { (i : ℕ) → result ≡ Err i → (cs : List Card) →
        cards_at (map D.fitted rack.old.items) places.now ≡ Some cs →
        IsTracedUpTo cs (pins_in text.now) i (cards_at (map D.fitted rack.new.items) places.now) }
{
    let mut total: u32 = 0;
    let mut at = 0;
    'lines: while at < text.len() {
        let (line, len) = first_line(&text[at..]);
        let digits = digits_of(line);
        let n = clock_digits(rack, places, digits);
        if n < digits.len() {
            return Err(total + n as u32 + 1);
        }
        total += n as u32;
        at += len;
    }
    Ok(total)
}

// Whether a text is a trace of the board at these places.
fn check_devices<D: Device>(
    rack: &mut Vec<D>,
    places: &[u32],
    text: &[u8],
) -> Result<u32, TraceRefused>
    requires few { length text.now ≤ trace_limit }
    requires fitted { IsSome (cards_at (map D.fitted rack.old.items) places.now) }
    requires apart { AreApart places.now }
    ensures kinds { map D.kind_of rack.new.items ≡ map D.kind_of rack.old.items }
    ensures others { (k : ℕ) → IsAbsent k places.now → slice_get rack.new.items k ≡ slice_get rack.old.items k }
    ensures bad_line { (n : ℕ) → result ≡ Err (refusals.BadLine n) → IsFirstBadLine text.now n }
    ensures unchanged { (n : ℕ) → result ≡ Err (refusals.BadLine n) → rack.new.items ≡ rack.old.items }
    ensures none_bad { (n : ℕ) → result ≡ Ok n → has_bad_line text.now ≡ false }
    ensures decided_first { (i : ℕ) → result ≡ Err (refusals.Differs i) → has_bad_line text.now ≡ false }
    ensures ok { (n : ℕ) → result ≡ Ok n → (cs : List Card) →
        cards_at (map D.fitted rack.old.items) places.now ≡ Some cs →
        IsTraced cs (pins_in text.now) n (cards_at (map D.fitted rack.new.items) places.now) }
    ensures differs { (i : ℕ) → result ≡ Err (refusals.Differs i) → (cs : List Card) →
        cards_at (map D.fitted rack.old.items) places.now ≡ Some cs →
        IsTracedUpTo cs (pins_in text.now) i (cards_at (map D.fitted rack.new.items) places.now) }
{
    match first_bad_line(text) {
        Some(n) => Err(TraceRefused::BadLine(n)),
        None => match clock_lines(rack, places, text) {
            Ok(n) => Ok(n),
            Err(i) => Err(TraceRefused::Differs(i)),
        },
    }
}

/// Whether a text is a trace of the board at these places of a rack, the first nearest TDO: each line that begins with
/// `C` and a space has 1 to 64 digits and nothing else, and the board, which is clocked with TMS and TDI of each digit,
/// answers it with its TDO. `Ok` has the number of clocks, and the devices are then as these leave them.
///
/// There is at least one place, the places differ, and each has a fitted device, as a chain over them needs it.
/// `BadLine` has the first bad line; it is decided first, and no device changes. `Differs` has the first clock that the
/// board answers otherwise; the devices are as before that clock. No memory is taken. For a board the time is linear in
/// the length of the text.
pub fn check_trace(
    rack: &mut Vec<Box<dyn Device>>,
    places: &[u32],
    text: &[u8],
) -> Result<u32, TraceRefused>
    requires chain { IsTrue (is_chain (map fitted rack.old.items) places.now) }
    requires few { length text.now ≤ trace_limit }

    // It is Ok exactly if no line is bad and the board answers all clocks so. Then the devices are as the clocks leave
    // them, and their number is answered.
    ensures exactly { (cs : List Card) → cards_at (map fitted rack.old.items) places.now ≡ Some cs →
        IsOk result ↔ IsGoodTrace cs text.now }
    ensures ok { (n : ℕ) → result ≡ Ok n → (cs : List Card) →
        cards_at (map fitted rack.old.items) places.now ≡ Some cs →
        IsTraced cs (pins_in text.now) n (cards_at (map fitted rack.new.items) places.now) }

    // A bad line is the first one, it is decided first, and the devices stay as they were.
    ensures bad_line { (n : ℕ) → result ≡ Err (refusals.BadLine n) → IsFirstBadLine text.now n }
    ensures unchanged { (n : ℕ) → result ≡ Err (refusals.BadLine n) → rack.new.items ≡ rack.old.items }
    ensures decided_first { (i : ℕ) → result ≡ Err (refusals.Differs i) → has_bad_line text.now ≡ false }

    // A clock that differs is the first one, and the devices are as before it.
    ensures differs { (i : ℕ) → result ≡ Err (refusals.Differs i) → (cs : List Card) →
        cards_at (map fitted rack.old.items) places.now ≡ Some cs →
        IsTracedUpTo cs (pins_in text.now) i (cards_at (map fitted rack.new.items) places.now) }

    // In any case each device keeps its kind, and those at other places stay as they were.
    ensures kinds { map kind_of rack.new.items ≡ map kind_of rack.old.items }
    ensures others { (k : ℕ) → IsAbsent k places.now → slice_get rack.new.items k ≡ slice_get rack.old.items k }
{
    check_devices(rack, places, text)
}
