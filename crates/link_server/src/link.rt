//! A link, and the bytes that are fed to it.
ghost use Rattle.std.specs.Prelude.{◌≡◌, ◌<◌, ◌≤◌, ◌+◌, ◌^◌, ℕ, List, map, length, false, IsTrue, IsSome, Some, slice_get};
ghost use Rattle.dev_card.specs.Card.{Card};
ghost use Rattle.chain_sim.specs.Places.{cards_at, is_chain, AreApart, IsAbsent};
ghost use Rattle.link_server.specs.Runs.{new_link, is_open, digit_of, board_raised, HasFed, HasFedByte, IsUnfed};

use crate::orders::{Levels, Order, order_of};
use chain_sim::{clock_all, first_tdo};
use dev_card::Device;

/// How a session stands: it is open, a `Q` ended it, or a byte was refused.
#[derive(Clone, Copy)]
pub enum LinkState {
    Open,
    Quit,
    Bad,
}

/// What a link keeps: the level of TCK, and how its session stands.
#[derive(Clone, Copy)]
pub struct Link {
    pub tck: bool,
    pub state: LinkState,
}

/// How many bytes a link took of those that it was fed, and how many it answered.
#[derive(Clone, Copy)]
pub struct Fed {
    pub taken: u32,
    pub answered: u32,
}

// The digit of a bit.
fn digit_of(bit: bool) -> u8
    ensures { result ≡ digit_of bit }
{
    if bit { b'1' } else { b'0' }
}

impl Link {
    /// A link as it begins: TCK is low, and the session is open.
    pub fn new() -> Link
        ensures { result ≡ new_link }
    {
        Link {
            tck: false,
            state: LinkState::Open,
        }
    }

    /// Whether the session is open.
    pub fn is_open(&self) -> bool
        ensures { result ≡ is_open self.now.state }
    {
        matches!(self.state, LinkState::Open)
    }

    // Sets the levels; the board at the places is clocked if TCK rises.
    fn set<D: Device>(&mut self, rack: &mut Vec<D>, places: &[u32], levels: Levels)
        requires fitted { IsSome (cards_at (map D.fitted rack.old.items) places.now) }
        requires apart { AreApart places.now }
        ensures link { self.new ≡ record { tck = levels.tck; state = self.old.state } }
        ensures kinds { map D.kind_of rack.new.items ≡ map D.kind_of rack.old.items }
        ensures others { (k : ℕ) → IsAbsent k places.now → slice_get rack.new.items k ≡ slice_get rack.old.items k }
        ensures board { (cs : List Card) → cards_at (map D.fitted rack.old.items) places.now ≡ Some cs →
            cards_at (map D.fitted rack.new.items) places.now
            ≡ Some (board_raised (record { link = self.old; board = cs }) levels) }
    {
        let rises = levels.tck && !self.tck;
        self.tck = levels.tck;
        if rises {
            clock_all(rack, places, levels.tms, levels.tdi);
        }
    }

    // Takes one byte: an answer is put after those that were put before.
    fn feed_byte<D: Device>(
        &mut self,
        rack: &mut Vec<D>,
        places: &[u32],
        byte: u8,
        answers: &mut [u8],
        fed: &mut Fed,
    )
        requires fitted { IsSome (cards_at (map D.fitted rack.old.items) places.now) }
        requires apart { AreApart places.now }
        requires room { fed.old.answered < length answers.old }
        requires few { fed.old.taken + 1 < 2 ^ 32 }
        requires small { fed.old.answered + 1 < 2 ^ 32 }
        ensures kinds { map D.kind_of rack.new.items ≡ map D.kind_of rack.old.items }
        ensures others { (k : ℕ) → IsAbsent k places.now → slice_get rack.new.items k ≡ slice_get rack.old.items k }
        ensures room { length answers.new ≡ length answers.old }
        ensures taken { fed.new.taken ≤ fed.old.taken + 1 }
        ensures answered { fed.new.answered ≤ fed.old.answered + 1 }
        ensures fed { (cs : List Card) → cards_at (map D.fitted rack.old.items) places.now ≡ Some cs →
            HasFedByte (record { link = self.old; board = cs }) byte answers.old fed.old
            self.new (cards_at (map D.fitted rack.new.items) places.now) answers.new fed.new }
    {
        if !self.is_open() {
            return;
        }
        match order_of(byte) {
            Order::Set(levels) => self.set(rack, places, levels),
            Order::Ask => {
                answers[fed.answered as usize] = digit_of(first_tdo(rack, places, false));
                fed.answered += 1;
            }
            Order::Nothing => {}
            Order::Quit => self.state = LinkState::Quit,
            Order::Refused => {
                self.state = LinkState::Bad;
                return;
            }
        }
        fed.taken += 1;
    }

    /// As `feed`, over a rack of devices of any one type: the places differ, and each has a fitted device.
    pub fn feed_devices<D: Device>(
        &mut self,
        rack: &mut Vec<D>,
        places: &[u32],
        bytes: &[u8],
        answers: &mut [u8],
    ) -> Fed
        requires fitted { IsSome (cards_at (map D.fitted rack.old.items) places.now) }
        requires apart { AreApart places.now }
        requires room { length bytes.now ≤ length answers.old }
        requires few { length bytes.now < 2 ^ 32 }
        ensures taken { result.taken ≤ length bytes.now }
        ensures answered { result.answered ≤ length bytes.now }
        ensures room { length answers.new ≡ length answers.old }
        ensures kinds { map D.kind_of rack.new.items ≡ map D.kind_of rack.old.items }
        ensures others { (k : ℕ) → IsAbsent k places.now → slice_get rack.new.items k ≡ slice_get rack.old.items k }
        ensures fed { (cs : List Card) → cards_at (map D.fitted rack.old.items) places.now ≡ Some cs →
            HasFed (record { link = self.old; board = cs }) bytes.now answers.old
            self.new (cards_at (map D.fitted rack.new.items) places.now) answers.new result }
    {
        let mut fed = Fed {
            taken: 0,
            answered: 0,
        };
        let mut at = 0;
        'bytes: while at < bytes.len() {
            self.feed_byte(rack, places, bytes[at], answers, &mut fed);
            at += 1;
        }
        fed
    }

    /// Takes these bytes against the devices at these places of a rack, the first nearest TDO: levels are set, the board
    /// is clocked where TCK rises, and each `R` is answered with a digit, at the front of `answers`. The rest of that
    /// buffer stays as it is. All is as the run of the link over the bytes says; it ends after the first `Q`, or before
    /// the first byte that is refused.
    ///
    /// There is at least one place, the places differ, and each has a fitted device, as a chain over them needs it.
    /// There are at least as many places for answers as bytes. A session that is not open takes nothing, and nothing
    /// changes. No list of bytes fails; no memory is taken. For a board the time is linear in the number of bytes.
    pub fn feed(
        &mut self,
        rack: &mut Vec<Box<dyn Device>>,
        places: &[u32],
        bytes: &[u8],
        answers: &mut [u8],
    ) -> Fed
        requires chain { IsTrue (is_chain (map fitted rack.old.items) places.now) }
        requires room { length bytes.now ≤ length answers.old }
        requires few { length bytes.now < 2 ^ 32 }

        // Link, board, answers and counts are those of the run.
        ensures fed { (cs : List Card) → cards_at (map fitted rack.old.items) places.now ≡ Some cs →
            HasFed (record { link = self.old; board = cs }) bytes.now answers.old
            self.new (cards_at (map fitted rack.new.items) places.now) answers.new result }

        // A session that is not open takes nothing, and nothing changes.
        ensures closed { is_open self.old.state ≡ false →
            IsUnfed self.old rack.old answers.old self.new rack.new answers.new result }

        // No more is taken or answered than was fed.
        ensures taken { result.taken ≤ length bytes.now }
        ensures answered { result.answered ≤ length bytes.now }

        // In any case each device keeps its kind, and those at other places stay as they were.
        ensures kinds { map kind_of rack.new.items ≡ map kind_of rack.old.items }
        ensures others { (k : ℕ) → IsAbsent k places.now → slice_get rack.new.items k ≡ slice_get rack.old.items k }
    {
        if !self.is_open() {
            return Fed {
                taken: 0,
                answered: 0,
            };
        }
        self.feed_devices(rack, places, bytes, answers)
    }
}
