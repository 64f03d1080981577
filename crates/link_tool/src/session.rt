//! A session, piece by piece.
ghost use Rattle.std.specs.Prelude.{◌≡◌, ◌≤◌, ◌+◌, ◌-◌, [], List, map, length, Some, IsSome, OnOk};
ghost use Rattle.tool_io.specs.Lines.{gathered, IsWhole};
ghost use Rattle.dev_card.specs.Card.{Card};
ghost use Rattle.chain_sim.specs.Places.{cards_at, AreApart};
ghost use Rattle.link_server.specs.Runs.{new_link};
ghost use Rattle.link_tool.specs.Sessions.{most_bytes};
ghost use Rattle.link_tool.specs.Pieces.{status_after, HasTaken};

use crate::LinkStatus;
use dev_card::Device;
use link_server::{Link, LinkState};
use tool_io::{Failed, Lines, Sink};

/// The most bytes that are read at once.
pub(crate) const PIECE: usize = 4096;

/// The most bytes that a session takes.
const MOST_BYTES: u32 = 16_777_216;

/// A link, and how many bytes it has taken.
#[derive(Clone, Copy)]
pub(crate) struct Session {
    link: Link,
    taken: u32,
}

impl Session {
    /// A session as it begins.
    pub(crate) fn new() -> Session
        ensures { result ≡ record { link = new_link; taken = 0 } }
    {
        Session {
            link: Link::new(),
            taken: 0,
        }
    }

    /// How many bytes it may still take.
    pub(crate) fn room(&self) -> usize
        requires { self.now.taken ≤ most_bytes }
        ensures { result ≡ most_bytes - self.now.taken }
    {
        (MOST_BYTES - self.taken) as usize
    }

    /// How it stands, if more or none was read after what it was fed.
    pub(crate) fn status(&self, is_more: bool) -> Option<LinkStatus>
        ensures { result ≡ status_after self.now.link.state self.now.taken is_more }
    {
        match self.link.state {
            LinkState::Quit => Some(LinkStatus::Done),
            LinkState::Bad => Some(LinkStatus::BadByte(self.taken)),
            LinkState::Open => {
                if is_more {
                    Some(LinkStatus::TooLong)
                } else {
                    None
                }
            }
        }
    }

    /// Takes these bytes against the devices at the places of a rack. What is answered to them is written and flushed.
    pub(crate) fn feed<D: Device, K: Sink>(
        &mut self,
        rack: &mut Vec<D>,
        places: &[u32],
        bytes: &[u8],
        lines: &mut Lines<K>,
    ) -> Result<(), Failed>
        requires fitted { IsSome (cards_at (map D.fitted rack.old.items) places.now) }
        requires apart { AreApart places.now }
        requires few { self.old.taken + length bytes.now ≤ most_bytes }
        requires piece { length bytes.now ≤ PIECE }
        requires whole { IsWhole lines.old }
        requires empty { gathered lines.old ≡ [] }

        // Link, board, count and what is put are those of the run over the bytes.
        ensures taken { (cs : List Card) → cards_at (map D.fitted rack.old.items) places.now ≡ Some cs →
            HasTaken K.Sink self.old cs bytes.now self.new (cards_at (map D.fitted rack.new.items) places.now)
            lines.old lines.new result }
        ensures fitted { IsSome (cards_at (map D.fitted rack.new.items) places.now) }
        ensures kinds { map D.kind_of rack.new.items ≡ map D.kind_of rack.old.items }
        ensures few { self.new.taken ≤ self.old.taken + length bytes.now }
        ensures empty { OnOk result (gathered lines.new ≡ []) }
    {
        let mut answers = [0u8; PIECE];
        let fed = self.link.feed_devices(rack, places, bytes, &mut answers);
        self.taken += fed.taken;
        lines.put(&answers[..fed.answered as usize])?;
        lines.finish()?;
        Ok(())
    }
}
