//! The session of a file.
ghost use Rattle.std.specs.Prelude.{◌≡◌, ℕ, [], List, map, IsTrue, IsSome, IsErrOf, Some};
ghost use Rattle.tool_io.specs.Causes.{HasRisenAt, NoneFalls};
ghost use Rattle.tool_io.specs.Bytes.{then_bytes, MovesFront};
ghost use Rattle.tool_io.specs.Lines.{gathered, IsWhole, PutsFront};
ghost use Rattle.tool_frame.specs.Frame.{KeepsCount};
ghost use Rattle.dev_card.specs.Card.{Card};
ghost use Rattle.chain_sim.specs.Places.{cards_at, is_chain, AreApart};
ghost use Rattle.link_tool.specs.Pieces.{PutsOut, HasServed};

use crate::LinkStatus;
use crate::session::{PIECE, Session};
use dev_card::Device;
use tool_frame::NoAnswer;
use tool_io::{Lines, Shelf, Sink};

// The session of the picked file: it is read piece by piece, and what is answered to a piece is written and flushed
// before the next one is read.
fn serve<S: Shelf, D: Device, K: Sink>(
    shelf: &mut S,
    rack: &mut Vec<D>,
    places: &[u32],
    lines: &mut Lines<K>,
) -> Result<LinkStatus, NoAnswer>
    requires picked { (name : List ℕ) × S.reads shelf.old name }
    requires fitted { IsSome (cards_at (map D.fitted rack.old.items) places.now) }
    requires apart { AreApart places.now }
    requires whole { IsWhole lines.old }
    requires empty { gathered lines.old ≡ [] }
    ensures served { (cs : List Card) → cards_at (map D.fitted rack.old.items) places.now ≡ Some cs →
        HasServed (S.told shelf.old) (S.left shelf.old) (S.left shelf.new) cs
        (λ text. PutsOut K.Sink lines.old text lines.new) (λ text. PutsFront K.Sink lines.old text lines.new)
        (cards_at (map D.fitted rack.new.items) places.now) result }
    ensures kinds { map D.kind_of rack.new.items ≡ map D.kind_of rack.old.items }
    ensures unpicked { S.picks shelf.new ≡ S.picks shelf.old }
    ensures keeps { S.told shelf.new ≡ S.told shelf.old }
    ensures later { NoneFalls S.faults S.is_last shelf.old shelf.new }
    ensures read { (name : List ℕ) → S.reads shelf.old name → IsErrOf result NoAnswer.Read →
        HasRisenAt S.faults S.is_last name shelf.old shelf.new }
{
    let mut session = Session::new();
    let mut bytes = [0u8; PIECE];
    'pieces: loop {
        let Ok(n) = shelf.read(&mut bytes) else {
            return Err(NoAnswer::Read);
        };
        let piece = &bytes[..n as usize];
        if piece.is_empty() {
            return Ok(LinkStatus::Done);
        }
        let room = session.room().min(piece.len());
        session.feed(rack, places, &piece[..room], lines)?;
        if let Some(status) = session.status(room < piece.len()) {
            return Ok(status);
        }
    }
}

/// The session of the picked file, whose answers go to the sink.
pub(crate) fn serve_to<S: Shelf, K: Sink>(
    shelf: &mut S,
    rack: &mut Vec<Box<dyn Device>>,
    places: &[u32],
    out: &mut K,
) -> Result<LinkStatus, NoAnswer>
    requires picked { (name : List ℕ) × S.reads shelf.old name }
    requires chain { IsTrue (is_chain (map fitted rack.old.items) places.now) }
    ensures served { (cs : List Card) → cards_at (map fitted rack.old.items) places.now ≡ Some cs →
        HasServed (S.told shelf.old) (S.left shelf.old) (S.left shelf.new) cs
        (λ text. K.written out.new ≡ then_bytes (K.written out.old) text)
        (λ text. MovesFront (K.written out.old) text (K.written out.new))
        (cards_at (map fitted rack.new.items) places.now) result }
    ensures kinds { map kind_of rack.new.items ≡ map kind_of rack.old.items }
    ensures unpicked { S.picks shelf.new ≡ S.picks shelf.old }
    ensures keeps { S.told shelf.new ≡ S.told shelf.old }
    ensures later { NoneFalls S.faults S.is_last shelf.old shelf.new }
    ensures read { (name : List ℕ) → S.reads shelf.old name → IsErrOf result NoAnswer.Read →
        HasRisenAt S.faults S.is_last name shelf.old shelf.new }
    ensures output { KeepsCount K.Sink out.old out.new result }
{
    let mut lines = Lines::new(out);
    serve(shelf, rack, places, &mut lines)
}
