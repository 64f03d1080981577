//! The lines of devices.
ghost use Rattle.std.specs.Prelude.{◌≡◌, ◌≤◌, ◌<◌, true, length, SomeIff, if◌then◌else◌};
ghost use Rattle.std.specs.Option.{ForSome};
ghost use Rattle.dev_card.specs.declared.desc.Kind.TheVariants as kinds;
ghost use Rattle.board_text.specs.Lines.{texts};
ghost use Rattle.board_text.specs.declared.shapes.Shape.TheVariants as shapes;
ghost use Rattle.board_text.specs.Shapes.{fits, places_of, memory_places, is_identity_word, is_opcode_word};
ghost use Rattle.board_text.specs.Contents.{word, number_at, identity_of, last_words, memory_of, flash_of, fill_of, device_line};
ghost use Rattle.board_text.specs.Limits.{IsMemoryInRange, IsOdd, HasGoodNumbers};

use crate::fields::{identity_at, name_at, number_within, opcode_at};
use base::ItemList;
use dev_card::{Desc, FlashDesc, IdCode, Kind};
use std::alloc::Global;

// The identity that a line gives, if it gives one; `None` where it is even.
fn identity(words: &[&[u8]], identified: bool) -> Option<Option<IdCode>>
    requires value { identified ≡ true → is_identity_word (word (texts words.now) 4) ≡ true }
    requires opcode { identified ≡ true → is_opcode_word (word (texts words.now) 5) ≡ true }
    ensures { let id = identity_of identified (texts words.now) in SomeIff result (ForSome id IsOdd) id }
{
    if !identified {
        return Some(None);
    }
    let value = identity_at(words, 4);
    let op = opcode_at(words, 5);
    if value % 2 == 1 {
        Some(Some(IdCode { value, op }))
    } else {
        None
    }
}

// The words after the identity, or after the first three words where there is none.
fn last_words<'a, 'b>(words: &'b [&'a [u8]], identified: bool) -> &'b [&'a [u8]]
    requires { (if identified then 6 else 3) ≤ length words.now }
    ensures { texts result.now ≡ last_words identified (texts words.now) }
{
    if identified { &words[6..] } else { &words[3..] }
}

// The memory that these words describe, where it is inside its limits.
fn memory(words: &[&[u8]]) -> Option<FlashDesc>
    requires { fits memory_places (texts words.now) ≡ true }
    ensures { SomeIff result (IsMemoryInRange (memory_of (texts words.now)) (number_at (texts words.now) 15))
        (memory_of (texts words.now)) }
{
    let count = number_within(words, 9, 1, 4096)?;
    let width = number_within(words, 11, 1, 4096)?;
    let busy = number_within(words, 13, 0, 1_000_000)?;
    let fill = number_within(words, 15, 0, 1)?;
    Some(FlashDesc {
        erase: opcode_at(words, 1),
        addr: opcode_at(words, 3),
        prog: opcode_at(words, 5),
        read: opcode_at(words, 7),
        words: count,
        width,
        busy,
        fill: fill == 1,
    })
}

// The memory of a device of this kind, if it has one, where it is inside its limits.
fn own_memory(words: &[&[u8]], kind: Kind) -> Option<Option<FlashDesc>>
    requires { kind ≡ kinds.Flash → fits memory_places (texts words.now) ≡ true }
    ensures { let flash = flash_of kind (texts words.now) in let fill = fill_of kind (texts words.now) in
        SomeIff result (ForSome flash (λ f. IsMemoryInRange f fill)) flash }
{
    match kind {
        Kind::Plain | Kind::Regs => Some(None),
        Kind::Flash => {
            let flash = memory(words)?;
            Some(Some(flash))
        }
    }
}

// The device that a line describes, where its numbers are inside their limits.
pub fn device(alloc: Global, kind: Kind, identified: bool, words: &[&[u8]]) -> Option<Desc>
    requires { fits (places_of (shapes.Device kind identified)) (texts words.now) ≡ true }
    ensures { SomeIff result (HasGoodNumbers (device_line kind identified (texts words.now)))
        ((device_line kind identified (texts words.now)).description) }
{
    let ir_len = number_within(words, 2, 2, 64)?;
    let id = identity(words, identified)?;
    let flash = own_memory(last_words(words, identified), kind)?;
    Some(Desc {
        kind,
        name: name_at(words, 1),
        ir_len,
        id,
        registers: ItemList::of(Vec::new(alloc)),
        flash,
    })
}
