//! Lists inside instructions, read from the front of the bytes.
ghost use Rattle.std.specs.Prelude.{◌≡◌, []};
ghost use Rattle.code_files.specs.Reading.{ReadingGives, items_at, listed_in};
ghost use Rattle.code_files.specs.ReadInstrs.{integer_at, part_at, state_at};

use crate::fault::Stop;
use crate::read_parts::{integer_of, part_of, state_of};
use crate::reading::number_in;
use base::ItemList;
use stapl_code::PrintPart;
use std::alloc::Global;
use tap_states::Tap;

fn integers_at(alloc: Global, count: u32, bytes: &[u8]) -> Result<(Vec<i32>, &[u8]), Stop>
    ensures { ReadingGives (λ x. (x.0.items, x.1.now)) result (items_at (λ _. integer_at) [] count bytes.now) }
{
    let mut items = Vec::new(alloc);
    let mut rest = bytes;
    for _ in 0..count {
        let (item, after) = integer_of(rest)?;
        items.push(item)?;
        rest = after;
    }
    Ok((items, rest))
}

/// At least one integer, and fewer than end.
#[tactic(auto, unfolding(crate::specs::Reading::listed_in))]
pub(crate) fn integers_of(
    alloc: Global,
    end: usize,
    bytes: &[u8],
) -> Result<(ItemList<i32>, &[u8]), Stop>
    ensures { ReadingGives (λ x. (x.0, x.1.now)) result (listed_in (λ _. integer_at) 1 end bytes.now) }
{
    let (count, rest) = number_in(1, end, bytes)?;
    let (items, rest) = integers_at(alloc, count, rest)?;
    Ok((ItemList::of(items), rest))
}

fn parts_at(
    alloc: Global,
    texts: usize,
    count: u32,
    bytes: &[u8],
) -> Result<(Vec<PrintPart>, &[u8]), Stop>
    ensures { ReadingGives (λ x. (x.0.items, x.1.now)) result (items_at (λ _. part_at texts) [] count bytes.now) }
{
    let mut items = Vec::new(alloc);
    let mut rest = bytes;
    for _ in 0..count {
        let (item, after) = part_of(texts, rest)?;
        items.push(item)?;
        rest = after;
    }
    Ok((items, rest))
}

/// At least one part, and fewer than end.
#[tactic(auto, unfolding(crate::specs::Reading::listed_in))]
pub(crate) fn parts_of(
    alloc: Global,
    texts: usize,
    end: usize,
    bytes: &[u8],
) -> Result<(ItemList<PrintPart>, &[u8]), Stop>
    ensures { ReadingGives (λ x. (x.0, x.1.now)) result (listed_in (λ _. part_at texts) 1 end bytes.now) }
{
    let (count, rest) = number_in(1, end, bytes)?;
    let (items, rest) = parts_at(alloc, texts, count, rest)?;
    Ok((ItemList::of(items), rest))
}

fn states_at(alloc: Global, count: u32, bytes: &[u8]) -> Result<(Vec<Tap>, &[u8]), Stop>
    ensures { ReadingGives (λ x. (x.0.items, x.1.now)) result (items_at (λ _. state_at) [] count bytes.now) }
{
    let mut items = Vec::new(alloc);
    let mut rest = bytes;
    for _ in 0..count {
        let (item, after) = state_of(rest)?;
        items.push(item)?;
        rest = after;
    }
    Ok((items, rest))
}

/// At least one state, and fewer than end.
#[tactic(auto, unfolding(crate::specs::Reading::listed_in))]
pub(crate) fn states_of(
    alloc: Global,
    end: usize,
    bytes: &[u8],
) -> Result<(ItemList<Tap>, &[u8]), Stop>
    ensures { ReadingGives (λ x. (x.0, x.1.now)) result (listed_in (λ _. state_at) 1 end bytes.now) }
{
    let (count, rest) = number_in(1, end, bytes)?;
    let (items, rest) = states_at(alloc, count, rest)?;
    Ok((ItemList::of(items), rest))
}
