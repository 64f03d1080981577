//! Texts, actions' items and instructions of a code file, read from the front of the bytes.
ghost use Rattle.std.specs.Prelude.{◌≡◌, [], true, length};
ghost use Rattle.code_files.specs.Reading.{ReadingGives, field, items_at, listed_in, any_end};
ghost use Rattle.code_files.specs.ReadInstrs.{instr_at};
ghost use Rattle.code_files.specs.ReadFiles.{text_at, item_at};

use crate::fault::Stop;
use crate::read_instrs::{Counts, instr_of};
use crate::reading::{byte_in, cut, number_in};
use base::ItemList;
use stapl_code::{Instr, ItemDef};
use stapl_meaning::Text;
use std::alloc::Global;

// So many bytes.
fn bytes_of(len: usize, bytes: &[u8]) -> Result<(&[u8], &[u8]), Stop>
    ensures { ReadingGives (λ x. (x.0.now, x.1.now)) result (field len (λ _. true) bytes.now) }
{
    if bytes.len() < len {
        return Err(cut());
    }
    let (front, rest) = bytes.split_at(len);
    Ok((front, rest))
}

fn text_of(alloc: Global, bytes: &[u8]) -> Result<(Text, &[u8]), Stop>
    ensures { ReadingGives (λ x. (x.0, x.1.now)) result (text_at bytes.now) }
{
    let (len, rest) = number_in(0, 4_194_305, bytes)?;
    let (front, rest) = bytes_of(len as usize, rest)?;
    let copy = Vec::from_slice(alloc, front)?;
    Ok((Text::of(copy), rest))
}

fn item_of(procedures: usize, bytes: &[u8]) -> Result<(ItemDef, &[u8]), Stop>
    ensures { ReadingGives (λ x. (x.0, x.1.now)) result (item_at procedures bytes.now) }
{
    let (procedure, rest) = number_in(0, procedures, bytes)?;
    let (flag, rest) = byte_in(0, 3, rest)?;
    Ok((ItemDef { procedure, flag }, rest))
}

fn texts_at(alloc: Global, count: u32, bytes: &[u8]) -> Result<(Vec<Text>, &[u8]), Stop>
    ensures { ReadingGives (λ x. (x.0.items, x.1.now)) result (items_at (λ _. text_at) [] count bytes.now) }
{
    let mut items = Vec::new(alloc);
    let mut rest = bytes;
    for _ in 0..count {
        let (item, after) = text_of(alloc, rest)?;
        items.push(item)?;
        rest = after;
    }
    Ok((items, rest))
}

/// The texts of a code.
#[tactic(auto, unfolding(crate::specs::Reading::listed_in))]
pub(crate) fn texts_of(alloc: Global, bytes: &[u8]) -> Result<(ItemList<Text>, &[u8]), Stop>
    ensures { ReadingGives (λ x. (x.0, x.1.now)) result (listed_in (λ _. text_at) 0 any_end bytes.now) }
{
    let (count, rest) = number_in(0, 1 << 32, bytes)?;
    let (items, rest) = texts_at(alloc, count, rest)?;
    Ok((ItemList::of(items), rest))
}

fn items_at(
    alloc: Global,
    procedures: usize,
    count: u32,
    bytes: &[u8],
) -> Result<(Vec<ItemDef>, &[u8]), Stop>
    ensures { ReadingGives (λ x. (x.0.items, x.1.now)) result (items_at (λ _. item_at procedures) [] count bytes.now) }
{
    let mut items = Vec::new(alloc);
    let mut rest = bytes;
    for _ in 0..count {
        let (item, after) = item_of(procedures, rest)?;
        items.push(item)?;
        rest = after;
    }
    Ok((items, rest))
}

/// The items of an action.
#[tactic(auto, unfolding(crate::specs::Reading::listed_in))]
pub(crate) fn items_of(
    alloc: Global,
    procedures: usize,
    bytes: &[u8],
) -> Result<(ItemList<ItemDef>, &[u8]), Stop>
    ensures { ReadingGives (λ x. (x.0, x.1.now)) result (listed_in (λ _. item_at procedures) 1 any_end bytes.now) }
{
    let (count, rest) = number_in(1, 1 << 32, bytes)?;
    let (items, rest) = items_at(alloc, procedures, count, rest)?;
    Ok((ItemList::of(items), rest))
}

fn instrs_at<'a>(
    alloc: Global,
    counts: Counts,
    count: u32,
    bytes: &'a [u8],
) -> Result<(Vec<Instr>, &'a [u8]), Stop>
    ensures { let c = counts.entry in let item = instr_at c.variables.now c.literals c.texts c.procedures in
        ReadingGives (λ x. (x.0.items, x.1.now)) result (items_at (λ _. item) [] count bytes.now) }
{
    let mut items = Vec::new(alloc);
    let mut rest = bytes;
    for _ in 0..count {
        let (item, after) = instr_of(alloc, counts, rest)?;
        items.push(item)?;
        rest = after;
    }
    Ok((items, rest))
}

/// The instructions of a code.
#[tactic(auto, unfolding(crate::specs::Reading::listed_in))]
pub(crate) fn instrs_of<'a>(
    alloc: Global,
    counts: Counts,
    bytes: &'a [u8],
) -> Result<(ItemList<Instr>, &'a [u8]), Stop>
    ensures { let c = counts.entry in let item = instr_at c.variables.now c.literals c.texts c.procedures in
        ReadingGives (λ x. (x.0, x.1.now)) result (listed_in (λ _. item) 0 any_end bytes.now) }
{
    let (count, rest) = number_in(0, 1 << 32, bytes)?;
    let (items, rest) = instrs_at(alloc, counts, count, rest)?;
    Ok((ItemList::of(items), rest))
}
