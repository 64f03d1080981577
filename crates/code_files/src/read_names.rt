//! Procedures and actions of a code file, read from the front of the bytes.
ghost use Rattle.std.specs.Prelude.{◌≡◌, [], true, false, IfOk, IfSome, IfNone};
ghost use Rattle.std.specs.List.{list_any};
ghost use Rattle.std.specs.Str.{bytes_eq};
ghost use Rattle.code_files.specs.Reading.{ReadingGives, items_at, listed_in, any_end};
ghost use Rattle.code_files.specs.ReadFiles.{is_spelled, name_at, procedure_among, procedure_at, action_among, action_at};

use crate::fault::Stop;
use crate::read_sections::items_of;
use crate::reading::{byte_in, cut, number_in, wrong};
use base::ItemList;
use indexmap::IndexSet;
use stapl_code::{ActionDef, ProcDef};
use stapl_lexer::Name;
use std::alloc::Global;

// The name that the bytes are, in upper case and not reserved.
fn spelled_name(bytes: &[u8]) -> Option<Name>
    ensures name { IfSome result (λ name. name ≡ bytes.now) }
    ensures some { IfSome result (λ _. is_spelled bytes.now ≡ true) }
    ensures none { IfNone result (is_spelled bytes.now ≡ false) }
{
    match Name::read_free(bytes) {
        None => None,
        Some(name) => {
            if name.bytes() == bytes {
                Some(name)
            } else {
                None
            }
        }
    }
}

// A name that is none of these.
fn name_of<'a>(names: &IndexSet<Name>, bytes: &'a [u8]) -> Result<(Name, &'a [u8]), Stop>
    ensures gives { ReadingGives (λ x. (x.0, x.1.now)) result (name_at names.now.keys bytes.now) }
    ensures new { IfOk result (λ x. list_any (bytes_eq x.0) names.now.keys ≡ false) }
{
    let (len, rest) = byte_in(1, 33, bytes)?;
    if rest.len() < len as usize {
        return Err(cut());
    }
    let (front, after) = rest.split_at(len as usize);
    match spelled_name(front) {
        None => Err(wrong(rest)),
        Some(name) => {
            if names.contains(&name) {
                Err(wrong(rest))
            } else {
                Ok((name, after))
            }
        }
    }
}

// A procedure whose name is none of these, and whose entry is at least this.
fn procedure_of<'a>(
    names: &IndexSet<Name>,
    least: usize,
    bytes: &'a [u8],
) -> Result<(ProcDef, &'a [u8]), Stop>
    ensures gives { ReadingGives (λ x. (x.0, x.1.now)) result (procedure_among names.now.keys least bytes.now) }
    ensures new { IfOk result (λ x. list_any (bytes_eq x.0.name) names.now.keys ≡ false) }
{
    match name_of(names, bytes) {
        Err(stop) => Err(stop),
        Ok((name, rest)) => {
            let (entry, rest) = number_in(least, 1 << 32, rest)?;
            Ok((ProcDef { name, entry }, rest))
        }
    }
}

// An action whose name is none of these.
fn action_of<'a>(
    alloc: Global,
    procedures: usize,
    names: &IndexSet<Name>,
    bytes: &'a [u8],
) -> Result<(ActionDef, &'a [u8]), Stop>
    ensures gives { ReadingGives (λ x. (x.0, x.1.now)) result (action_among procedures names.now.keys bytes.now) }
    ensures new { IfOk result (λ x. list_any (bytes_eq x.0.name) names.now.keys ≡ false) }
{
    match name_of(names, bytes) {
        Err(stop) => Err(stop),
        Ok((name, rest)) => {
            let (items, rest) = items_of(alloc, procedures, rest)?;
            Ok((ActionDef { name, items }, rest))
        }
    }
}

// So many procedures, whose names are gathered.
fn named_procedures_at<'a>(
    alloc: Global,
    count: u32,
    names: &mut IndexSet<Name>,
    bytes: &'a [u8],
) -> Result<(Vec<ProcDef>, &'a [u8]), Stop>
    requires { names.old.keys ≡ [] }
    ensures { ReadingGives (λ x. (x.0.items, x.1.now)) result (items_at procedure_at [] count bytes.now) }
{
    let mut items = Vec::new(alloc);
    let mut least: usize = 0;
    let mut rest = bytes;
    for _ in 0..count {
        match procedure_of(names, least, rest) {
            Err(stop) => return Err(stop),
            Ok((item, after)) => {
                least = item.entry as usize + 1;
                names.insert(item.name)?;
                items.push(item)?;
                rest = after;
            }
        }
    }
    Ok((items, rest))
}

fn procedures_at(alloc: Global, count: u32, bytes: &[u8]) -> Result<(Vec<ProcDef>, &[u8]), Stop>
    ensures { ReadingGives (λ x. (x.0.items, x.1.now)) result (items_at procedure_at [] count bytes.now) }
{
    let mut names = IndexSet::new(alloc);
    named_procedures_at(alloc, count, &mut names, bytes)
}

/// The procedures of a code.
#[tactic(auto, unfolding(crate::specs::Reading::listed_in))]
pub(crate) fn procedures_of(alloc: Global, bytes: &[u8]) -> Result<(ItemList<ProcDef>, &[u8]), Stop>
    ensures { ReadingGives (λ x. (x.0, x.1.now)) result (listed_in procedure_at 1 any_end bytes.now) }
{
    let (count, rest) = number_in(1, 1 << 32, bytes)?;
    let (items, rest) = procedures_at(alloc, count, rest)?;
    Ok((ItemList::of(items), rest))
}

// So many actions, whose names are gathered.
fn named_actions_at<'a>(
    alloc: Global,
    procedures: usize,
    count: u32,
    names: &mut IndexSet<Name>,
    bytes: &'a [u8],
) -> Result<(Vec<ActionDef>, &'a [u8]), Stop>
    requires { names.old.keys ≡ [] }
    ensures { ReadingGives (λ x. (x.0.items, x.1.now)) result (items_at (action_at procedures) [] count bytes.now) }
{
    let mut items = Vec::new(alloc);
    let mut rest = bytes;
    for _ in 0..count {
        let (item, after) = action_of(alloc, procedures, names, rest)?;
        let name = item.name;
        items.push(item)?;
        names.insert(name)?;
        rest = after;
    }
    Ok((items, rest))
}

fn actions_at(
    alloc: Global,
    procedures: usize,
    count: u32,
    bytes: &[u8],
) -> Result<(Vec<ActionDef>, &[u8]), Stop>
    ensures { ReadingGives (λ x. (x.0.items, x.1.now)) result (items_at (action_at procedures) [] count bytes.now) }
{
    let mut names = IndexSet::new(alloc);
    named_actions_at(alloc, procedures, count, &mut names, bytes)
}

/// The actions of a code with so many procedures.
#[tactic(auto, unfolding(crate::specs::Reading::listed_in))]
pub(crate) fn actions_of(
    alloc: Global,
    procedures: usize,
    bytes: &[u8],
) -> Result<(ItemList<ActionDef>, &[u8]), Stop>
    ensures { ReadingGives (λ x. (x.0, x.1.now)) result (listed_in (action_at procedures) 1 any_end bytes.now) }
{
    let (count, rest) = number_in(1, 1 << 32, bytes)?;
    let (items, rest) = actions_at(alloc, procedures, count, rest)?;
    Ok((ItemList::of(items), rest))
}
