//! Variables of a code file, read from the front of the bytes.
ghost use Rattle.std.specs.Prelude.{◌≡◌, ◌<◌, ◌≤◌, ◌+◌, [], List, sum_by, IfOk};
ghost use Rattle.stapl_code.specs.declared.raw.VarDef.{VarDef};
ghost use Rattle.stapl_code.specs.Ranges.{elements_of};
ghost use Rattle.code_files.specs.Reading.{ReadingGives, items_at, listed_in, any_end};
ghost use Rattle.code_files.specs.ReadFiles.{size_end, variable_at, HasRoomFor};

use crate::fault::Stop;
use crate::reading::{byte_in, number_in};
use base::ItemList;
use stapl_code::VarDef;
use std::alloc::Global;

// How many elements a variable has, if it is of one of these two kinds.
fn elements_of(scalar: u8, array: u8, variable: VarDef) -> usize
    ensures { result ≡ elements_of scalar array variable }
{
    if variable.kind == scalar || variable.kind == array {
        variable.size as usize
    } else {
        0
    }
}

// What the size of a variable of a kind has to be below, if so many INTEGER and so many BOOLEAN elements stand before
// it.
fn size_end(ints: usize, bits: usize, kind: u8) -> usize
    requires ints { ints ≤ 1048576 }
    requires bits { bits ≤ 16777216 }
    requires kind { kind < 4 }
    ensures value { (earlier : List VarDef) → ints ≡ sum_by (elements_of 0 2) earlier →
        bits ≡ sum_by (elements_of 1 3) earlier → result ≡ size_end earlier kind }
    ensures room { HasRoomFor ints bits kind result }
{
    match kind {
        0 => 2usize.min(1_048_577 - ints),
        1 => 2usize.min(16_777_217 - bits),
        2 => 1_048_577 - ints,
        3 => 4_194_305usize.min(16_777_217 - bits),
        _ => 0,
    }
}

// A variable, if so many INTEGER and so many BOOLEAN elements stand before it.
fn variable_of(ints: usize, bits: usize, bytes: &[u8]) -> Result<(VarDef, &[u8]), Stop>
    requires ints { ints ≤ 1048576 }
    requires bits { bits ≤ 16777216 }
    ensures gives { (earlier : List VarDef) → ints ≡ sum_by (elements_of 0 2) earlier →
        bits ≡ sum_by (elements_of 1 3) earlier → ReadingGives (λ x. (x.0, x.1.now)) result (variable_at earlier bytes.now) }
    ensures ints_kept { IfOk result (λ x. ints + elements_of 0 2 x.0 ≤ 1048576) }
    ensures bits_kept { IfOk result (λ x. bits + elements_of 1 3 x.0 ≤ 16777216) }
{
    let (kind, rest) = byte_in(0, 4, bytes)?;
    let (size, rest) = number_in(1, size_end(ints, bits, kind), rest)?;
    Ok((VarDef { kind, size }, rest))
}

fn variables_at(alloc: Global, count: u32, bytes: &[u8]) -> Result<(Vec<VarDef>, &[u8]), Stop>
    ensures { ReadingGives (λ x. (x.0.items, x.1.now)) result (items_at variable_at [] count bytes.now) }
{
    let mut items = Vec::new(alloc);
    let mut ints: usize = 0;
    let mut bits: usize = 0;
    let mut rest = bytes;
    for _ in 0..count {
        let (item, after) = variable_of(ints, bits, rest)?;
        ints += elements_of(0, 2, item);
        bits += elements_of(1, 3, item);
        items.push(item)?;
        rest = after;
    }
    Ok((items, rest))
}

/// The variables of a code.
#[tactic(auto, unfolding(crate::specs::Reading::listed_in))]
pub(crate) fn variables_of(alloc: Global, bytes: &[u8]) -> Result<(ItemList<VarDef>, &[u8]), Stop>
    ensures { ReadingGives (λ x. (x.0, x.1.now)) result (listed_in variable_at 0 any_end bytes.now) }
{
    let (count, rest) = number_in(0, 1 << 32, bytes)?;
    let (items, rest) = variables_at(alloc, count, rest)?;
    Ok((ItemList::of(items), rest))
}
