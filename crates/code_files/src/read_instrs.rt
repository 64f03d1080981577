//! Instructions, read from the front of the bytes.
ghost use Rattle.std.specs.Prelude.{◌≡◌, ◌≤◌, ◌-◌, slice_get};
ghost use Rattle.stapl_code.specs.Ranges.{size_of};
ghost use Rattle.code_files.specs.Reading.{ReadingGives};
ghost use Rattle.code_files.specs.ReadInstrs.{row, instr_table, instr_at};

use crate::fault::Stop;
use crate::read_lists::{integers_of, parts_of, states_of};
use crate::read_parts::{
    dest_of, export_part_of, flag_of, given_source_of, integer_of, kind_of, padding_of,
    register_of, scan_of, source_of, state_of, wait_of,
};
use crate::reading::{byte_in, number_in, wrong};
use stapl_code::{Instr, VarDef};
use std::alloc::Global;

/// The variables of a code, and how many literals, texts and procedures it has.
#[derive(Clone, Copy)]
pub(crate) struct Counts<'a> {
    pub variables: &'a [VarDef],
    pub literals: usize,
    pub texts: usize,
    pub procedures: usize,
}

fn size_at(variables: &[VarDef], n: u32) -> u32
    ensures { result ≡ size_of (slice_get variables.now n) }
{
    match variables.get(n as usize) {
        None => 0,
        Some(variable) => variable.size,
    }
}

// The instructions 1 to 4: a turn, and what pushes a value that stands in the code or in a scalar.
fn operand_instr_of<'a>(counts: Counts, tag: u8, rest: &'a [u8]) -> Result<(Instr, &'a [u8]), Stop>
    requires low { 1 ≤ tag }
    requires high { tag ≤ 4 }
    ensures { let c = counts.entry in let table = instr_table c.variables.now c.literals c.texts c.procedures in
        ReadingGives (λ x. (x.0, x.1.now)) result (row (slice_get table (tag - 1)) rest.now) }
{
    match tag {
        1 => {
            let (n, rest) = number_in(1, 100_001, rest)?;
            Ok((Instr::Turn(n), rest))
        }
        2 => {
            let (value, rest) = integer_of(rest)?;
            Ok((Instr::Push(value), rest))
        }
        3 => {
            let (bit, rest) = byte_in(0, 2, rest)?;
            Ok((Instr::PushBit(bit), rest))
        }
        4 => {
            let (n, rest) = number_in(0, counts.variables.len(), rest)?;
            Ok((Instr::Load(n), rest))
        }
        _ => Err(wrong(rest)),
    }
}

// The instructions 5 to 9, which name a variable: what loads an element, checks an index and stores.
fn variable_instr_of<'a>(counts: Counts, tag: u8, rest: &'a [u8]) -> Result<(Instr, &'a [u8]), Stop>
    requires low { 5 ≤ tag }
    requires high { tag ≤ 9 }
    ensures { let c = counts.entry in let table = instr_table c.variables.now c.literals c.texts c.procedures in
        ReadingGives (λ x. (x.0, x.1.now)) result (row (slice_get table (tag - 1)) rest.now) }
{
    let (n, rest) = number_in(0, counts.variables.len(), rest)?;
    match tag {
        5 => Ok((Instr::LoadAt(n), rest)),
        6 => Ok((Instr::CheckIndex(n), rest)),
        7 => Ok((Instr::CheckRange(n), rest)),
        8 => Ok((Instr::Store(n), rest)),
        9 => Ok((Instr::StoreAt(n), rest)),
        _ => Err(wrong(rest)),
    }
}

// The instructions 10 to 14: what computes and copies values.
fn value_instr_of<'a>(counts: Counts, tag: u8, rest: &'a [u8]) -> Result<(Instr, &'a [u8]), Stop>
    requires low { 10 ≤ tag }
    requires high { tag ≤ 14 }
    ensures { let c = counts.entry in let table = instr_table c.variables.now c.literals c.texts c.procedures in
        ReadingGives (λ x. (x.0, x.1.now)) result (row (slice_get table (tag - 1)) rest.now) }
{
    let variables = counts.variables.len();
    let literals = counts.literals;
    match tag {
        10 => {
            let (op, rest) = byte_in(0, 4, rest)?;
            Ok((Instr::Unary(op), rest))
        }
        11 => {
            let (op, rest) = byte_in(0, 23, rest)?;
            Ok((Instr::Binary(op), rest))
        }
        12 => {
            let (source, rest) = source_of(variables, literals, rest)?;
            Ok((Instr::ToInt(source), rest))
        }
        13 => {
            let (dest, rest) = dest_of(variables, rest)?;
            let (source, rest) = source_of(variables, literals, rest)?;
            Ok((Instr::CopyBits(dest, source), rest))
        }
        14 => {
            let (n, rest) = number_in(0, variables, rest)?;
            let (m, rest) = number_in(0, literals, rest)?;
            Ok((Instr::SetBits(n, m), rest))
        }
        _ => Err(wrong(rest)),
    }
}

// The instructions 15 to 17: what fills an array, and jumps.
fn jump_instr_of<'a>(
    alloc: Global,
    counts: Counts,
    tag: u8,
    rest: &'a [u8],
) -> Result<(Instr, &'a [u8]), Stop>
    requires low { 15 ≤ tag }
    requires high { tag ≤ 17 }
    ensures { let c = counts.entry in let table = instr_table c.variables.now c.literals c.texts c.procedures in
        ReadingGives (λ x. (x.0, x.1.now)) result (row (slice_get table (tag - 1)) rest.now) }
{
    let variables = counts.variables.len();
    match tag {
        15 => {
            let (n, rest) = number_in(0, variables, rest)?;
            let end = size_at(counts.variables, n) as usize + 1;
            let (values, rest) = integers_of(alloc, end, rest)?;
            Ok((Instr::SetInts(n, values), rest))
        }
        16 => {
            let (n, rest) = number_in(0, 1 << 32, rest)?;
            Ok((Instr::Jump(n), rest))
        }
        17 => {
            let (n, rest) = number_in(0, 1 << 32, rest)?;
            Ok((Instr::JumpIfZero(n), rest))
        }
        _ => Err(wrong(rest)),
    }
}

// The instructions 18 to 21: loops and records.
fn loop_instr_of<'a>(counts: Counts, tag: u8, rest: &'a [u8]) -> Result<(Instr, &'a [u8]), Stop>
    requires low { 18 ≤ tag }
    requires high { tag ≤ 21 }
    ensures { let c = counts.entry in let table = instr_table c.variables.now c.literals c.texts c.procedures in
        ReadingGives (λ x. (x.0, x.1.now)) result (row (slice_get table (tag - 1)) rest.now) }
{
    let variables = counts.variables.len();
    match tag {
        18 => {
            let (n, rest) = number_in(0, variables, rest)?;
            let (m, rest) = number_in(0, 1 << 32, rest)?;
            Ok((Instr::For(n, m), rest))
        }
        19 => {
            let (n, rest) = number_in(0, variables, rest)?;
            Ok((Instr::Next(n), rest))
        }
        20 => {
            let (kind, rest) = kind_of(rest)?;
            Ok((Instr::PushRecord(kind), rest))
        }
        21 => {
            let (kind, rest) = kind_of(rest)?;
            Ok((Instr::PopRecord(kind), rest))
        }
        _ => Err(wrong(rest)),
    }
}

// The instructions 22 to 27: what calls, ends, prints and exports.
fn text_instr_of<'a>(
    alloc: Global,
    counts: Counts,
    tag: u8,
    rest: &'a [u8],
) -> Result<(Instr, &'a [u8]), Stop>
    requires low { 22 ≤ tag }
    requires high { tag ≤ 27 }
    ensures { let c = counts.entry in let table = instr_table c.variables.now c.literals c.texts c.procedures in
        ReadingGives (λ x. (x.0, x.1.now)) result (row (slice_get table (tag - 1)) rest.now) }
{
    let variables = counts.variables.len();
    let literals = counts.literals;
    match tag {
        22 => {
            let (n, rest) = number_in(0, counts.procedures, rest)?;
            Ok((Instr::Call(n), rest))
        }
        23 => Ok((Instr::EndProc, rest)),
        24 => {
            let (parts, rest) = parts_of(alloc, counts.texts, 1 << 32, rest)?;
            Ok((Instr::Print(parts), rest))
        }
        25 => Ok((Instr::CheckChar, rest)),
        26 => {
            let (key, rest) = number_in(0, counts.texts, rest)?;
            let (part, rest) = export_part_of(variables, literals, rest)?;
            Ok((Instr::Export(key, part), rest))
        }
        27 => Ok((Instr::Exit, rest)),
        _ => Err(wrong(rest)),
    }
}

// The instructions 28 to 33: what acts on the chain.
fn chain_instr_of<'a>(
    alloc: Global,
    counts: Counts,
    tag: u8,
    rest: &'a [u8],
) -> Result<(Instr, &'a [u8]), Stop>
    requires low { 28 ≤ tag }
    requires high { tag ≤ 33 }
    ensures { let c = counts.entry in let table = instr_table c.variables.now c.literals c.texts c.procedures in
        ReadingGives (λ x. (x.0, x.1.now)) result (row (slice_get table (tag - 1)) rest.now) }
{
    let variables = counts.variables.len();
    let literals = counts.literals;
    match tag {
        28 => {
            let (scan, rest) = scan_of(variables, literals, rest)?;
            Ok((Instr::Scan(scan), rest))
        }
        29 => {
            let (register, rest) = register_of(rest)?;
            let (state, rest) = state_of(rest)?;
            Ok((Instr::Stop(register, state), rest))
        }
        30 => {
            let (which, rest) = padding_of(rest)?;
            let (source, rest) = given_source_of(variables, literals, rest)?;
            Ok((Instr::Pad(which, source), rest))
        }
        31 => {
            let (states, rest) = states_of(alloc, 1 << 32, rest)?;
            Ok((Instr::State(states), rest))
        }
        32 => {
            let (at, rest) = state_of(rest)?;
            let (waits, rest) = wait_of(rest)?;
            let (last, rest) = state_of(rest)?;
            Ok((Instr::Wait(at, waits, last), rest))
        }
        33 => {
            let (stated, rest) = flag_of(rest)?;
            Ok((Instr::Frequency(stated), rest))
        }
        _ => Err(wrong(rest)),
    }
}

/// An instruction of a code with these variables, and so many literals, texts and procedures.
#[tactic(auto, unfolding(crate::specs::ReadInstrs::tagged))]
pub(crate) fn instr_of<'a>(
    alloc: Global,
    counts: Counts,
    bytes: &'a [u8],
) -> Result<(Instr, &'a [u8]), Stop>
    ensures { let c = counts.entry in
        ReadingGives (λ x. (x.0, x.1.now)) result (instr_at c.variables.now c.literals c.texts c.procedures bytes.now) }
{
    let (tag, rest) = byte_in(1, 34, bytes)?;
    match tag {
        1..=4 => operand_instr_of(counts, tag, rest),
        5..=9 => variable_instr_of(counts, tag, rest),
        10..=14 => value_instr_of(counts, tag, rest),
        15..=17 => jump_instr_of(alloc, counts, tag, rest),
        18..=21 => loop_instr_of(counts, tag, rest),
        22..=27 => text_instr_of(alloc, counts, tag, rest),
        _ => chain_instr_of(alloc, counts, tag, rest),
    }
}
