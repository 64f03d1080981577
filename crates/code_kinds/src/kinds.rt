//! The kinds of operands.
ghost use Rattle.std.specs.Prelude.{◌≡◌, ◌∷◌, List, replicate, Some, None, IfOk, if◌then◌else◌, slice_get};
ghost use Rattle.std.specs.List.{list_all};
ghost use Rattle.stapl_code.specs.Machine.{Of, part_slots, slot_of, sides_of, result_of, source_wants, dest_want, export_slots, export_wants, takes, gives, wants};
ghost use Rattle.stapl_code.specs.Kinds.{off, variable_kind, element_kind, is_of_kind, is_met, put_on, taken_off, clears, all_off, all_on, kinds_after};

use crate::scan_wants::{given_is_met, scan_is_met};
use base::Stack;
use stapl_code::{
    Dest, ExportPart, Instr, Operator, PrintPart, Source, VarDef, export_takes, operands_taken,
    operator_of, unary_kind,
};
use stapl_meaning::ValueKind;
use std::alloc::AllocError;

// Takes off the topmost kind, and answers whether it was this one.
fn take(kinds: &mut Stack<ValueKind>, kind: ValueKind) -> bool
    ensures { off kind kinds.old ≡ (if result then Some kinds.new else None) }
{
    match (kinds.pop(), kind) {
        (Some(ValueKind::Int), ValueKind::Int) => true,
        (Some(ValueKind::Bit), ValueKind::Bit) => true,
        _ => false,
    }
}

// Takes off the kind of the operand of a part, where it takes one, and answers whether it was there.
fn take_part(kinds: &mut Stack<ValueKind>, part: PrintPart) -> bool
    ensures { (variables : List VarDef) (rest : List PrintPart) (ks : List ValueKind) →
        all_off variables (part_slots rest) ks ≡ Some kinds.old →
        all_off variables (part_slots (part ∷ rest)) ks ≡ (if result then Some kinds.new else None) }
{
    match part {
        PrintPart::Text(_) => true,
        PrintPart::Int | PrintPart::Char => take(kinds, ValueKind::Int),
        PrintPart::Bit => take(kinds, ValueKind::Bit),
    }
}

// Takes off the kinds of the operands of parts, and answers whether they were there.
fn take_parts(kinds: &mut Stack<ValueKind>, parts: &[PrintPart]) -> bool
    ensures { (variables : List VarDef) →
        all_off variables (part_slots parts.now) kinds.old ≡ (if result then Some kinds.new else None) }
{
    for done in 0..parts.len() {
        if !take_part(kinds, parts[parts.len() - 1 - done]) {
            return false;
        }
    }
    true
}

fn kind_at(variables: &[VarDef], n: u32) -> Option<ValueKind>
    ensures { result ≡ variable_kind (slice_get variables.now n) }
{
    match variables.get(n as usize) {
        None => None,
        Some(variable) => match variable.kind {
            0 => Some(ValueKind::Int),
            1 => Some(ValueKind::Bit),
            _ => None,
        },
    }
}

fn element_kind_at(variables: &[VarDef], n: u32) -> Option<ValueKind>
    ensures { result ≡ element_kind (slice_get variables.now n) }
{
    match variables.get(n as usize) {
        None => None,
        Some(variable) => match variable.kind {
            2 => Some(ValueKind::Int),
            3 => Some(ValueKind::Bit),
            _ => None,
        },
    }
}

// Whether a variable is of a kind.
pub(crate) fn is_of_kind(variables: &[VarDef], kind: u8, n: u32) -> bool
    ensures { result ≡ is_of_kind kind (slice_get variables.now n) }
{
    match variables.get(n as usize) {
        None => false,
        Some(variable) => variable.kind == kind,
    }
}

// Whether the variable of a source is what it has to be.
pub(crate) fn source_is_met(variables: &[VarDef], source: Source) -> bool
    ensures { result ≡ list_all (is_met variables.now) (source_wants source) }
{
    match source {
        Source::Literal(_) | Source::FromInt => true,
        Source::Whole(n) | Source::Range(n) => is_of_kind(variables, 3, n),
    }
}

fn export_is_met(variables: &[VarDef], part: ExportPart) -> bool
    ensures { result ≡ list_all (is_met variables.now) (export_wants part) }
{
    match part {
        ExportPart::Int | ExportPart::Bit => true,
        ExportPart::Array(source) => source_is_met(variables, source),
    }
}

pub(crate) fn dest_is_met(variables: &[VarDef], dest: Dest) -> bool
    ensures { result ≡ is_met variables.now (dest_want dest) }
{
    match dest {
        Dest::Whole(n) | Dest::Range(n) => is_of_kind(variables, 3, n),
    }
}

// Whether the variables of an instruction are what they have to be, where no operand tells.
fn wants_are_met(variables: &[VarDef], instr: &Instr) -> bool
    ensures { result ≡ list_all (is_met variables.now) (wants instr.now) }
{
    match instr {
        Instr::CheckIndex(n) => element_kind_at(variables, *n).is_some(),
        Instr::CheckRange(n) => is_of_kind(variables, 3, *n),
        Instr::ToInt(source) => source_is_met(variables, *source),
        Instr::CopyBits(dest, source) => {
            dest_is_met(variables, *dest) && source_is_met(variables, *source)
        }
        Instr::SetBits(n, _) => is_of_kind(variables, 3, *n),
        Instr::SetInts(n, _) => is_of_kind(variables, 2, *n),
        Instr::For(n, _) | Instr::Next(n) => is_of_kind(variables, 0, *n),
        Instr::Export(_, part) => export_is_met(variables, *part),
        Instr::Scan(scan) => scan_is_met(variables, scan),
        Instr::Pad(_, source) => given_is_met(variables, *source),
        _ => true,
    }
}

fn put(kinds: &mut Stack<ValueKind>, kind: Option<ValueKind>) -> Result<bool, AllocError>
    ensures { IfOk result (λ found. put_on kind kinds.old ≡ (if found then Some kinds.new else None)) }
{
    match kind {
        None => Ok(false),
        Some(kind) => {
            kinds.push(kind)?;
            Ok(true)
        }
    }
}

fn take_some(kinds: &mut Stack<ValueKind>, kind: Option<ValueKind>) -> bool
    ensures { taken_off kind kinds.old ≡ (if result then Some kinds.new else None) }
{
    match kind {
        None => false,
        Some(kind) => take(kinds, kind),
    }
}

// Takes off the kinds of both sides of an operator, and answers whether they were there.
fn take_sides(kinds: &mut Stack<ValueKind>, operator: Option<Operator>) -> bool
    ensures { (variables : List VarDef) →
        all_off variables (sides_of operator) kinds.old ≡ (if result then Some kinds.new else None) }
{
    match operator {
        None => true,
        Some(operator) => take(kinds, operator.sides) && take(kinds, operator.sides),
    }
}

// Takes off the kind of what an operator before a value wants, where there is one, and answers whether it was there.
fn take_signed(kinds: &mut Stack<ValueKind>, kind: Option<ValueKind>) -> bool
    ensures { (variables : List VarDef) →
        all_off variables (slot_of kind) kinds.old ≡ (if result then Some kinds.new else None) }
{
    match kind {
        None => true,
        Some(kind) => take(kinds, kind),
    }
}

// Takes off the kinds of so many integers, and answers whether they were there.
fn take_integers(kinds: &mut Stack<ValueKind>, count: usize) -> bool
    ensures { (variables : List VarDef) →
        all_off variables (replicate count (Of ValueKind.Int)) kinds.old ≡ (if result then Some kinds.new else None) }
{
    for _ in 0..count {
        if !take(kinds, ValueKind::Int) {
            return false;
        }
    }
    true
}

// Takes off the kinds of what is exported, and answers whether they were there.
fn take_export(kinds: &mut Stack<ValueKind>, part: ExportPart) -> bool
    ensures { (variables : List VarDef) →
        all_off variables (export_slots part) kinds.old ≡ (if result then Some kinds.new else None) }
{
    match part {
        ExportPart::Bit => take(kinds, ValueKind::Bit),
        _ => take_integers(kinds, export_takes(part)),
    }
}

// Takes off the kinds of the operands of an instruction, and answers whether they were there. Where nothing else is
// said, they are integers.
fn take_operands(variables: &[VarDef], instr: &Instr, kinds: &mut Stack<ValueKind>) -> bool
    ensures { all_off variables.now (takes instr.now) kinds.old ≡ (if result then Some kinds.new else None) }
{
    match instr {
        Instr::Store(n) => take_some(kinds, kind_at(variables, *n)),
        Instr::StoreAt(n) => {
            take_some(kinds, element_kind_at(variables, *n)) && take(kinds, ValueKind::Int)
        }
        Instr::Unary(op) => take_signed(kinds, unary_kind(*op)),
        Instr::Binary(op) => take_sides(kinds, operator_of(*op)),
        Instr::PushRecord(kind) => take(kinds, *kind),
        Instr::JumpIfZero(_) => take(kinds, ValueKind::Bit),
        Instr::Print(parts) => take_parts(kinds, parts.as_slice()),
        Instr::Export(_, part) => take_export(kinds, *part),
        _ => take_integers(kinds, operands_taken(instr)),
    }
}

// Whether no operand may be left after what an instruction takes.
fn clears(instr: &Instr) -> bool
    ensures { result ≡ clears instr.now }
{
    match instr {
        Instr::Turn(_)
        | Instr::For(_, _)
        | Instr::Next(_)
        | Instr::Call(_)
        | Instr::Jump(_)
        | Instr::JumpIfZero(_)
        | Instr::EndProc
        | Instr::Exit => true,
        _ => false,
    }
}

// Puts on the kind of what an operator makes, where there is one.
fn put_result(kinds: &mut Stack<ValueKind>, operator: Option<Operator>) -> Result<bool, AllocError>
    ensures { IfOk result (λ found. (variables : List VarDef) →
        all_on variables (result_of operator) kinds.old ≡ (if found then Some kinds.new else None)) }
{
    match operator {
        None => Ok(true),
        Some(operator) => {
            kinds.push(operator.result)?;
            Ok(true)
        }
    }
}

// Puts on the kind of what an operator before a value makes, where there is one.
fn put_signed(kinds: &mut Stack<ValueKind>, kind: Option<ValueKind>) -> Result<bool, AllocError>
    ensures { IfOk result (λ found. (variables : List VarDef) →
        all_on variables (slot_of kind) kinds.old ≡ (if found then Some kinds.new else None)) }
{
    match kind {
        None => Ok(true),
        Some(kind) => {
            kinds.push(kind)?;
            Ok(true)
        }
    }
}

// Puts on the kinds of what an instruction gives, and answers whether they are there.
fn put_operands(
    variables: &[VarDef],
    instr: &Instr,
    kinds: &mut Stack<ValueKind>,
) -> Result<bool, AllocError>
    ensures { IfOk result (λ found.
        all_on variables.now (gives instr.now) kinds.old ≡ (if found then Some kinds.new else None)) }
{
    match instr {
        Instr::Push(_) | Instr::CheckIndex(_) | Instr::ToInt(_) | Instr::CheckChar => {
            kinds.push(ValueKind::Int)?;
            Ok(true)
        }
        Instr::PushBit(_) => {
            kinds.push(ValueKind::Bit)?;
            Ok(true)
        }
        Instr::PopRecord(kind) => {
            kinds.push(*kind)?;
            Ok(true)
        }
        Instr::Load(n) => {
            let found = put(kinds, kind_at(variables, *n))?;
            Ok(found)
        }
        Instr::LoadAt(n) => {
            let found = put(kinds, element_kind_at(variables, *n))?;
            Ok(found)
        }
        Instr::CheckRange(_) => {
            kinds.push(ValueKind::Int)?;
            kinds.push(ValueKind::Int)?;
            Ok(true)
        }
        Instr::Unary(op) => {
            let found = put_signed(kinds, unary_kind(*op))?;
            Ok(found)
        }
        Instr::Binary(op) => {
            let found = put_result(kinds, operator_of(*op))?;
            Ok(found)
        }
        Instr::Turn(_)
        | Instr::Store(_)
        | Instr::StoreAt(_)
        | Instr::CopyBits(_, _)
        | Instr::SetBits(_, _)
        | Instr::SetInts(_, _)
        | Instr::For(_, _)
        | Instr::Next(_)
        | Instr::PushRecord(_)
        | Instr::Call(_)
        | Instr::Jump(_)
        | Instr::JumpIfZero(_)
        | Instr::EndProc
        | Instr::Print(_)
        | Instr::Export(_, _)
        | Instr::Exit
        | Instr::Scan(_)
        | Instr::Stop(_, _)
        | Instr::Pad(_, _)
        | Instr::State(_)
        | Instr::Wait(_, _, _)
        | Instr::Frequency(_) => Ok(true),
    }
}

/// Does to the kinds of the operands what an instruction does, and answers whether it found its operands and its
/// variables are what they have to be.
pub fn follow(
    variables: &[VarDef],
    instr: &Instr,
    kinds: &mut Stack<ValueKind>,
) -> Result<bool, AllocError>
    ensures { IfOk result (λ found.
        kinds_after variables.now instr.now kinds.old ≡ (if found then Some kinds.new else None)) }
{
    if !wants_are_met(variables, instr) {
        return Ok(false);
    }
    if !take_operands(variables, instr, kinds) {
        return Ok(false);
    }
    if clears(instr) && kinds.len() != 0 {
        return Ok(false);
    }
    let found = put_operands(variables, instr, kinds)?;
    Ok(found)
}
