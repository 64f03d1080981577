//! Instructions of a code file.
ghost use Rattle.std.specs.Int.{w32};
ghost use Rattle.std.specs.Int.RustNames.{FitsSigned};
ghost use Rattle.std.specs.Prelude.{◌≡◌, ◌<◌, ◌^◌, ◌∷◌, [], ◌++◌, length, All, OnOk};
ghost use Rattle.stapl_code.specs.Fields.{number, integer, counted};
ghost use Rattle.stapl_code.specs.Instrs.{source, dest, cell, part, export_part, register_number, padding_number, kind_number, wait_number, flag_number, if_given, given, compare, scan_flags, scan, padding, state, instr, IsCountableInstr, FitsInstr};

use crate::fields::{put_byte, put_bytes, put_count, put_integer, put_marked, put_number};
use stapl_code::{Cell, Compare, Dest, ExportPart, Instr, PrintPart, Scan, Source};
use stapl_lexer::{Padding, Register};
use stapl_meaning::{ValueKind, WaitKind};
use std::alloc::AllocError;
use tap_states::Tap;

fn put_source(out: &mut Vec<u8>, bits: Source) -> Result<(), AllocError>
    ensures { OnOk result (out.new.items ≡ out.old.items ++ source bits) }
{
    match bits {
        Source::Literal(n) => put_marked(out, 0, n),
        Source::Whole(n) => put_marked(out, 1, n),
        Source::Range(n) => put_marked(out, 2, n),
        Source::FromInt => put_byte(out, 3),
    }
}

fn put_dest(out: &mut Vec<u8>, target: Dest) -> Result<(), AllocError>
    ensures { OnOk result (out.new.items ≡ out.old.items ++ dest target) }
{
    match target {
        Dest::Whole(n) => put_marked(out, 1, n),
        Dest::Range(n) => put_marked(out, 2, n),
    }
}

fn put_cell(out: &mut Vec<u8>, target: Cell) -> Result<(), AllocError>
    ensures { OnOk result (out.new.items ≡ out.old.items ++ cell target) }
{
    match target {
        Cell::Scalar(n) => put_marked(out, 0, n),
        Cell::Element(n) => put_marked(out, 1, n),
    }
}

fn put_part(out: &mut Vec<u8>, printed: PrintPart) -> Result<(), AllocError>
    ensures { OnOk result (out.new.items ≡ out.old.items ++ part printed) }
{
    match printed {
        PrintPart::Text(n) => put_marked(out, 0, n),
        PrintPart::Int => put_byte(out, 1),
        PrintPart::Bit => put_byte(out, 2),
        PrintPart::Char => put_byte(out, 3),
    }
}

fn put_export_part(out: &mut Vec<u8>, exported: ExportPart) -> Result<(), AllocError>
    ensures { OnOk result (out.new.items ≡ out.old.items ++ export_part exported) }
{
    match exported {
        ExportPart::Int => put_byte(out, 0),
        ExportPart::Bit => put_byte(out, 1),
        ExportPart::Array(bits) => {
            put_byte(out, 2)?;
            put_source(out, bits)
        }
    }
}

fn register_number(register: Register) -> u8
    ensures { result ≡ register_number register }
{
    match register {
        Register::Data => 0,
        Register::Instruction => 1,
    }
}

fn padding_number(which: Padding) -> u8
    ensures { result ≡ padding_number which }
{
    match which {
        Padding::PreData => 0,
        Padding::PostData => 1,
        Padding::PreInstruction => 2,
        Padding::PostInstruction => 3,
    }
}

fn kind_number(kind: ValueKind) -> u8
    ensures { result ≡ kind_number kind }
{
    match kind {
        ValueKind::Int => 0,
        ValueKind::Bit => 1,
    }
}

fn wait_number(counts: WaitKind) -> u8
    ensures { result ≡ wait_number counts }
{
    match counts {
        WaitKind::Cycles => 1,
        WaitKind::Usec => 2,
        WaitKind::Both => 3,
    }
}

fn flag_number(stated: bool) -> u8
    ensures { result ≡ flag_number stated }
{
    if stated { 1 } else { 0 }
}

fn scan_flags(scan: &Scan) -> u8
    ensures { result ≡ scan_flags scan.now }
{
    match (scan.target, scan.compare) {
        (None, None) => 0,
        (Some(_), None) => 1,
        (None, Some(_)) => 2,
        (Some(_), Some(_)) => 3,
    }
}

fn put_given_dest(out: &mut Vec<u8>, target: Option<Dest>) -> Result<(), AllocError>
    ensures { OnOk result (out.new.items ≡ out.old.items ++ given dest target) }
{
    match target {
        None => Ok(()),
        Some(target) => put_dest(out, target),
    }
}

fn put_compare(out: &mut Vec<u8>, compared: Compare) -> Result<(), AllocError>
    ensures { OnOk result (out.new.items ≡ out.old.items ++ compare compared) }
{
    put_source(out, compared.expected)?;
    put_source(out, compared.mask)?;
    put_cell(out, compared.cell)
}

fn put_given_compare(out: &mut Vec<u8>, compared: Option<Compare>) -> Result<(), AllocError>
    ensures { OnOk result (out.new.items ≡ out.old.items ++ given compare compared) }
{
    match compared {
        None => Ok(()),
        Some(compared) => put_compare(out, compared),
    }
}

fn put_scan(out: &mut Vec<u8>, bits: &Scan) -> Result<(), AllocError>
    ensures { OnOk result (out.new.items ≡ out.old.items ++ 28 ∷ scan bits.now) }
{
    put_bytes(out, &[28, register_number(bits.register)])?;
    put_source(out, bits.source)?;
    put_byte(out, scan_flags(bits))?;
    put_given_dest(out, bits.target)?;
    put_given_compare(out, bits.compare)
}

fn put_padding(out: &mut Vec<u8>, which: Padding, bits: Option<Source>) -> Result<(), AllocError>
    ensures { OnOk result (out.new.items ≡ out.old.items ++ 30 ∷ padding which bits) }
{
    match bits {
        None => put_bytes(out, &[30, padding_number(which), 0]),
        Some(bits) => {
            put_bytes(out, &[30, padding_number(which), 1])?;
            put_source(out, bits)
        }
    }
}

fn put_integers(out: &mut Vec<u8>, values: &[i32]) -> Result<(), AllocError>
    requires { length values.now < 2 ^ 32 }
    ensures put { OnOk result (out.new.items ≡ out.old.items ++ counted integer values.now) }
    ensures fits { OnOk result (All (FitsSigned w32) values.now) }
{
    put_count(out, values.len())?;
    for value in values {
        put_integer(out, *value)?;
    }
    Ok(())
}

fn put_parts(out: &mut Vec<u8>, parts: &[PrintPart]) -> Result<(), AllocError>
    requires { length parts.now < 2 ^ 32 }
    ensures { OnOk result (out.new.items ≡ out.old.items ++ counted part parts.now) }
{
    put_count(out, parts.len())?;
    for part in parts {
        put_part(out, *part)?;
    }
    Ok(())
}

fn put_states(out: &mut Vec<u8>, states: &[Tap]) -> Result<(), AllocError>
    requires { length states.now < 2 ^ 32 }
    ensures { OnOk result (out.new.items ≡ out.old.items ++ counted state states.now) }
{
    put_count(out, states.len())?;
    for state in states {
        put_byte(out, state.number())?;
    }
    Ok(())
}

fn put_push(out: &mut Vec<u8>, value: i32) -> Result<(), AllocError>
    ensures put { OnOk result (out.new.items ≡ out.old.items ++ 2 ∷ integer value) }
    ensures fits { OnOk result (FitsSigned w32 value) }
{
    put_byte(out, 2)?;
    put_integer(out, value)
}

fn put_to_int(out: &mut Vec<u8>, bits: Source) -> Result<(), AllocError>
    ensures { OnOk result (out.new.items ≡ out.old.items ++ 12 ∷ source bits) }
{
    put_byte(out, 12)?;
    put_source(out, bits)
}

fn put_copy(out: &mut Vec<u8>, target: Dest, bits: Source) -> Result<(), AllocError>
    ensures { OnOk result (out.new.items ≡ out.old.items ++ 13 ∷ dest target ++ source bits) }
{
    put_byte(out, 13)?;
    put_dest(out, target)?;
    put_source(out, bits)
}

// An instruction with two numbers.
fn put_pair(out: &mut Vec<u8>, mark: u8, first: u32, second: u32) -> Result<(), AllocError>
    ensures put { OnOk result (out.new.items ≡ out.old.items ++ mark ∷ number first ++ number second) }
    ensures fits { (first < 2 ^ 32) × (second < 2 ^ 32) }
{
    put_marked(out, mark, first)?;
    put_number(out, second)
}

fn put_array(out: &mut Vec<u8>, variable: u32, values: &[i32]) -> Result<(), AllocError>
    requires { length values.now < 2 ^ 32 }
    ensures put { OnOk result (out.new.items
        ≡ out.old.items ++ 15 ∷ number variable ++ counted integer values.now) }
    ensures fits { OnOk result (All (FitsSigned w32) values.now) }
{
    put_marked(out, 15, variable)?;
    put_integers(out, values)
}

fn put_print(out: &mut Vec<u8>, parts: &[PrintPart]) -> Result<(), AllocError>
    requires { length parts.now < 2 ^ 32 }
    ensures { OnOk result (out.new.items ≡ out.old.items ++ 24 ∷ counted part parts.now) }
{
    put_byte(out, 24)?;
    put_parts(out, parts)
}

fn put_export(out: &mut Vec<u8>, key: u32, exported: ExportPart) -> Result<(), AllocError>
    ensures { OnOk result (out.new.items ≡ out.old.items ++ 26 ∷ number key ++ export_part exported) }
{
    put_marked(out, 26, key)?;
    put_export_part(out, exported)
}

fn put_state(out: &mut Vec<u8>, states: &[Tap]) -> Result<(), AllocError>
    requires { length states.now < 2 ^ 32 }
    ensures { OnOk result (out.new.items ≡ out.old.items ++ 31 ∷ counted state states.now) }
{
    put_byte(out, 31)?;
    put_states(out, states)
}

/// An instruction.
pub(crate) fn put_instr(out: &mut Vec<u8>, written: &Instr) -> Result<(), AllocError>
    requires { IsCountableInstr written.now }
    ensures put { OnOk result (out.new.items ≡ out.old.items ++ instr written.now) }
    ensures fits { OnOk result (FitsInstr written.now) }
{
    match written {
        Instr::Turn(piece) => put_marked(out, 1, *piece),
        Instr::Push(value) => put_push(out, *value),
        Instr::PushBit(bit) => put_bytes(out, &[3, *bit]),
        Instr::Load(n) => put_marked(out, 4, *n),
        Instr::LoadAt(n) => put_marked(out, 5, *n),
        Instr::CheckIndex(n) => put_marked(out, 6, *n),
        Instr::CheckRange(n) => put_marked(out, 7, *n),
        Instr::Store(n) => put_marked(out, 8, *n),
        Instr::StoreAt(n) => put_marked(out, 9, *n),
        Instr::Unary(op) => put_bytes(out, &[10, *op]),
        Instr::Binary(op) => put_bytes(out, &[11, *op]),
        Instr::ToInt(source) => put_to_int(out, *source),
        Instr::CopyBits(dest, source) => put_copy(out, *dest, *source),
        Instr::SetBits(n, literal) => put_pair(out, 14, *n, *literal),
        Instr::SetInts(n, values) => put_array(out, *n, values.as_slice()),
        Instr::Jump(to) => put_marked(out, 16, *to),
        Instr::JumpIfZero(to) => put_marked(out, 17, *to),
        Instr::For(n, body) => put_pair(out, 18, *n, *body),
        Instr::Next(n) => put_marked(out, 19, *n),
        Instr::PushRecord(kind) => put_bytes(out, &[20, kind_number(*kind)]),
        Instr::PopRecord(kind) => put_bytes(out, &[21, kind_number(*kind)]),
        Instr::Call(procedure) => put_marked(out, 22, *procedure),
        Instr::EndProc => put_byte(out, 23),
        Instr::Print(parts) => put_print(out, parts.as_slice()),
        Instr::CheckChar => put_byte(out, 25),
        Instr::Export(key, part) => put_export(out, *key, *part),
        Instr::Exit => put_byte(out, 27),
        Instr::Scan(scan) => put_scan(out, scan),
        Instr::Stop(register, state) => {
            put_bytes(out, &[29, register_number(*register), state.number()])
        }
        Instr::Pad(which, source) => put_padding(out, *which, *source),
        Instr::State(states) => put_state(out, states.as_slice()),
        Instr::Wait(state, counts, last) => {
            put_bytes(
                out,
                &[32, state.number(), wait_number(*counts), last.number()],
            )
        }
        Instr::Frequency(stated) => put_bytes(out, &[33, flag_number(*stated)]),
    }
}
