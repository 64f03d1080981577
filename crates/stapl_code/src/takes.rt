//! How many operands an instruction takes.
ghost use Rattle.std.specs.Prelude.{◌≡◌, ◌≤◌, ◌+◌, ◌∷◌, List, length};
ghost use Rattle.stapl_code.specs.Machine.{Slot, part_slots, source_slots, dest_slots, given_slots, target_slots, cell_slots, compare_slots, scan_slots, export_slots, wait_slots, takes};

use crate::instr::{Cell, Compare, Dest, ExportPart, Instr, PrintPart, Scan, Source};
use crate::operators::{operator_of, unary_kind};
use stapl_meaning::WaitKind;

// How many operands a source takes.
fn source_takes(source: Source) -> usize
    ensures count { result ≡ length (source_slots source) }
    ensures small { result ≤ 2 }
{
    match source {
        Source::Literal(_) | Source::Whole(_) => 0,
        Source::Range(_) => 2,
        Source::FromInt => 1,
    }
}

// How many operands a destination takes in front of those.
fn dest_takes(dest: Dest) -> usize
    ensures count { (slots : List Slot) → length (dest_slots dest slots) ≡ result + length slots }
    ensures small { result ≤ 2 }
{
    match dest {
        Dest::Whole(_) => 0,
        Dest::Range(_) => 2,
    }
}

// How many operands a source takes that may be left out.
fn given_takes(source: Option<Source>) -> usize
    ensures count { result ≡ length (given_slots source) }
    ensures small { result ≤ 2 }
{
    match source {
        None => 0,
        Some(source) => source_takes(source),
    }
}

// How many operands the target of a scan takes.
fn target_takes(target: Option<Dest>) -> usize
    ensures count { result ≡ length (target_slots target) }
    ensures small { result ≤ 2 }
{
    match target {
        None => 0,
        Some(dest) => dest_takes(dest),
    }
}

// How many operands a comparison takes.
fn cell_takes(cell: Cell) -> usize
    ensures count { result ≡ length (cell_slots cell) }
    ensures small { result ≤ 1 }
{
    match cell {
        Cell::Scalar(_) => 0,
        Cell::Element(_) => 1,
    }
}

fn compare_takes(compare: Option<Compare>) -> usize
    ensures count { result ≡ length (compare_slots compare) }
    ensures small { result ≤ 5 }
{
    match compare {
        None => 0,
        Some(compare) => {
            source_takes(compare.expected) + (source_takes(compare.mask) + cell_takes(compare.cell))
        }
    }
}

// How many operands a Scan takes after its length.
fn scan_takes(scan: &Scan) -> usize
    ensures count { result ≡ length (scan_slots scan.now) }
    ensures small { result ≤ 9 }
{
    source_takes(scan.source) + (target_takes(scan.target) + compare_takes(scan.compare))
}

// How many operands a Wait takes.
fn wait_takes(kind: WaitKind) -> usize
    ensures { result ≡ length (wait_slots kind) }
{
    match kind {
        WaitKind::Cycles | WaitKind::Usec => 1,
        WaitKind::Both => 2,
    }
}

/// How many operands an Export takes.
pub fn export_takes(part: ExportPart) -> usize
    ensures { result ≡ length (export_slots part) }
{
    match part {
        ExportPart::Int | ExportPart::Bit => 1,
        ExportPart::Array(source) => source_takes(source),
    }
}

// How many operands a part of a Print takes.
fn part_takes(part: PrintPart) -> usize
    ensures number { (rest : List PrintPart) → length (part_slots (part ∷ rest)) ≡ result + length (part_slots rest) }
    ensures small { result ≤ 1 }
{
    match part {
        PrintPart::Text(_) => 0,
        PrintPart::Int | PrintPart::Bit | PrintPart::Char => 1,
    }
}

// How many operands the parts of a Print take.
fn parts_take(parts: &[PrintPart]) -> usize
    ensures { result ≡ length (part_slots parts.now) }
{
    let mut n = 0;
    for part in parts {
        n += part_takes(*part);
    }
    n
}

/// How many operands an instruction takes.
pub fn operands_taken(instr: &Instr) -> usize
    ensures { result ≡ length (takes instr.now) }
{
    match instr {
        Instr::Turn(_)
        | Instr::Push(_)
        | Instr::PushBit(_)
        | Instr::Load(_)
        | Instr::SetBits(_, _)
        | Instr::SetInts(_, _)
        | Instr::Next(_)
        | Instr::PopRecord(_)
        | Instr::Call(_)
        | Instr::Jump(_)
        | Instr::EndProc
        | Instr::Stop(_, _)
        | Instr::State(_) => 0,
        Instr::Scan(scan) => 1 + scan_takes(scan),
        Instr::Pad(_, source) => 1 + given_takes(*source),
        Instr::Wait(_, kind, _) => wait_takes(*kind),
        Instr::Frequency(stated) => usize::from(*stated),
        Instr::LoadAt(_)
        | Instr::CheckIndex(_)
        | Instr::Store(_)
        | Instr::PushRecord(_)
        | Instr::JumpIfZero(_)
        | Instr::CheckChar
        | Instr::Exit => 1,
        Instr::CheckRange(_) | Instr::StoreAt(_) => 2,
        Instr::For(_, _) => 3,
        Instr::ToInt(source) => source_takes(*source),
        Instr::CopyBits(dest, source) => dest_takes(*dest) + source_takes(*source),
        Instr::Unary(number) => match unary_kind(*number) {
            Some(_) => 1,
            None => 0,
        },
        Instr::Binary(number) => match operator_of(*number) {
            Some(_) => 2,
            None => 0,
        },
        Instr::Print(list) => parts_take(list.as_slice()),
        Instr::Export(_, part) => export_takes(*part),
    }
}
