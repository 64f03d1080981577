//! The parts of instructions, read from the front of the bytes.
ghost use Rattle.std.specs.Prelude.{◌≡◌};
ghost use Rattle.code_files.specs.Reading.{ReadingGives, any_end};
ghost use Rattle.code_files.specs.ReadInstrs.{register_at, padding_at, kind_at, wait_at, flag_at, state_at, integer_at, part_at, source_at, dest_at, cell_at, export_part_at, given_at, compare_at, scan_parts_at, scan_at};

use crate::fault::Stop;
use crate::reading::{byte_in, number_in, wrong};
use stapl_code::{Cell, Compare, Dest, ExportPart, PrintPart, Scan, Source};
use stapl_lexer::{Padding, Register};
use stapl_meaning::{ValueKind, WaitKind};
use tap_states::Tap;

#[tactic(auto, unfolding(crate::specs::ReadInstrs::tagged))]
pub(crate) fn register_of(bytes: &[u8]) -> Result<(Register, &[u8]), Stop>
    ensures { ReadingGives (λ x. (x.0, x.1.now)) result (register_at bytes.now) }
{
    let (tag, rest) = byte_in(0, 2, bytes)?;
    match tag {
        0 => Ok((Register::Data, rest)),
        1 => Ok((Register::Instruction, rest)),
        _ => Err(wrong(rest)),
    }
}

#[tactic(auto, unfolding(crate::specs::ReadInstrs::tagged))]
pub(crate) fn padding_of(bytes: &[u8]) -> Result<(Padding, &[u8]), Stop>
    ensures { ReadingGives (λ x. (x.0, x.1.now)) result (padding_at bytes.now) }
{
    let (tag, rest) = byte_in(0, 4, bytes)?;
    match tag {
        0 => Ok((Padding::PreData, rest)),
        1 => Ok((Padding::PostData, rest)),
        2 => Ok((Padding::PreInstruction, rest)),
        3 => Ok((Padding::PostInstruction, rest)),
        _ => Err(wrong(rest)),
    }
}

#[tactic(auto, unfolding(crate::specs::ReadInstrs::tagged))]
pub(crate) fn kind_of(bytes: &[u8]) -> Result<(ValueKind, &[u8]), Stop>
    ensures { ReadingGives (λ x. (x.0, x.1.now)) result (kind_at bytes.now) }
{
    let (tag, rest) = byte_in(0, 2, bytes)?;
    match tag {
        0 => Ok((ValueKind::Int, rest)),
        1 => Ok((ValueKind::Bit, rest)),
        _ => Err(wrong(rest)),
    }
}

#[tactic(auto, unfolding(crate::specs::ReadInstrs::tagged))]
pub(crate) fn wait_of(bytes: &[u8]) -> Result<(WaitKind, &[u8]), Stop>
    ensures { ReadingGives (λ x. (x.0, x.1.now)) result (wait_at bytes.now) }
{
    let (tag, rest) = byte_in(1, 4, bytes)?;
    match tag {
        1 => Ok((WaitKind::Cycles, rest)),
        2 => Ok((WaitKind::Usec, rest)),
        3 => Ok((WaitKind::Both, rest)),
        _ => Err(wrong(rest)),
    }
}

#[tactic(auto, unfolding(crate::specs::ReadInstrs::tagged))]
pub(crate) fn flag_of(bytes: &[u8]) -> Result<(bool, &[u8]), Stop>
    ensures { ReadingGives (λ x. (x.0, x.1.now)) result (flag_at bytes.now) }
{
    let (tag, rest) = byte_in(0, 2, bytes)?;
    match tag {
        0 => Ok((false, rest)),
        1 => Ok((true, rest)),
        _ => Err(wrong(rest)),
    }
}

#[tactic(auto, unfolding(crate::specs::ReadInstrs::tagged))]
pub(crate) fn state_of(bytes: &[u8]) -> Result<(Tap, &[u8]), Stop>
    ensures { ReadingGives (λ x. (x.0, x.1.now)) result (state_at bytes.now) }
{
    let (tag, rest) = byte_in(0, 16, bytes)?;
    match tag {
        0 => Ok((Tap::Reset, rest)),
        1 => Ok((Tap::Idle, rest)),
        2 => Ok((Tap::DrSelect, rest)),
        3 => Ok((Tap::DrCapture, rest)),
        4 => Ok((Tap::DrShift, rest)),
        5 => Ok((Tap::DrExit1, rest)),
        6 => Ok((Tap::DrPause, rest)),
        7 => Ok((Tap::DrExit2, rest)),
        8 => Ok((Tap::DrUpdate, rest)),
        9 => Ok((Tap::IrSelect, rest)),
        10 => Ok((Tap::IrCapture, rest)),
        11 => Ok((Tap::IrShift, rest)),
        12 => Ok((Tap::IrExit1, rest)),
        13 => Ok((Tap::IrPause, rest)),
        14 => Ok((Tap::IrExit2, rest)),
        15 => Ok((Tap::IrUpdate, rest)),
        _ => Err(wrong(rest)),
    }
}

#[tactic(auto, unfolding(crate::specs::ReadInstrs::tagged))]
pub(crate) fn part_of(texts: usize, bytes: &[u8]) -> Result<(PrintPart, &[u8]), Stop>
    ensures { ReadingGives (λ x. (x.0, x.1.now)) result (part_at texts bytes.now) }
{
    let (tag, rest) = byte_in(0, 4, bytes)?;
    match tag {
        0 => {
            let (n, rest) = number_in(0, texts, rest)?;
            Ok((PrintPart::Text(n), rest))
        }
        1 => Ok((PrintPart::Int, rest)),
        2 => Ok((PrintPart::Bit, rest)),
        3 => Ok((PrintPart::Char, rest)),
        _ => Err(wrong(rest)),
    }
}

#[tactic(auto, unfolding(crate::specs::ReadInstrs::tagged))]
pub(crate) fn source_of(
    variables: usize,
    literals: usize,
    bytes: &[u8],
) -> Result<(Source, &[u8]), Stop>
    ensures { ReadingGives (λ x. (x.0, x.1.now)) result (source_at variables literals bytes.now) }
{
    let (tag, rest) = byte_in(0, 4, bytes)?;
    match tag {
        0 => {
            let (n, rest) = number_in(0, literals, rest)?;
            Ok((Source::Literal(n), rest))
        }
        1 => {
            let (n, rest) = number_in(0, variables, rest)?;
            Ok((Source::Whole(n), rest))
        }
        2 => {
            let (n, rest) = number_in(0, variables, rest)?;
            Ok((Source::Range(n), rest))
        }
        3 => Ok((Source::FromInt, rest)),
        _ => Err(wrong(rest)),
    }
}

#[tactic(auto, unfolding(crate::specs::ReadInstrs::tagged))]
pub(crate) fn dest_of(variables: usize, bytes: &[u8]) -> Result<(Dest, &[u8]), Stop>
    ensures { ReadingGives (λ x. (x.0, x.1.now)) result (dest_at variables bytes.now) }
{
    let (tag, rest) = byte_in(1, 3, bytes)?;
    let (n, rest) = number_in(0, variables, rest)?;
    match tag {
        1 => Ok((Dest::Whole(n), rest)),
        2 => Ok((Dest::Range(n), rest)),
        _ => Err(wrong(rest)),
    }
}

#[tactic(auto, unfolding(crate::specs::ReadInstrs::tagged))]
pub(crate) fn cell_of(variables: usize, bytes: &[u8]) -> Result<(Cell, &[u8]), Stop>
    ensures { ReadingGives (λ x. (x.0, x.1.now)) result (cell_at variables bytes.now) }
{
    let (tag, rest) = byte_in(0, 2, bytes)?;
    let (n, rest) = number_in(0, variables, rest)?;
    match tag {
        0 => Ok((Cell::Scalar(n), rest)),
        1 => Ok((Cell::Element(n), rest)),
        _ => Err(wrong(rest)),
    }
}

#[tactic(auto, unfolding(crate::specs::ReadInstrs::tagged))]
pub(crate) fn export_part_of(
    variables: usize,
    literals: usize,
    bytes: &[u8],
) -> Result<(ExportPart, &[u8]), Stop>
    ensures { ReadingGives (λ x. (x.0, x.1.now)) result (export_part_at variables literals bytes.now) }
{
    let (tag, rest) = byte_in(0, 3, bytes)?;
    match tag {
        0 => Ok((ExportPart::Int, rest)),
        1 => Ok((ExportPart::Bit, rest)),
        2 => {
            let (source, rest) = source_of(variables, literals, rest)?;
            Ok((ExportPart::Array(source), rest))
        }
        _ => Err(wrong(rest)),
    }
}

#[tactic(auto, unfolding(crate::specs::ReadInstrs::tagged))]
pub(crate) fn given_source_of(
    variables: usize,
    literals: usize,
    bytes: &[u8],
) -> Result<(Option<Source>, &[u8]), Stop>
    ensures { ReadingGives (λ x. (x.0, x.1.now)) result (given_at (source_at variables literals) bytes.now) }
{
    let (tag, rest) = byte_in(0, 2, bytes)?;
    match tag {
        0 => Ok((None, rest)),
        1 => {
            let (source, rest) = source_of(variables, literals, rest)?;
            Ok((Some(source), rest))
        }
        _ => Err(wrong(rest)),
    }
}

pub(crate) fn compare_of(
    variables: usize,
    literals: usize,
    bytes: &[u8],
) -> Result<(Compare, &[u8]), Stop>
    ensures { ReadingGives (λ x. (x.0, x.1.now)) result (compare_at variables literals bytes.now) }
{
    let (expected, rest) = source_of(variables, literals, bytes)?;
    let (mask, rest) = source_of(variables, literals, rest)?;
    let (cell, rest) = cell_of(variables, rest)?;
    Ok((
        Compare {
            expected,
            mask,
            cell,
        },
        rest,
    ))
}

fn scan_with(
    register: Register,
    source: Source,
    target: Option<Dest>,
    compare: Option<Compare>,
) -> Scan
    ensures { result ≡ record { register = register; source = source; target = target; compare = compare } }
{
    Scan {
        register,
        source,
        target,
        compare,
    }
}

// The parts of a scan, of this source through this register.
#[tactic(auto, unfolding(crate::specs::ReadInstrs::tagged))]
fn scan_parts_of(
    variables: usize,
    literals: usize,
    register: Register,
    source: Source,
    bytes: &[u8],
) -> Result<(Scan, &[u8]), Stop>
    ensures { ReadingGives (λ x. (x.0, x.1.now)) result (scan_parts_at variables literals register source bytes.now) }
{
    let (tag, rest) = byte_in(0, 4, bytes)?;
    match tag {
        0 => Ok((scan_with(register, source, None, None), rest)),
        1 => {
            let (target, rest) = dest_of(variables, rest)?;
            Ok((scan_with(register, source, Some(target), None), rest))
        }
        2 => {
            let (compare, rest) = compare_of(variables, literals, rest)?;
            Ok((scan_with(register, source, None, Some(compare)), rest))
        }
        3 => {
            let (target, rest) = dest_of(variables, rest)?;
            let (compare, rest) = compare_of(variables, literals, rest)?;
            Ok((
                scan_with(register, source, Some(target), Some(compare)),
                rest,
            ))
        }
        _ => Err(wrong(rest)),
    }
}

pub(crate) fn scan_of(
    variables: usize,
    literals: usize,
    bytes: &[u8],
) -> Result<(Scan, &[u8]), Stop>
    ensures { ReadingGives (λ x. (x.0, x.1.now)) result (scan_at variables literals bytes.now) }
{
    let (register, rest) = register_of(bytes)?;
    let (source, rest) = source_of(variables, literals, rest)?;
    scan_parts_of(variables, literals, register, source, rest)
}

pub(crate) fn integer_of(bytes: &[u8]) -> Result<(i32, &[u8]), Stop>
    ensures { ReadingGives (λ x. (x.0, x.1.now)) result (integer_at bytes.now) }
{
    let (n, rest) = number_in(0, 1 << 32, bytes)?;
    Ok((n.cast_signed(), rest))
}
