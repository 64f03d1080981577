//! The code of a file.
ghost use Rattle.std.specs.Prelude.{◌≡◌, ◌-◌, ◌<◌, ◌≤◌, [], Some, Ok, length, drop, IfOk, IfErr};
ghost use Rattle.std.specs.List.{flat_map};
ghost use Rattle.stapl_code.specs.declared.raw.CodeLists.{CodeLists};
ghost use Rattle.stapl_code.specs.Instrs.{instr};
ghost use Rattle.stapl_code.specs.Files.{file, most_bytes, IsCountable, HasFile};
ghost use Rattle.stapl_code.specs.Valid.{first_break};
ghost use Rattle.code_files.specs.ReadFiles.{code_at};
ghost use Rattle.code_files.specs.CodeFaults.{IsFileOf, NamesFault};

use crate::encoding::put_instrs;
use crate::fault::Stop;
use crate::read_code::code_of;
use stapl_code::{CodeLists, CodeReason, FILE_LIMIT, RawCode};
use std::alloc::{AllocError, Global};
use thiserror::Error;
use valid_codes::{Code, ValidateRefused, validate};

/// Why bytes are no file of a code.
#[derive(Clone, Copy, Debug, Error)]
pub enum DecodeRefused {
    /// The first fault: the offset of its first byte, and what is wrong there. If the bytes end inside a field, it is
    /// their number; if there are too many bytes, the most that a file has.
    #[error("the code is refused at byte {offset}: {reason:?}")]
    At { offset: u32, reason: CodeReason },
    /// There was no memory for the code.
    #[error("out of memory")]
    Memory,
}

// The offset from which so many bytes stand to the end.
fn offset_of(bytes: &[u8], left: usize) -> u32
    requires { length bytes.now ≤ most_bytes }
    ensures { result ≡ length bytes.now - left }
{
    bytes.len().saturating_sub(left) as u32
}

// The refusal of bytes with a fault.
fn faulty(bytes: &[u8], left: usize, reason: CodeReason) -> DecodeRefused
    requires { length bytes.now ≤ most_bytes }
    ensures { result ≡ DecodeRefused.At (length bytes.now - left) reason }
{
    DecodeRefused::At {
        offset: offset_of(bytes, left),
        reason,
    }
}

// The lists of the code whose file these bytes are, whether or not it is valid.
fn whole_code(alloc: Global, bytes: &[u8]) -> Result<CodeLists, DecodeRefused>
    requires { length bytes.now ≤ most_bytes }
    ensures read { IfOk result (λ lists. code_at bytes.now ≡ Ok (lists, [])) }
    ensures file { IfOk result (λ lists. bytes.now ≡ file lists) }
    ensures has { IfOk result HasFile }
    ensures refused { IfErr result (NamesFault bytes.now) }
{
    match code_of(alloc, bytes) {
        Err(Stop::Memory) => Err(DecodeRefused::Memory),
        Err(Stop::At(fault)) => Err(faulty(bytes, fault.left, fault.reason)),
        Ok((lists, rest)) => {
            if rest.is_empty() {
                Ok(lists)
            } else {
                // Dropped by a call, which is cheap to prove for a struct of many lists.
                drop(lists);
                Err(faulty(bytes, rest.len(), CodeReason::Extra))
            }
        }
    }
}

// How many bytes the instructions from number i on have.
fn bytes_from(alloc: Global, lists: &CodeLists, i: usize) -> Result<usize, AllocError>
    requires { IsCountable lists.now }
    ensures { IfOk result (λ left. left ≡ length (flat_map instr (drop i lists.now.instrs))) }
{
    let instrs = lists.instrs.as_slice();
    if instrs.len() <= i {
        return Ok(0);
    }
    let mut out = Vec::new(alloc);
    put_instrs(&mut out, &instrs[i..])?;
    Ok(out.len() - 4)
}

// The refusal of a code whose instruction number i breaks a rule. The check took its lists, so they are read again.
fn invalid_at(alloc: Global, bytes: &[u8], i: usize) -> DecodeRefused
    requires { length bytes.now ≤ most_bytes }
    ensures { (code : CodeLists) → code_at bytes.now ≡ Ok (code, []) → first_break code ≡ Some i →
        NamesFault bytes.now result }
{
    match whole_code(alloc, bytes) {
        Err(refused) => refused,
        Ok(lists) => {
            let counted = bytes_from(alloc, &lists, i);
            // Dropped by a call, as above.
            drop(lists);
            match counted {
                Err(_) => DecodeRefused::Memory,
                Ok(left) => faulty(bytes, left, CodeReason::Invalid),
            }
        }
    }
}

/// The valid code whose file these bytes are.
///
/// `At` names exactly the first fault. That there are too many bytes is told without reading them; otherwise the first
/// field that is cut or outside its range is the fault, then bytes after the last field, then the first instruction
/// that breaks a rule. `Memory` comes only for want of memory.
pub fn decode_code(alloc: Global, bytes: &[u8]) -> Result<Code, DecodeRefused>
    ensures file { IfOk result (IsFileOf bytes.now) }
    ensures refused { IfErr result (NamesFault bytes.now) }
{
    if bytes.len() > FILE_LIMIT {
        return Err(DecodeRefused::At {
            offset: FILE_LIMIT as u32,
            reason: CodeReason::TooLong,
        });
    }
    let lists = whole_code(alloc, bytes)?;
    match validate(alloc, RawCode::of(lists)) {
        Ok(code) => Ok(code),
        Err(ValidateRefused::Invalid(i)) => Err(invalid_at(alloc, bytes, i)),
        Err(ValidateRefused::Memory) => Err(DecodeRefused::Memory),
    }
}
