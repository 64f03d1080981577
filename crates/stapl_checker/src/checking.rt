//! The check of a whole text.
ghost use Rattle.std.specs.Prelude.{◌≡◌, ◌≤◌, ◌+◌, length, IfOk, IfErr};
ghost use Rattle.stapl_lexer.specs.Pieces.{IsCut, text_limit};
ghost use Rattle.stapl_syntax.specs.Names.{with_numbers, names_of};
ghost use Rattle.stapl_syntax.specs.Programs.{line_of_index};
ghost use Rattle.stapl_syntax.specs.Programs.{IsProgram};
ghost use Rattle.stapl_syntax.specs.ProgramValues.{trees_of};
ghost use Rattle.stapl_checker.specs.Readings.{stmt_trees, IsReading};
ghost use Rattle.stapl_checker.specs.Answers.{IsVerdict, IsCause};

use crate::faults::first_fault;
use crate::reading::{Reading, read_pieces};
use stapl_lexer::{Piece, Reason, TEXT_LIMIT, cut};
use stapl_names::{Names, collect};
use stapl_syntax::{Program, Stmt, line_of_index};
use std::alloc::{AllocError, Global};
use thiserror::Error;

// What a text is that is not too long.
enum Verdict {
    // A program, by its statements.
    Program(Vec<Stmt>),
    // The first fault: the piece, counted from 1, its line, and its reason.
    Fault(u32, u32, Reason),
}

// What a text is whose pieces are read.
fn judge_read(text: &[u8], pieces: &[Piece], names: &Names, reading: Reading) -> Verdict
    requires small { length text.now ≤ text_limit }
    requires cut { IsCut text.now pieces.now }
    requires read { IsReading text.now pieces.now reading }
    requires few { length reading.statements.items ≤ text_limit + 1 }
    requires names { names.now ≡ names_of (with_numbers reading.numbers.items (stmt_trees reading.statements.items)) }
    ensures { IsVerdict text.now result }
{
    match first_fault(names, &reading) {
        Some(fault) => {
            let line = line_of_index(text, pieces, fault.index as usize);
            Verdict::Fault(fault.index + 1, line, fault.reason)
        }
        None => Verdict::Program(reading.statements),
    }
}

// What a text is.
fn judge(alloc: Global, text: &[u8]) -> Result<Verdict, AllocError>
    requires { length text.now ≤ text_limit }
    ensures { IfOk result (IsVerdict text.now) }
{
    let pieces = cut(alloc, text)?;
    let reading = read_pieces(alloc, text, &pieces)?;
    let names = collect(alloc, &reading.numbers, &reading.statements)?;
    let verdict = judge_read(text, &pieces, &names, reading);
    // Dropped by a call, which is cheap to prove for a struct of many tables.
    drop(names);
    Ok(verdict)
}

/// Why a text has no program.
#[derive(Clone, Copy, Debug, PartialEq, Eq, Error)]
pub enum CheckRefused {
    /// The first fault of the text: its piece, counted from 1, its line, counted from 1, and its reason. A text that is
    /// too long has it at piece 0 and line 0.
    #[error("the program is refused at piece {piece}, line {line}: {reason:?}")]
    Refused {
        piece: u32,
        line: u32,
        reason: Reason,
    },
    /// There was no memory for the program.
    #[error("out of memory")]
    Memory,
}

// The program of a text, whose statements these are.
fn program_of(alloc: Global, text: &[u8], statements: Vec<Stmt>) -> Result<Program, CheckRefused>
    requires { IsProgram text.now (stmt_trees statements.items) }
    ensures text { IfOk result (λ program. program.text ≡ text.now) }
    ensures program { IfOk result (λ program. IsProgram text.now (trees_of program)) }
    ensures refused { IfErr result (IsCause text.now) }
{
    let Ok(owned) = Vec::from_slice(alloc, text) else {
        return Err(CheckRefused::Memory);
    };
    Ok(Program::of(owned, statements))
}

/// The program that a text is (JESD71, program structure). The text may be any bytes.
///
/// The error `Refused` is the first fault of the text, as `stapl_syntax` defines it; `Memory` is want of memory. The
/// time is linear in the length of the text, if look-ups by name take constant time, but for one case: in a procedure
/// with a long USES, a name that as many other blocks declare is searched again at each mention.
pub fn check(alloc: Global, text: &[u8]) -> Result<Program, CheckRefused>
    ensures text { IfOk result (λ program. program.text ≡ text.now) }
    ensures program { IfOk result (λ program. IsProgram text.now (trees_of program)) }
    ensures refused { IfErr result (IsCause text.now) }
{
    if text.len() > TEXT_LIMIT {
        return Err(CheckRefused::Refused {
            piece: 0,
            line: 0,
            reason: Reason::TooLong,
        });
    }
    let Ok(verdict) = judge(alloc, text) else {
        return Err(CheckRefused::Memory);
    };
    match verdict {
        Verdict::Program(statements) => program_of(alloc, text, statements),
        Verdict::Fault(piece, line, reason) => Err(CheckRefused::Refused {
            piece,
            line,
            reason,
        }),
    }
}
