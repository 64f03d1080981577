//! Programs in files.
ghost use Rattle.std.specs.Prelude.{◌≡◌, ℕ, IfOk, IsErrOf, Err};
ghost use Rattle.tool_io.specs.Causes.{HasRisenAt, NoneFalls};
ghost use Rattle.tool_io.specs.Files.{HasPicked};
ghost use Rattle.stapl_lexer.specs.declared.reason.Reason.{Reason};
ghost use Rattle.stapl_syntax.specs.Programs.{IsProgram, FirstFault};
ghost use Rattle.stapl_syntax.specs.ProgramValues.{trees_of};
ghost use Rattle.program_files.specs.declared.programs.ProgramNotRead.TheVariants as refusals;
ghost use Rattle.program_files.specs.ProgramFiles.{IsProgramOf, ReadsText, ReadsProgramFault};

use stapl_checker::{CheckRefused, check};
use stapl_lexer::{Reason, TEXT_LIMIT};
use stapl_syntax::Program;
use std::alloc::Global;
use thiserror::Error;
use tool_io::{ReadRefused, Shelf, read_whole};

/// Why there is no program.
#[derive(Clone, Copy, Debug, PartialEq, Eq, Error)]
pub enum ProgramNotRead {
    /// The first fault of the text: its piece, counted from 1, its line, counted from 1, and its reason. A text that is
    /// too long has it at piece 0 and line 0.
    #[error("the program is refused at piece {piece}, line {line}: {reason:?}")]
    Refused {
        piece: u32,
        line: u32,
        reason: Reason,
    },
    /// The file could not be read.
    #[error("the program could not be read")]
    Read,
    /// There was no memory.
    #[error("out of memory")]
    Memory,
}

// The program with these bytes. It answers no `Read`.
fn program_of(alloc: Global, bytes: &[u8]) -> Result<Program, ProgramNotRead>
    ensures program { IfOk result (IsProgramOf bytes.now) }
    ensures fault { (piece line : ℕ) (reason : Reason) → result ≡ Err (refusals.Refused piece line reason) →
        FirstFault bytes.now piece line reason }
    ensures no_read { IsErrOf result ProgramNotRead.Read → ⊥ }
{
    match check(alloc, bytes) {
        Ok(program) => Ok(program),
        Err(
            CheckRefused::Refused {
                piece,
                line,
                reason,
            },
        ) => Err(ProgramNotRead::Refused {
            piece,
            line,
            reason,
        }),
        Err(CheckRefused::Memory) => Err(ProgramNotRead::Memory),
    }
}

/// The program in the file of this name (JESD71, program structure).
///
/// `Refused` is the first fault of the bytes in the file. `Read` comes only if the count of the file rose, or stands at
/// its last value; `Memory` is want of memory.
pub fn program_named<S: Shelf>(
    alloc: Global,
    shelf: &mut S,
    path: &str,
) -> Result<Program, ProgramNotRead>
    ensures text { IfOk result (λ program. ReadsText (S.told shelf.old) path.now program.text) }
    ensures program { IfOk result (λ program. IsProgram program.text (trees_of program)) }
    ensures fault { (piece line : ℕ) (reason : Reason) → result ≡ Err (refusals.Refused piece line reason) →
        ReadsProgramFault (S.told shelf.old) path.now piece line reason }
    ensures read { IsErrOf result ProgramNotRead.Read → HasRisenAt S.faults S.is_last path.now shelf.old shelf.new }
    ensures once { HasPicked (S.picks shelf.old) path.now (S.picks shelf.new) result }
    ensures keeps { S.told shelf.new ≡ S.told shelf.old }
    ensures later { NoneFalls S.faults S.is_last shelf.old shelf.new }
{
    match read_whole(alloc, shelf, path, TEXT_LIMIT as u32) {
        Ok(bytes) => program_of(alloc, &bytes),
        Err(ReadRefused::TooLong) => Err(ProgramNotRead::Refused {
            piece: 0,
            line: 0,
            reason: Reason::TooLong,
        }),
        Err(ReadRefused::ReadFault) => Err(ProgramNotRead::Read),
        Err(ReadRefused::Memory) => Err(ProgramNotRead::Memory),
    }
}
