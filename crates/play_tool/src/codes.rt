//! Codes in files.
ghost use Rattle.std.specs.Prelude.{◌≡◌, ℕ, IfOk, IsErrOf, Err};
ghost use Rattle.tool_io.specs.Causes.{HasRisenAt, NoneFalls};
ghost use Rattle.tool_io.specs.Files.{HasPicked};
ghost use Rattle.stapl_code.specs.declared.reason.CodeReason.{CodeReason};
ghost use Rattle.play_tool.specs.declared.codes.CodeNotRead.TheVariants as refusals;
ghost use Rattle.play_tool.specs.CodesInFiles.{ReadsCode, ReadsCodeFault};

use code_files::{DecodeRefused, decode_code};
use stapl_code::{CodeReason, FILE_LIMIT};
use std::alloc::Global;
use tool_io::{ReadRefused, Shelf, read_whole};
use valid_codes::Code;

/// Why there is no code.
#[derive(Clone, Copy)]
pub enum CodeNotRead {
    /// The first fault of the bytes: its offset, and its reason.
    At { offset: u32, reason: CodeReason },
    /// The file could not be read.
    Read,
    /// There was no memory.
    Memory,
}

/// The code in the file of this name.
///
/// `At` is the first fault of the bytes in the file. `Read` comes only if the count of the file rose, or stands at its
/// last value; `Memory` is want of memory.
pub fn code_named<S: Shelf>(alloc: Global, shelf: &mut S, path: &str) -> Result<Code, CodeNotRead>
    ensures code { IfOk result (ReadsCode (S.told shelf.old) path.now) }
    ensures fault { (offset : ℕ) (reason : CodeReason) → result ≡ Err (refusals.At offset reason) →
        ReadsCodeFault (S.told shelf.old) path.now offset reason }
    ensures read { IsErrOf result CodeNotRead.Read → HasRisenAt S.faults S.is_last path.now shelf.old shelf.new }
    ensures once { HasPicked (S.picks shelf.old) path.now (S.picks shelf.new) result }
    ensures keeps { S.told shelf.new ≡ S.told shelf.old }
    ensures later { NoneFalls S.faults S.is_last shelf.old shelf.new }
{
    match read_whole(alloc, shelf, path, FILE_LIMIT as u32) {
        Ok(bytes) => match decode_code(alloc, &bytes) {
            Ok(code) => Ok(code),
            Err(DecodeRefused::At { offset, reason }) => Err(CodeNotRead::At { offset, reason }),
            Err(DecodeRefused::Memory) => Err(CodeNotRead::Memory),
        },
        Err(ReadRefused::TooLong) => Err(CodeNotRead::At {
            offset: FILE_LIMIT as u32,
            reason: CodeReason::TooLong,
        }),
        Err(ReadRefused::ReadFault) => Err(CodeNotRead::Read),
        Err(ReadRefused::Memory) => Err(CodeNotRead::Memory),
    }
}
