//! Boards in files.
ghost use Rattle.std.specs.Prelude.{◌≡◌, ℕ, IfOk, IsErrOf, Err};
ghost use Rattle.tool_io.specs.Causes.{HasRisenAt, NoneFalls};
ghost use Rattle.tool_io.specs.Files.{HasPicked};
ghost use Rattle.board_text.specs.declared.reason.BoardReason.{BoardReason};
ghost use Rattle.board_text.specs.Boards.{IsBoard, IsFirstFault, CanBeFitted};
ghost use Rattle.named_files.specs.declared.boards.BoardNotRead.TheVariants as refusals;
ghost use Rattle.named_files.specs.Boards.{ReadsBoard, ReadsBoardFault};

use board_text::{BoardReason, BoardTextRefused, MOST_BYTES, read_board};
use dev_card::Desc;
use std::alloc::Global;
use thiserror::Error;
use tool_io::{ReadRefused, Shelf, read_whole};

/// Why there is no board.
#[derive(Clone, Copy, Debug, PartialEq, Eq, Error)]
pub enum BoardNotRead {
    /// The first faulty line, counted from 1, or 0 where the text is too long, and the smallest of its reasons.
    #[error("line {line} of the board is refused: {reason:?}")]
    At { line: u32, reason: BoardReason },
    /// The file could not be read.
    #[error("the board could not be read")]
    Read,
    /// There was no memory.
    #[error("out of memory")]
    Memory,
}

/// The devices of a board with these bytes. It answers no `Read`.
pub fn board_of(alloc: Global, bytes: &[u8]) -> Result<Vec<Desc>, BoardNotRead>
    ensures board { IfOk result (λ devices. IsBoard bytes.now devices.items) }
    ensures fitting { IfOk result (λ devices. CanBeFitted devices.items) }
    ensures fault { (line : ℕ) (reason : BoardReason) → result ≡ Err (refusals.At line reason) →
        IsFirstFault bytes.now line reason }
    ensures no_read { IsErrOf result BoardNotRead.Read → ⊥ }
{
    match read_board(alloc, bytes) {
        Ok(devices) => Ok(devices),
        Err(BoardTextRefused::At { line, reason }) => Err(BoardNotRead::At { line, reason }),
        Err(BoardTextRefused::Memory) => Err(BoardNotRead::Memory),
    }
}

/// The devices of the board in the file at this path, in the order of its lines: the first is nearest TDO.
///
/// `At` is the first fault of the bytes in the file. `Read` comes only if the count of the file rose, or stands at its
/// last value; `Memory` is want of memory.
pub fn board_named<S: Shelf>(
    alloc: Global,
    shelf: &mut S,
    path: &str,
) -> Result<Vec<Desc>, BoardNotRead>
    ensures board { IfOk result (λ devices. ReadsBoard (S.told shelf.old) path.now devices.items) }
    ensures fitting { IfOk result (λ devices. CanBeFitted devices.items) }
    ensures fault { (line : ℕ) (reason : BoardReason) → result ≡ Err (refusals.At line reason) →
        ReadsBoardFault (S.told shelf.old) path.now line reason }
    ensures read { IsErrOf result BoardNotRead.Read → HasRisenAt S.faults S.is_last path.now shelf.old shelf.new }
    ensures once { HasPicked (S.picks shelf.old) path.now (S.picks shelf.new) result }
    ensures keeps { S.told shelf.new ≡ S.told shelf.old }
    ensures later { NoneFalls S.faults S.is_last shelf.old shelf.new }
{
    match read_whole(alloc, shelf, path, MOST_BYTES as u32) {
        Ok(bytes) => board_of(alloc, &bytes),
        Err(ReadRefused::TooLong) => Err(BoardNotRead::At {
            line: 0,
            reason: BoardReason::TooLong,
        }),
        Err(ReadRefused::ReadFault) => Err(BoardNotRead::Read),
        Err(ReadRefused::Memory) => Err(BoardNotRead::Memory),
    }
}
