// A whole file.
ghost use Rattle.std.specs.Prelude.{◌≡◌, ◌+◌, ◌<◌, ◌≤◌, length, Some, IfSome, IfOk, IsErrOf, IsSomeAnd};
ghost use Rattle.tool_io.specs.Causes.{HasRisenAt, NoneFalls};
ghost use Rattle.tool_io.specs.Files.{file_of, HasPicked};

use crate::Shelf;
use crate::block::BLOCK;
use std::alloc::{AllocError, Global};
use thiserror::Error;

/// Why a file was not read whole.
#[derive(Clone, Copy, Debug, PartialEq, Eq, Error)]
pub enum ReadRefused {
    /// The file has more bytes than the limit.
    #[error("the file is too long")]
    TooLong,
    /// The shelf failed, at the pick or at a read of this file.
    #[error("the file could not be read")]
    ReadFault,
    /// Memory for the bytes was wanting.
    #[error("out of memory")]
    Memory,
}

/// All bytes of the file of a name, at most `limit` of them. It reads at most `limit + 1` bytes of the file.
///
/// `TooLong` exactly where the file, if the shelf tells it, has more than `limit` bytes. `ReadFault` only where the
/// shelf's count of this name rose, or stands at its last value. `Memory` may come at any time.
pub fn read_whole<S: Shelf>(
    alloc: Global,
    shelf: &mut S,
    name: &str,
    limit: u32,
) -> Result<Vec<u8>, ReadRefused>
    ensures whole { IfOk result (λ v. IfSome (S.told shelf.old) (λ files. file_of files name.now ≡ Some v.items)) }
    ensures short { IfOk result (λ v. length v.items ≤ limit) }
    ensures long { IsErrOf result ReadRefused.TooLong → IfSome (S.told shelf.old) (λ files.
        IsSomeAnd (file_of files name.now) (λ bytes. limit < length bytes)) }
    ensures fault { IsErrOf result ReadRefused.ReadFault → HasRisenAt S.faults S.is_last name.now shelf.old shelf.new }
    ensures bounded { (IsErrOf result ReadRefused.ReadFault → ⊥) → IfSome (S.told shelf.old) (λ files.
        IsSomeAnd (file_of files name.now) (λ bytes. length bytes ≤ length (S.left shelf.new) + (limit + 1))) }
    ensures once { HasPicked (S.picks shelf.old) name.now (S.picks shelf.new) result }
    ensures keeps { S.told shelf.new ≡ S.told shelf.old }
    ensures later { NoneFalls S.faults S.is_last shelf.old shelf.new }
{
    if shelf.pick(name).is_err() {
        return Err(ReadRefused::ReadFault);
    }
    let most = limit as usize;
    let mut whole = Vec::new(alloc);
    let mut block = [0u8; BLOCK];
    'turns: while whole.len() <= most {
        let room = (most + 1 - whole.len()).min(BLOCK);
        match shelf.read(&mut block[..room]) {
            Ok(0) => return Ok(whole),
            Ok(n) => {
                if whole.extend_from_slice(&block[..n as usize]).is_err() {
                    return Err(ReadRefused::Memory);
                }
            }
            Err(_) => return Err(ReadRefused::ReadFault),
        }
    }
    Err(ReadRefused::TooLong)
}
