//! What is answered for the board in a file.
ghost use Rattle.std.specs.Prelude.{◌≡◌, Some};
ghost use Rattle.tool_io.specs.Lines.{IsWhole, IsSilent, HasPut};
ghost use Rattle.tool_frame.specs.Answers.{Says};
ghost use Rattle.tool_frame.specs.Files.{OfFile, NamesThis, KeepsShelf};
ghost use Rattle.counting_tests.specs.Answers.{count_line, HeldAnswer};

use crate::CountStatus;
use dev_card::Desc;
use named_files::{BoardNotRead, board_named, put_board_refusal};
use std::alloc::Global;
use tool_frame::NoAnswer;
use tool_io::{Failed, Lines, Shelf, Sink, put_number_line};

// Puts how many devices a board has.
fn put_devices<K: Sink>(lines: &mut Lines<K>, devices: &[Desc]) -> Result<(), Failed>
    requires { IsWhole lines.old }
    ensures { HasPut K.Sink lines.old (count_line devices.now) lines.new result }
{
    put_number_line(lines, b"devices ", devices.len() as i64)
}

/// Counts the devices of the board in a file, or says why it is refused.
pub(crate) fn answer_file<S: Shelf, K: Sink>(
    alloc: Global,
    path: &str,
    shelf: &mut S,
    lines: &mut Lines<K>,
) -> Result<CountStatus, NoAnswer>
    requires { IsWhole lines.old }
    ensures says { OfFile (S.told shelf.old) (Some path.now) (λ held.
        Says K.Sink (HeldAnswer held) (IsSilent lines.old lines.new) lines.old lines.new result) }
    ensures shelf { KeepsShelf S.Shelf (NamesThis path.now) (λ read. read ≡ path.now) shelf.old shelf.new result }
{
    match board_named(alloc, shelf, path) {
        Ok(devices) => {
            put_devices(lines, &devices)?;
            Ok(CountStatus::Counted)
        }
        Err(BoardNotRead::At { line, reason }) => {
            put_board_refusal(lines, line, reason)?;
            Ok(CountStatus::Refused(line, reason))
        }
        Err(BoardNotRead::Read) => Err(NoAnswer::Read),
        Err(BoardNotRead::Memory) => Err(NoAnswer::Memory),
    }
}
