//! What a command of the program does.
ghost use Rattle.std.specs.Prelude.{◌≡◌, ℕ, List, None, Some, map, string_bytes};
ghost use Rattle.drive_tool.specs.Answers.{outside};
ghost use Rattle.drive_tool.specs.Commands.{asked_text, ShowsText, DoesAsAsked};

use crate::{DriveStatus, HELP, VERSION, run_drive};
use drive_cable::Peer;
use std::alloc::Global;
use tool_frame::{text_asked, write_text};
use tool_io::{Shelf, Sink};

/// Writes the text that the words ask for, or plays over the wire by `run_drive`.
pub fn run_command<S: Shelf, P: Peer, K: Sink>(
    alloc: Global,
    words: &[String],
    shelf: &mut S,
    peer: &mut P,
    out: &mut K,
) -> DriveStatus
    ensures shown { (text : List ℕ) → asked_text (map string_bytes words.now) ≡ Some text →
        ShowsText K.Sink text shelf.old shelf.new (outside peer.old out.old) (outside peer.new out.new) result }
    ensures driven { asked_text (map string_bytes words.now) ≡ None → DoesAsAsked S.Shelf P.Peer K.Sink
        (map string_bytes words.now) shelf.old shelf.new (outside peer.old out.old) (outside peer.new out.new) result }
{
    match text_asked(words, HELP, VERSION) {
        Some(text) => match write_text(out, text) {
            Ok(()) => DriveStatus::Done(0),
            Err(_) => DriveStatus::WriteFault,
        },
        None => run_drive(alloc, words, shelf, peer, out),
    }
}
