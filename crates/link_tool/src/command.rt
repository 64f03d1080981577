//! What a command of the link does.
ghost use Rattle.std.specs.Prelude.{◌≡◌, ℕ, List, None, Some, map, string_bytes};
ghost use Rattle.chain_sim.specs.Rack.{IsRack};
ghost use Rattle.link_tool.specs.Commands.{asked_text, ShowsText, Serves};

use crate::{HELP, LinkStatus, VERSION, run_link};
use dev_card::Device;
use std::alloc::Global;
use tool_frame::{text_asked, write_text};
use tool_io::{Shelf, Sink};

/// Writes the text that the words ask for, or answers the bytes of a link by `run_link`.
pub fn run_command<S: Shelf, K: Sink>(
    alloc: Global,
    words: &[String],
    shelf: &mut S,
    rack: &mut Vec<Box<dyn Device>>,
    out: &mut K,
) -> LinkStatus
    requires { IsRack (map kind_of rack.old.items) }
    ensures shown { (text : List ℕ) → asked_text (map string_bytes words.now) ≡ Some text →
        ShowsText K.Sink text shelf.old shelf.new out.old out.new rack.old.items rack.new.items result }
    ensures served { asked_text (map string_bytes words.now) ≡ None → Serves S.Shelf K.Sink kind_of fitted
        (map string_bytes words.now) shelf.old shelf.new out.old out.new rack.old.items rack.new.items result }
{
    match text_asked(words, HELP, VERSION) {
        Some(text) => match write_text(out, text) {
            Ok(()) => LinkStatus::Done,
            Err(_) => LinkStatus::WriteFault,
        },
        None => run_link(alloc, words, shelf, rack, out),
    }
}
