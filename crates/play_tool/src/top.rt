//! The top call.
ghost use Rattle.std.specs.Prelude.{◌≡◌, map, string_bytes};
ghost use Rattle.tool_frame.specs.Answers.{WroteFront};
ghost use Rattle.chain_sim.specs.Rack.{IsRack};
ghost use Rattle.play_words.specs.Statuses.{IsFault};
ghost use Rattle.play_tool.specs.Answers.{WordsAnswer};
ghost use Rattle.play_tool.specs.FinalRacks.{AskForPlay};
ghost use Rattle.play_tool.specs.ReadContents.{NamesFiles, OfWords, IsReachedBy, Answered};
ghost use Rattle.play_tool.specs.TopCalls.{HasFailedRead, HasFailedWrite, KeepsOutside, KeepsDevices};

use crate::Player;
use dev_card::Device;
use play_words::Status;
use stapl_meaning::laws::programs_are_typed;
use std::alloc::Global;
use tool_frame::{NoAnswer, run};
use tool_io::{Shelf, Sink};

/// Does what the words ask, as `Player`. What the tool says goes to the sink.
pub fn run_tool<S: Shelf, K: Sink>(
    alloc: Global,
    words: &[String],
    shelf: &mut S,
    rack: &mut Vec<Box<dyn Device>>,
    out: &mut K,
) -> Status
    requires { IsRack (map kind_of rack.old.items) }

    // Every status but those of faults and of want of memory is the answer's to the words and the contents of their
    // files, as they were read in this call; its text is written and nothing else, and the rack holds what the play
    // leaves. With a store that tells its files the contents are what it holds.
    ensures answer { (IsFault result → ⊥) → OfWords (S.told shelf.old) (map string_bytes words.now) (λ contents.
        Answered (WordsAnswer (map string_bytes words.now) (λ request. contents)) (map string_bytes words.now) contents
        (K.written out.old) (K.written out.new) result (map fitted rack.new.items)) }

    // A read fault comes only where the count of a file that the words name rose, of the program only if no told board
    // is refused, and then nothing is written.
    ensures read { result ≡ Status.ReadFault → HasFailedRead S.Shelf K.Sink
        (IsReachedBy (S.told shelf.old) (map string_bytes words.now)) shelf.old shelf.new out.old out.new }

    // A write fault comes only where the sink's count rose, and then a prefix of the text is written.
    ensures write { result ≡ Status.WriteFault → HasFailedWrite K.Sink out.old out.new
        (OfWords (S.told shelf.old) (map string_bytes words.now) (λ contents.
        WroteFront (WordsAnswer (map string_bytes words.now) (λ request. contents))
        (K.written out.old) (K.written out.new))) }

    // After want of memory nothing is written.
    ensures memory { result ≡ Status.Memory → K.written out.new ≡ K.written out.old }

    // Whatever is answered, only files that the words name are opened, each at most once, and the board first. The
    // files stay, and no count falls.
    ensures kept { KeepsOutside S.Shelf K.Sink (NamesFiles (map string_bytes words.now))
        shelf.old shelf.new out.old out.new }

    // The rack stays as it was, if the cause of the status comes before the board is fitted, and if no play is asked
    // for. In any case each of its devices keeps its kind.
    ensures rack { KeepsDevices kind_of (AskForPlay (map string_bytes words.now)) result
        rack.old.items rack.new.items }
{
    programs_are_typed();
    match run(&Player, alloc, words, shelf, rack, out) {
        Ok(status) => status,
        Err(NoAnswer::Read) => Status::ReadFault,
        Err(NoAnswer::Write) => Status::WriteFault,
        Err(NoAnswer::Memory) => Status::Memory,
    }
}
