//! The answer to `--why` and the words of a command.
ghost use Rattle.std.specs.Prelude.{◌≡◌, map, string_bytes, IsErrOf};
ghost use Rattle.tool_io.specs.Lines.{IsWhole};
ghost use Rattle.tool_frame.specs.Answers.{Says, HasWritten};
ghost use Rattle.tool_frame.specs.Files.{OfFiles};
ghost use Rattle.tool_frame.specs.Frame.{KeepsCount};
ghost use Rattle.chain_sim.specs.Rack.{IsRack};
ghost use Rattle.play_tool.specs.Answers.{RequestAnswer};
ghost use Rattle.play_tool.specs.ReadContents.{AreFilesOf, IsReached, IsReachedBy, NamesFiles, OfWords};
ghost use Rattle.why_tool.specs.Whys.{Explains, IsUnread, Reads, known_of, KeepsFiles, KeepsKinds, CommandTold, WhyAnswer};

use crate::files::{tell_play, tell_work_on};
use crate::soaking::tell_soak;
use crate::words::{asks_otherwise, tell_words};
use dev_card::Device;
use play_tool::{Source, Work};
use play_words::{Request, Status, WordsRefused, read_words};
use std::alloc::Global;
use tool_frame::NoAnswer;
use tool_io::{Lines, Shelf, Sink};
use tool_questions::refuse;

// Says what a request comes to.
fn tell_request<S: Shelf, K: Sink>(
    alloc: Global,
    request: &Request,
    shelf: &mut S,
    rack: &mut Vec<Box<dyn Device>>,
    lines: &mut Lines<K>,
) -> Result<Status, NoAnswer>
    requires rack { IsRack (map kind_of rack.old.items) }
    requires whole { IsWhole lines.old }
    ensures says { OfFiles (AreFilesOf request.now) (S.told shelf.old) (λ contents. Says K.Sink
        (Reads (IsUnread S.Shelf (IsReached (S.told shelf.old) request.now) shelf.old shelf.new)
        (Explains (RequestAnswer request.now contents) (known_of request.now contents))) ⊥ lines.old lines.new result) }
    ensures files { KeepsFiles S.Shelf (AreFilesOf request.now) shelf.old shelf.new }
    ensures kinds { map kind_of rack.new.items ≡ map kind_of rack.old.items }
{
    match request {
        Request::Play(play) => tell_play(alloc, Source::Program, play, shelf, rack, lines),
        Request::Run(play) => tell_play(alloc, Source::Code, play, shelf, rack, lines),
        Request::Check(path) => tell_work_on(alloc, Work::Check, path.as_str(), shelf, lines),
        Request::List(path) => tell_work_on(alloc, Work::List, path.as_str(), shelf, lines),
        Request::Compile(path) => tell_work_on(alloc, Work::Compile, path.as_str(), shelf, lines),
        Request::Soak(seed) => tell_soak(alloc, *seed, rack, lines),
    }
}

// Says what the command of these words comes to.
fn tell_command<S: Shelf, K: Sink>(
    alloc: Global,
    words: &[String],
    shelf: &mut S,
    rack: &mut Vec<Box<dyn Device>>,
    lines: &mut Lines<K>,
) -> Result<Status, NoAnswer>
    requires rack { IsRack (map kind_of rack.old.items) }
    requires whole { IsWhole lines.old }
    ensures says { OfWords (S.told shelf.old) (map string_bytes words.now) (λ contents. Says K.Sink
        (CommandTold (IsUnread S.Shelf (IsReachedBy (S.told shelf.old) (map string_bytes words.now)) shelf.old shelf.new)
        (map string_bytes words.now) contents) ⊥ lines.old lines.new result) }
    ensures files { KeepsFiles S.Shelf (NamesFiles (map string_bytes words.now)) shelf.old shelf.new }
    ensures kinds { map kind_of rack.new.items ≡ map kind_of rack.old.items }
{
    match read_words(alloc, words) {
        Ok(request) => tell_request(alloc, &request, shelf, rack, lines),
        Err(WordsRefused::Usage(n)) => tell_words(words, n, lines),
        Err(WordsRefused::Memory) => Err(NoAnswer::Memory),
    }
}

// Says why the command of these words does not do what was asked, and what to do; or that it does it.
fn why<S: Shelf, K: Sink>(
    alloc: Global,
    words: &[String],
    shelf: &mut S,
    rack: &mut Vec<Box<dyn Device>>,
    lines: &mut Lines<K>,
) -> Result<Status, NoAnswer>
    requires rack { IsRack (map kind_of rack.old.items) }
    requires whole { IsWhole lines.old }
    ensures says { OfWords (S.told shelf.old) (map string_bytes words.now) (λ contents. Says K.Sink
        (WhyAnswer (IsUnread S.Shelf (IsReachedBy (S.told shelf.old) (map string_bytes words.now)) shelf.old shelf.new)
        (map string_bytes words.now) contents) ⊥ lines.old lines.new result) }
    ensures files { KeepsFiles S.Shelf (NamesFiles (map string_bytes words.now)) shelf.old shelf.new }
    ensures rack { KeepsKinds kind_of rack.old.items rack.new.items result }
{
    if asks_otherwise(words) {
        return refuse(2, lines);
    }
    tell_command(alloc, words, shelf, rack, lines)
}

/// Writes why the command of these words does not do what was asked, and what to do; or that it does it. A play is played
/// with the devices of the rack, and its lines go nowhere. Words that are a question, or ask for a text, are refused.
///
/// `Write` as of the sink, and then a prefix of the text is written; `Memory` is want of memory, and then nothing is. It
/// is never `Read`: that a file cannot be read is an answer. Such a file is one that the command reads, and the count of
/// its name rose, or stands at its last value.
pub fn run_why<S: Shelf, K: Sink>(
    alloc: Global,
    words: &[String],
    shelf: &mut S,
    rack: &mut Vec<Box<dyn Device>>,
    out: &mut K,
) -> Result<Status, NoAnswer>
    requires { IsRack (map kind_of rack.old.items) }
    ensures ran { OfWords (S.told shelf.old) (map string_bytes words.now) (λ contents. HasWritten
        (WhyAnswer (IsUnread S.Shelf (IsReachedBy (S.told shelf.old) (map string_bytes words.now)) shelf.old shelf.new)
        (map string_bytes words.now) contents) (K.written out.old) (K.written out.new) result) }
    ensures no_read { IsErrOf result NoAnswer.Read → ⊥ }
    ensures sink { KeepsCount K.Sink out.old out.new result }
    ensures files { KeepsFiles S.Shelf (NamesFiles (map string_bytes words.now)) shelf.old shelf.new }
    ensures rack { KeepsKinds kind_of rack.old.items rack.new.items result }
{
    let mut lines = Lines::new(out);
    let status = why(alloc, words, shelf, rack, &mut lines)?;
    lines.finish()?;
    Ok(status)
}
