//! The top call.
ghost use Rattle.std.specs.Prelude.{◌≡◌, Some, map, string_bytes};
ghost use Rattle.tool_io.specs.Causes.{HasRisen, NeverFalls, NoneFalls};
ghost use Rattle.tool_frame.specs.Answers.{WroteFront};
ghost use Rattle.tool_frame.specs.Frame.{KeepsCount};
ghost use Rattle.board_text.specs.Boards.{CanBeFitted};
ghost use Rattle.chain_sim.specs.Rack.{IsRack};
ghost use Rattle.tool_frame.specs.Files.{OfFile, NamesThis, PicksNamed, HasReadCause, KeepsShelf};
ghost use Rattle.named_files.specs.Words.{IsRequest};
ghost use Rattle.named_files.specs.Named.{files_named};
ghost use Rattle.named_files.specs.Contents.{OfContents, AreFilesOf, NamesBoth, OfWords, IsReached, IsReachedBy};
ghost use Rattle.link_tool.specs.Statuses.{IsFault, ComesBeforeFitting};
ghost use Rattle.link_tool.specs.Answers.{link_key, FileAnswer, RequestAnswer, WordsAnswer};
ghost use Rattle.link_tool.specs.Answers.{FileDue, RequestDue, WordsDue};
ghost use Rattle.link_tool.specs.FinalRacks.{HeldLeft, RequestHoldsLeft, WordsHoldLeft};
ghost use Rattle.link_tool.specs.Written.{WroteDue, Answers, Answered};

use crate::LinkStatus;
use crate::serving::serve_to;
use chain_sim::fit_board;
use dev_card::{Desc, Device};
use named_files::{BoardNotRead, Named, board_named, read_words};
use std::alloc::Global;
use tool_frame::NoAnswer;
use tool_io::{Shelf, Sink};

// Answers the bytes of a link in a file, over a board of these devices. It is fitted into the rack before the file is
// picked.
fn answer_file<S: Shelf, K: Sink>(
    alloc: Global,
    devices: &[Desc],
    path: &str,
    shelf: &mut S,
    rack: &mut Vec<Box<dyn Device>>,
    out: &mut K,
) -> Result<LinkStatus, NoAnswer>
    requires devices { CanBeFitted devices.now }
    requires rack { IsRack (map kind_of rack.old.items) }
    ensures answers { OfFile (S.told shelf.old) (Some path.now) (λ held. Answers kind_of fitted
        (FileAnswer devices.now held) (FileDue S.Shelf shelf.new devices.now held) (HeldLeft devices.now held)
        (K.written out.old) (K.written out.new) rack.old.items rack.new.items result) }
    ensures shelf { KeepsShelf S.Shelf (NamesThis path.now) (λ read. read ≡ path.now) shelf.old shelf.new result }
    ensures output { KeepsCount K.Sink out.old out.new result }
{
    let places = fit_board(alloc, rack, devices)?;
    match shelf.pick(path) {
        Ok(()) => serve_to(shelf, rack, &places, out),
        Err(_) => Err(NoAnswer::Read),
    }
}

// Answers a request: its board, and then the bytes of its link.
fn answer_request<S: Shelf, K: Sink>(
    alloc: Global,
    named: Named,
    shelf: &mut S,
    rack: &mut Vec<Box<dyn Device>>,
    out: &mut K,
) -> Result<LinkStatus, NoAnswer>
    requires { IsRack (map kind_of rack.old.items) }
    ensures answers { OfContents (S.told shelf.old) (files_named named.entry) (λ contents. Answers kind_of fitted
        (RequestAnswer contents) (RequestDue S.Shelf shelf.old shelf.new (files_named named.entry) contents)
        (RequestHoldsLeft contents)
        (K.written out.old) (K.written out.new) rack.old.items rack.new.items result) }
    ensures shelf { KeepsShelf S.Shelf (AreFilesOf (files_named named.entry))
        (IsReached (S.told shelf.old) (files_named named.entry)) shelf.old shelf.new result }
    ensures output { KeepsCount K.Sink out.old out.new result }
{
    match board_named(alloc, shelf, named.board) {
        Ok(devices) => answer_file(alloc, &devices, named.file, shelf, rack, out),
        Err(BoardNotRead::At { line, reason }) => Ok(LinkStatus::BoardRefused(line, reason)),
        Err(BoardNotRead::Read) => Err(NoAnswer::Read),
        Err(BoardNotRead::Memory) => Err(NoAnswer::Memory),
    }
}

// Does what the words ask.
fn run<S: Shelf, K: Sink>(
    alloc: Global,
    words: &[String],
    shelf: &mut S,
    rack: &mut Vec<Box<dyn Device>>,
    out: &mut K,
) -> Result<LinkStatus, NoAnswer>
    requires { IsRack (map kind_of rack.old.items) }
    ensures answers { OfWords link_key (S.told shelf.old) (map string_bytes words.now) (λ contents. Answers
        kind_of fitted (WordsAnswer (map string_bytes words.now) (λ named. contents))
        (WordsDue S.Shelf shelf.old shelf.new (map string_bytes words.now) contents)
        (WordsHoldLeft (map string_bytes words.now) contents)
        (K.written out.old) (K.written out.new) rack.old.items rack.new.items result) }
    ensures shelf { KeepsShelf S.Shelf (NamesBoth (IsRequest link_key (map string_bytes words.now)))
        (IsReachedBy link_key (S.told shelf.old) (map string_bytes words.now)) shelf.old shelf.new result }
    ensures output { KeepsCount K.Sink out.old out.new result }
{
    match read_words(words, "link=") {
        Ok(named) => answer_request(alloc, named, shelf, rack, out),
        Err(n) => Ok(LinkStatus::Usage(n)),
    }
}

/// Answers the bytes of a link (the protocol remote bitbang) with those of a board: the words are `board=PATH` and
/// `link=PATH`, in this order. The answers go to the sink, and nothing else does.
///
/// It reads the board first. If the board is right, it is fitted into the rack, its devices in order, and the bytes of
/// the link are taken against them, from power-up and TCK low on, until the session ends. They are read in pieces of at
/// most 4,096 bytes, and what is answered to a piece is written and flushed before the next piece is read. The devices
/// are then as the session leaves them.
///
/// All memory is taken before the first byte is written. It does not grow with the session.
pub fn run_link<S: Shelf, K: Sink>(
    alloc: Global,
    words: &[String],
    shelf: &mut S,
    rack: &mut Vec<Box<dyn Device>>,
    out: &mut K,
) -> LinkStatus
    requires { IsRack (map kind_of rack.old.items) }

    // Every status but those of faults and of want of memory is the answer's to the words and the contents of their
    // files, as they were read in this call; its text is written and nothing else, and after a session the rack holds
    // the board as the session leaves it. With a store that tells its files the contents are what it holds.
    ensures answer { (IsFault result → ⊥) → OfWords link_key (S.told shelf.old) (map string_bytes words.now)
        (λ contents. Answered (map string_bytes words.now) contents (K.written out.old) (K.written out.new)
        result (map fitted rack.new.items)) }

    // A read fault comes only where the count of a file that the words name rose, of the bytes of the link only if no
    // told board is refused. Then the answers to exactly the bytes that were read are written, and nothing else. With a
    // store that tells its files those are all bytes of the file but what it has left.
    ensures read { result ≡ LinkStatus.ReadFault → HasReadCause S.Shelf
        (IsReachedBy link_key (S.told shelf.old) (map string_bytes words.now)) shelf.old shelf.new }
    ensures due { result ≡ LinkStatus.ReadFault →
        OfWords link_key (S.told shelf.old) (map string_bytes words.now) (λ contents.
        WroteDue (WordsDue S.Shelf shelf.old shelf.new (map string_bytes words.now) contents)
        (K.written out.old) (K.written out.new)) }

    // A write fault comes only where the sink's count rose, and then a prefix of the text is written.
    ensures write { result ≡ LinkStatus.WriteFault → HasRisen K.faults K.is_last out.old out.new }
    ensures front { result ≡ LinkStatus.WriteFault →
        OfWords link_key (S.told shelf.old) (map string_bytes words.now) (λ contents.
        WroteFront (WordsAnswer (map string_bytes words.now) (λ named. contents))
        (K.written out.old) (K.written out.new)) }

    // After want of memory nothing is written.
    ensures memory { result ≡ LinkStatus.Memory → K.written out.new ≡ K.written out.old }

    // Whatever is answered, only files that the words name are opened, each at most once, and the board first. The
    // files stay, and no count falls.
    ensures once { PicksNamed (NamesBoth (IsRequest link_key (map string_bytes words.now)))
        (S.picks shelf.old) (S.picks shelf.new) }
    ensures keeps { S.told shelf.new ≡ S.told shelf.old }
    ensures later { NoneFalls S.faults S.is_last shelf.old shelf.new }
    ensures out_later { NeverFalls K.faults K.is_last out.old out.new }

    // The rack stays as it was, if the cause of the status comes before the board is fitted. In any case each of its
    // devices keeps its kind.
    ensures before { ComesBeforeFitting result → rack.new.items ≡ rack.old.items }
    ensures kinds { map kind_of rack.new.items ≡ map kind_of rack.old.items }
{
    match run(alloc, words, shelf, rack, out) {
        Ok(status) => status,
        Err(NoAnswer::Read) => LinkStatus::ReadFault,
        Err(NoAnswer::Write) => LinkStatus::WriteFault,
        Err(NoAnswer::Memory) => LinkStatus::Memory,
    }
}
