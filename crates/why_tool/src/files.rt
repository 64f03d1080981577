//! What is said of the files of a command: that one cannot be read, or what the command comes to of their bytes.
ghost use Rattle.std.specs.Prelude.{◌≡◌, ℕ, List, Some, map};
ghost use Rattle.tool_io.specs.Lines.{IsWhole};
ghost use Rattle.tool_frame.specs.Answers.{Says};
ghost use Rattle.tool_frame.specs.Files.{OfFile, OfFiles, NamesThis, first_of, second_of};
ghost use Rattle.board_text.specs.Boards.{IsBoard, CanBeFitted};
ghost use Rattle.chain_sim.specs.Rack.{IsRack};
ghost use Rattle.play_tool.specs.declared.sources.Source.TheVariants as sources;
ghost use Rattle.play_tool.specs.Answers.{SourceAnswer, HeldAnswer, PlayAnswer, WorkAnswer};
ghost use Rattle.play_tool.specs.ReadContents.{ArePlayFiles, IsPlayFile};
ghost use Rattle.why_tool.specs.Told.{known_alone};
ghost use Rattle.why_tool.specs.Whys.{Explains, IsPlayed, IsUnread, IsUnreadTold, Reads, known_at, KeepsFiles};

use crate::texts::{tell_code_fault, tell_code_file, tell_text, tell_work};
use crate::told::{Front, tell};
use board_text::MOST_BYTES;
use code_plays::Task;
use dev_card::Device;
use named_files::{BoardNotRead, board_of};
use play_tool::{Source, Work};
use play_words::{FilePlay, Status};
use stapl_code::{CodeReason, FILE_LIMIT};
use stapl_lexer::TEXT_LIMIT;
use std::alloc::Global;
use tool_frame::NoAnswer;
use tool_io::{Lines, ReadRefused, Shelf, Sink, read_whole};
use tool_questions::{show_line, show_long_board, show_long_program};

// Says that the file of this path cannot be read.
fn tell_unread<K: Sink>(alloc: Global, path: &str, lines: &mut Lines<K>) -> Result<Status, NoAnswer>
    requires { IsWhole lines.old }
    ensures { Says K.Sink (IsUnreadTold path.now) ⊥ lines.old lines.new result }
{
    tell(
        alloc,
        Front::Unread(path.as_bytes()),
        b"9, an exit code:",
        lines,
    )
}

// Says what a play comes to of the program in a file, as a task asks for it.
fn tell_program_file<S: Shelf, K: Sink>(
    alloc: Global,
    task: &Task,
    path: &str,
    shelf: &mut S,
    rack: &mut Vec<Box<dyn Device>>,
    lines: &mut Lines<K>,
) -> Result<Status, NoAnswer>
    requires rack { IsRack (map kind_of rack.old.items) }
    requires devices { CanBeFitted task.now.devices.now }
    requires whole { IsWhole lines.old }
    ensures says { (board : List ℕ) → IsBoard board task.now.devices.now →
        OfFile (S.told shelf.old) (Some path.now) (λ held. Says K.Sink
        (Reads (IsUnread S.Shelf (λ read. read ≡ path.now) shelf.old shelf.new)
        (Explains (HeldAnswer (SourceAnswer sources.Program task.now.request.now task.now.devices.now) held)
        (known_at sources.Program (Some board) held))) ⊥ lines.old lines.new result) }
    ensures files { KeepsFiles S.Shelf (NamesThis path.now) shelf.old shelf.new }
    ensures kinds { map kind_of rack.new.items ≡ map kind_of rack.old.items }
{
    match read_whole(alloc, shelf, path, TEXT_LIMIT as u32) {
        Ok(text) => tell_text(alloc, task, &text, rack, lines),
        Err(ReadRefused::TooLong) => show_long_program(alloc, lines),
        Err(ReadRefused::ReadFault) => tell_unread(alloc, path, lines),
        Err(ReadRefused::Memory) => Err(NoAnswer::Memory),
    }
}

// Says what a play comes to of the code in a file, as a task asks for it.
fn tell_code_in<S: Shelf, K: Sink>(
    alloc: Global,
    task: &Task,
    path: &str,
    shelf: &mut S,
    rack: &mut Vec<Box<dyn Device>>,
    lines: &mut Lines<K>,
) -> Result<Status, NoAnswer>
    requires rack { IsRack (map kind_of rack.old.items) }
    requires devices { CanBeFitted task.now.devices.now }
    requires whole { IsWhole lines.old }
    ensures says { (board : List ℕ) → IsBoard board task.now.devices.now →
        OfFile (S.told shelf.old) (Some path.now) (λ held. Says K.Sink
        (Reads (IsUnread S.Shelf (λ read. read ≡ path.now) shelf.old shelf.new)
        (Explains (HeldAnswer (SourceAnswer sources.Code task.now.request.now task.now.devices.now) held)
        (known_at sources.Code (Some board) held))) ⊥ lines.old lines.new result) }
    ensures files { KeepsFiles S.Shelf (NamesThis path.now) shelf.old shelf.new }
    ensures kinds { map kind_of rack.new.items ≡ map kind_of rack.old.items }
{
    match read_whole(alloc, shelf, path, FILE_LIMIT as u32) {
        Ok(bytes) => tell_code_file(alloc, task, &bytes, rack, lines),
        Err(ReadRefused::TooLong) => {
            tell_code_fault(alloc, FILE_LIMIT as u32, CodeReason::TooLong, lines)
        }
        Err(ReadRefused::ReadFault) => tell_unread(alloc, path, lines),
        Err(ReadRefused::Memory) => Err(NoAnswer::Memory),
    }
}

// Says what a play comes to of what a file holds, as a task asks for it.
fn tell_source<S: Shelf, K: Sink>(
    alloc: Global,
    source: Source,
    task: &Task,
    path: &str,
    shelf: &mut S,
    rack: &mut Vec<Box<dyn Device>>,
    lines: &mut Lines<K>,
) -> Result<Status, NoAnswer>
    requires rack { IsRack (map kind_of rack.old.items) }
    requires devices { CanBeFitted task.now.devices.now }
    requires whole { IsWhole lines.old }
    ensures says { (board : List ℕ) → IsBoard board task.now.devices.now →
        OfFile (S.told shelf.old) (Some path.now) (λ held. Says K.Sink
        (Reads (IsUnread S.Shelf (λ read. read ≡ path.now) shelf.old shelf.new)
        (Explains (HeldAnswer (SourceAnswer source task.now.request.now task.now.devices.now) held)
        (known_at source (Some board) held))) ⊥ lines.old lines.new result) }
    ensures files { KeepsFiles S.Shelf (NamesThis path.now) shelf.old shelf.new }
    ensures kinds { map kind_of rack.new.items ≡ map kind_of rack.old.items }
{
    match source {
        Source::Program => tell_program_file(alloc, task, path, shelf, rack, lines),
        Source::Code => tell_code_in(alloc, task, path, shelf, rack, lines),
    }
}

// Says what a play comes to on the board with these bytes: where they are refused as a board, or what is said of what is
// played.
fn tell_on_board<S: Shelf, K: Sink>(
    alloc: Global,
    source: Source,
    board: &[u8],
    play: &FilePlay,
    shelf: &mut S,
    rack: &mut Vec<Box<dyn Device>>,
    lines: &mut Lines<K>,
) -> Result<Status, NoAnswer>
    requires rack { IsRack (map kind_of rack.old.items) }
    requires whole { IsWhole lines.old }
    ensures says { OfFile (S.told shelf.old) (Some play.now.source) (λ held. Says K.Sink
        (Reads (IsUnread S.Shelf (IsPlayed board.now play.now.source) shelf.old shelf.new)
        (Explains (PlayAnswer source play.now.request (Some board.now) held)
        (known_at source (Some board.now) held))) ⊥ lines.old lines.new result) }
    ensures files { KeepsFiles S.Shelf (NamesThis play.now.source) shelf.old shelf.new }
    ensures kinds { map kind_of rack.new.items ≡ map kind_of rack.old.items }
{
    match board_of(alloc, board) {
        Ok(devices) => {
            let task = Task {
                request: &play.request,
                devices: &devices,
            };
            tell_source(
                alloc,
                source,
                &task,
                play.source.as_str(),
                shelf,
                rack,
                lines,
            )
        }
        Err(BoardNotRead::At { line, .. }) => {
            show_line(alloc, board, line, lines)?;
            Ok(Status::Done(0))
        }
        Err(BoardNotRead::Read) => Err(NoAnswer::Read),
        Err(BoardNotRead::Memory) => Err(NoAnswer::Memory),
    }
}

/// Says what a play comes to of what a file holds, on the board in another, which is read first.
///
/// `Write` as of the sink; `Memory` is want of memory, and then nothing has reached the sink.
pub(crate) fn tell_play<S: Shelf, K: Sink>(
    alloc: Global,
    source: Source,
    play: &FilePlay,
    shelf: &mut S,
    rack: &mut Vec<Box<dyn Device>>,
    lines: &mut Lines<K>,
) -> Result<Status, NoAnswer>
    requires rack { IsRack (map kind_of rack.old.items) }
    requires whole { IsWhole lines.old }
    ensures says { OfFiles (ArePlayFiles play.now) (S.told shelf.old) (λ contents. Says K.Sink
        (Reads (IsUnread S.Shelf (IsPlayFile (S.told shelf.old) play.now) shelf.old shelf.new)
        (Explains (PlayAnswer source play.now.request (first_of contents) (second_of contents))
        (known_at source (first_of contents) (second_of contents)))) ⊥ lines.old lines.new result) }
    ensures files { KeepsFiles S.Shelf (ArePlayFiles play.now) shelf.old shelf.new }
    ensures kinds { map kind_of rack.new.items ≡ map kind_of rack.old.items }
{
    match read_whole(alloc, shelf, play.board.as_str(), MOST_BYTES as u32) {
        Ok(board) => tell_on_board(alloc, source, &board, play, shelf, rack, lines),
        Err(ReadRefused::TooLong) => show_long_board(alloc, lines),
        Err(ReadRefused::ReadFault) => tell_unread(alloc, play.board.as_str(), lines),
        Err(ReadRefused::Memory) => Err(NoAnswer::Memory),
    }
}

/// Says what other work comes to of the program in a file.
///
/// `Write` as of the sink; `Memory` is want of memory, and then nothing has reached the sink.
pub(crate) fn tell_work_on<S: Shelf, K: Sink>(
    alloc: Global,
    work: Work,
    path: &str,
    shelf: &mut S,
    lines: &mut Lines<K>,
) -> Result<Status, NoAnswer>
    requires { IsWhole lines.old }
    ensures says { OfFile (S.told shelf.old) (Some path.now) (λ held. Says K.Sink
        (Reads (IsUnread S.Shelf (λ read. read ≡ path.now) shelf.old shelf.new)
        (Explains (WorkAnswer work held) (known_alone held))) ⊥ lines.old lines.new result) }
    ensures files { KeepsFiles S.Shelf (NamesThis path.now) shelf.old shelf.new }
{
    match read_whole(alloc, shelf, path, TEXT_LIMIT as u32) {
        Ok(text) => tell_work(alloc, work, &text, lines),
        Err(ReadRefused::TooLong) => show_long_program(alloc, lines),
        Err(ReadRefused::ReadFault) => tell_unread(alloc, path, lines),
        Err(ReadRefused::Memory) => Err(NoAnswer::Memory),
    }
}
