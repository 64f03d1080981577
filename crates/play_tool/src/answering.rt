//! What is answered to a request.
ghost use Rattle.std.specs.Prelude.{◌≡◌, [], map};
ghost use Rattle.tool_io.specs.Lines.{IsWhole, gathered};
ghost use Rattle.tool_frame.specs.Files.{OfFiles, KeepsShelf, first_of, second_of};
ghost use Rattle.tool_frame.specs.Frame.{SaysAndLeaves};
ghost use Rattle.chain_sim.specs.Rack.{IsRack};
ghost use Rattle.play_tool.specs.Answers.{PlayAnswer, RequestAnswer};
ghost use Rattle.play_tool.specs.FinalRacks.{PlayHoldsFinal, RequestHoldsFinal, IsPlaying, LeavesRack};
ghost use Rattle.play_tool.specs.ReadContents.{ArePlayFiles, AreFilesOf, IsPlayFile, IsReached};

use crate::programs::Work;
use crate::soaking::answer_soak;
use crate::sources::{Source, play_source, work_on_file};
use code_plays::Task;
use dev_card::Device;
use named_files::{BoardNotRead, board_named, put_board_refusal};
use play_words::{FilePlay, Request, Status};
use std::alloc::Global;
use tool_frame::NoAnswer;
use tool_io::{Lines, Shelf, Sink};

// Plays what a file holds, on the board in another, which is read first.
fn answer_play<S: Shelf, K: Sink>(
    alloc: Global,
    source: Source,
    play: &FilePlay,
    shelf: &mut S,
    rack: &mut Vec<Box<dyn Device>>,
    lines: &mut Lines<K>,
) -> Result<Status, NoAnswer>
    requires rack { IsRack (map kind_of rack.old.items) }
    requires whole { IsWhole lines.old }
    ensures answers { OfFiles (ArePlayFiles play.now) (S.told shelf.old) (λ contents. SaysAndLeaves K.Sink
        (PlayAnswer source play.now.request (first_of contents) (second_of contents))
        (LeavesRack kind_of fitted (Unit {0})
        (PlayHoldsFinal source play.now.request (first_of contents) (second_of contents)))
        lines.old lines.new rack.old.items rack.new.items result) }
    ensures shelf { KeepsShelf S.Shelf (ArePlayFiles play.now) (IsPlayFile (S.told shelf.old) play.now)
        shelf.old shelf.new result }
{
    match board_named(alloc, shelf, play.board.as_str()) {
        Ok(devices) => {
            let task = Task {
                request: &play.request,
                devices: &devices,
            };
            play_source(
                alloc,
                source,
                &task,
                play.source.as_str(),
                shelf,
                rack,
                lines,
            )
        }
        Err(BoardNotRead::At { line, reason }) => {
            put_board_refusal(lines, line, reason)?;
            Ok(Status::BoardRefused(line, reason))
        }
        Err(BoardNotRead::Read) => Err(NoAnswer::Read),
        Err(BoardNotRead::Memory) => Err(NoAnswer::Memory),
    }
}

/// Answers a request. The first line of a soak waits in the lines, which are empty before.
pub(crate) fn answer_request<S: Shelf, K: Sink>(
    alloc: Global,
    request: &Request,
    shelf: &mut S,
    rack: &mut Vec<Box<dyn Device>>,
    lines: &mut Lines<K>,
) -> Result<Status, NoAnswer>
    requires rack { IsRack (map kind_of rack.old.items) }
    requires whole { IsWhole lines.old }
    requires empty { gathered lines.old ≡ [] }
    ensures answers { OfFiles (AreFilesOf request.now) (S.told shelf.old) (λ contents. SaysAndLeaves K.Sink
        (RequestAnswer request.now contents)
        (LeavesRack kind_of fitted (IsPlaying request.now) (RequestHoldsFinal request.now contents))
        lines.old lines.new rack.old.items rack.new.items result) }
    ensures shelf { KeepsShelf S.Shelf (AreFilesOf request.now) (IsReached (S.told shelf.old) request.now)
        shelf.old shelf.new result }
{
    match request {
        Request::Play(play) => answer_play(alloc, Source::Program, play, shelf, rack, lines),
        Request::Run(play) => answer_play(alloc, Source::Code, play, shelf, rack, lines),
        Request::Check(path) => work_on_file(alloc, Work::Check, path.as_str(), shelf, lines),
        Request::List(path) => work_on_file(alloc, Work::List, path.as_str(), shelf, lines),
        Request::Compile(path) => work_on_file(alloc, Work::Compile, path.as_str(), shelf, lines),
        Request::Soak(seed) => answer_soak(alloc, *seed, rack, lines),
    }
}
