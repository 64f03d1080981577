//! The play of a program that is made from a number, on a board that is made from it.
ghost use Rattle.std.specs.Prelude.{◌≡◌, ◌≤◌, ◌==◌, [], Some, count_by, length, map};
ghost use Rattle.tool_io.specs.Lines.{IsWhole, gathered};
ghost use Rattle.tool_frame.specs.Answers.{Says};
ghost use Rattle.chain_sim.specs.Rack.{IsRack};
ghost use Rattle.board_text.specs.Boards.{CanBeFitted};
ghost use Rattle.code_plays.specs.Racks.{KeepsRack};
ghost use Rattle.play_tool.specs.declared.sources.Source.TheVariants.{Program as OfProgram};
ghost use Rattle.play_tool.specs.Answers.{request_at, PlaysAction, TextAnswer, PlayAnswer, SoakAnswer};
ghost use Rattle.play_tool.specs.FinalRacks.{TextHoldsFinal, PlayHoldsFinal, SoakHoldsFinal};

use crate::lines::{SoakSummary, soak_line};
use crate::programs::play_program;
use base::ItemList;
use code_plays::Task;
use dev_card::Device;
use named_files::{BoardNotRead, board_of, put_board_refusal, put_refusal};
use play_words::{PlaceRun, PlayRequest, Status, USUAL_TURNS};
use soak_texts::soak_texts;
use stapl_checker::{CheckRefused, check};
use stapl_lexer::Name;
use std::alloc::Global;
use tool_frame::NoAnswer;
use tool_io::{Lines, Sink};

/// The play of action A that a soak asks for, for the device at a place, counted from 1.
pub fn request_at(alloc: Global, place: u32) -> PlayRequest
    ensures { result ≡ request_at place }
{
    let Some(action) = Name::read_free(b"A") else {
        unreachable!()
    };
    PlayRequest {
        action,
        todo: ItemList::of(Vec::new(alloc)),
        skip: ItemList::of(Vec::new(alloc)),
        place: Some(PlaceRun::only(place)),
        turns: USUAL_TURNS,
        pins: false,
        report: true,
    }
}

// How many pieces a text has in which each semicolon ends one.
#[tactic(auto, using(crate::proofs::SoakLemmas::few_counted))]
fn piece_count(text: &[u8]) -> usize
    ensures count { result ≡ count_by (λ b. b == 59) text.now }
    ensures few { result ≤ length text.now }
{
    text.iter().filter(|byte| **byte == b';').count()
}

// Plays a program with these bytes, as a task asks for it.
fn play_text<K: Sink>(
    alloc: Global,
    task: &Task,
    bytes: &[u8],
    rack: &mut Vec<Box<dyn Device>>,
    lines: &mut Lines<K>,
) -> Result<Status, NoAnswer>
    requires rack { IsRack (map kind_of rack.old.items) }
    requires devices { CanBeFitted task.now.devices.now }
    requires whole { IsWhole lines.old }
    ensures says { Says K.Sink (TextAnswer (PlaysAction task.now.request.now task.now.devices.now) bytes.now) ⊥
        lines.old lines.new result }
    ensures rack { KeepsRack kind_of fitted (Unit {0})
        (TextHoldsFinal task.now.request.now task.now.devices.now bytes.now) rack.old.items rack.new.items result }
{
    match check(alloc, bytes) {
        Ok(program) => play_program(alloc, &program, task, rack, lines),
        Err(
            CheckRefused::Refused {
                piece,
                line,
                reason,
            },
        ) => {
            put_refusal(lines, piece, line, reason)?;
            Ok(Status::Refused(piece, reason))
        }
        Err(CheckRefused::Memory) => Err(NoAnswer::Memory),
    }
}

// Plays a program with these bytes on a board with these, as a request asks for it.
fn play_texts<K: Sink>(
    alloc: Global,
    request: &PlayRequest,
    board: &[u8],
    program: &[u8],
    rack: &mut Vec<Box<dyn Device>>,
    lines: &mut Lines<K>,
) -> Result<Status, NoAnswer>
    requires rack { IsRack (map kind_of rack.old.items) }
    requires whole { IsWhole lines.old }
    ensures says { Says K.Sink (PlayAnswer OfProgram request.now (Some board.now) (Some program.now)) ⊥
        lines.old lines.new result }
    ensures rack { KeepsRack kind_of fitted (Unit {0})
        (PlayHoldsFinal OfProgram request.now (Some board.now) (Some program.now))
        rack.old.items rack.new.items result }
{
    match board_of(alloc, board) {
        Ok(devices) => {
            let task = Task {
                request,
                devices: &devices,
            };
            play_text(alloc, &task, program, rack, lines)
        }
        Err(BoardNotRead::At { line, reason }) => {
            put_board_refusal(lines, line, reason)?;
            Ok(Status::BoardRefused(line, reason))
        }
        Err(BoardNotRead::Read) => Err(NoAnswer::Read),
        Err(BoardNotRead::Memory) => Err(NoAnswer::Memory),
    }
}

/// Answers a soak: tells its board and its program in one line, and plays the program. The line waits in the lines
/// until all memory is taken.
pub(crate) fn answer_soak<K: Sink>(
    alloc: Global,
    seed: u32,
    rack: &mut Vec<Box<dyn Device>>,
    lines: &mut Lines<K>,
) -> Result<Status, NoAnswer>
    requires rack { IsRack (map kind_of rack.old.items) }
    requires whole { IsWhole lines.old }
    requires empty { gathered lines.old ≡ [] }
    ensures says { Says K.Sink (SoakAnswer seed) ⊥ lines.old lines.new result }
    ensures rack { KeepsRack kind_of fitted (Unit {0}) (SoakHoldsFinal seed) rack.old.items rack.new.items result }
{
    let soak = soak_texts(alloc, seed)?;
    let request = request_at(alloc, soak.place);
    let summary = SoakSummary {
        seed,
        devices: soak.devices,
        place: soak.place,
        pieces: piece_count(&soak.program),
    };
    let line = soak_line(alloc, summary)?;
    lines.put(&line)?;
    play_texts(alloc, &request, &soak.board, &soak.program, rack, lines)
}
