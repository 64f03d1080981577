//! What is said of the bytes of a program or of a code.
ghost use Rattle.std.specs.Prelude.{◌≡◌, ℕ, List, Some, None, map};
ghost use Rattle.tool_io.specs.Lines.{IsWhole};
ghost use Rattle.tool_frame.specs.Answers.{Says};
ghost use Rattle.board_text.specs.Boards.{IsBoard, CanBeFitted};
ghost use Rattle.chain_sim.specs.Rack.{IsRack};
ghost use Rattle.stapl_syntax.specs.Programs.{IsProgram};
ghost use Rattle.stapl_syntax.specs.ProgramValues.{trees_of};
ghost use Rattle.code_plays.specs.Plays.{PlaysCode};
ghost use Rattle.play_tool.specs.Answers.{TextAnswer, PlaysAction, Works, CodeAnswer};
ghost use Rattle.play_words.specs.declared.status.Status.TheVariants as statuses;
ghost use Rattle.why_tool.specs.Told.{Known, Tells, known_with, known_alone};
ghost use Rattle.why_tool.specs.Whys.{Explains};

use crate::outcomes::{tell_done, tell_outcome};
use crate::playing::{code_status, program_status, work_status};
use crate::told::{Front, tell};
use code_files::{DecodeRefused, decode_code};
use code_plays::Task;
use dev_card::Device;
use play_tool::Work;
use play_words::Status;
use stapl_checker::{CheckRefused, check};
use stapl_code::CodeReason;
use stapl_syntax::Program;
use std::alloc::Global;
use tool_frame::NoAnswer;
use tool_io::{Lines, Sink};
use tool_questions::{joined, show_piece};
use valid_codes::Code;

// Says how the play of a program ends, as a task asks for it.
fn tell_program<K: Sink>(
    alloc: Global,
    task: &Task,
    program: &Program,
    rack: &mut Vec<Box<dyn Device>>,
    lines: &mut Lines<K>,
) -> Result<Status, NoAnswer>
    requires program { IsProgram program.now.text (trees_of program.now) }
    requires rack { IsRack (map kind_of rack.old.items) }
    requires devices { CanBeFitted task.now.devices.now }
    requires whole { IsWhole lines.old }
    ensures says { (board : List ℕ) → IsBoard board task.now.devices.now → Says K.Sink (Explains
        (PlaysAction task.now.request.now task.now.devices.now (trees_of program.now))
        (known_with board (Some program.now.text))) ⊥ lines.old lines.new result }
    ensures kinds { map kind_of rack.new.items ≡ map kind_of rack.old.items }
{
    let status = program_status(alloc, program, task, rack)?;
    tell_outcome(alloc, status, task.devices, Some(program), lines)
}

/// Says what a play comes to of these bytes, as a task asks for it: where they are refused
/// as a program, or how its play ends.
///
/// `Write` as of the sink; `Memory` is want of memory, and then nothing has reached the sink.
pub(crate) fn tell_text<K: Sink>(
    alloc: Global,
    task: &Task,
    text: &[u8],
    rack: &mut Vec<Box<dyn Device>>,
    lines: &mut Lines<K>,
) -> Result<Status, NoAnswer>
    requires rack { IsRack (map kind_of rack.old.items) }
    requires devices { CanBeFitted task.now.devices.now }
    requires whole { IsWhole lines.old }
    ensures says { (board : List ℕ) → IsBoard board task.now.devices.now → Says K.Sink (Explains
        (TextAnswer (PlaysAction task.now.request.now task.now.devices.now) text.now)
        (known_with board (Some text.now))) ⊥ lines.old lines.new result }
    ensures kinds { map kind_of rack.new.items ≡ map kind_of rack.old.items }
{
    match check(alloc, text) {
        Ok(program) => tell_program(alloc, task, &program, rack, lines),
        Err(CheckRefused::Refused { piece, .. }) => {
            show_piece(alloc, text, piece, lines)?;
            Ok(Status::Done(0))
        }
        Err(CheckRefused::Memory) => Err(NoAnswer::Memory),
    }
}

// Says how other work on a program ends.
fn tell_worked<K: Sink>(
    alloc: Global,
    work: Work,
    program: &Program,
    lines: &mut Lines<K>,
) -> Result<Status, NoAnswer>
    requires program { IsProgram program.now.text (trees_of program.now) }
    requires whole { IsWhole lines.old }
    ensures { Says K.Sink (Explains (Works work program.now.text (trees_of program.now))
        (known_alone (Some program.now.text))) ⊥ lines.old lines.new result }
{
    work_status(alloc, work, program)?;
    tell_done(alloc, 0, lines)
}

/// Says what other work comes to of these bytes: where they are refused as a program, or that it is done.
///
/// `Write` as of the sink; `Memory` is want of memory, and then nothing has reached the sink.
pub(crate) fn tell_work<K: Sink>(
    alloc: Global,
    work: Work,
    text: &[u8],
    lines: &mut Lines<K>,
) -> Result<Status, NoAnswer>
    requires { IsWhole lines.old }
    ensures { Says K.Sink (Explains (TextAnswer (Works work text.now) text.now) (known_alone (Some text.now))) ⊥
        lines.old lines.new result }
{
    match check(alloc, text) {
        Ok(program) => tell_worked(alloc, work, &program, lines),
        Err(CheckRefused::Refused { piece, .. }) => {
            show_piece(alloc, text, piece, lines)?;
            Ok(Status::Done(0))
        }
        Err(CheckRefused::Memory) => Err(NoAnswer::Memory),
    }
}

// Says how the play of a code ends, as a task asks for it.
fn tell_code<K: Sink>(
    alloc: Global,
    task: &Task,
    code: &Code,
    rack: &mut Vec<Box<dyn Device>>,
    lines: &mut Lines<K>,
) -> Result<Status, NoAnswer>
    requires rack { IsRack (map kind_of rack.old.items) }
    requires devices { CanBeFitted task.now.devices.now }
    requires whole { IsWhole lines.old }
    ensures says { (board : List ℕ) → IsBoard board task.now.devices.now → Says K.Sink (Explains
        (PlaysCode code.now task.now.request.now task.now.devices.now) (known_with board None)) ⊥
        lines.old lines.new result }
    ensures kinds { map kind_of rack.new.items ≡ map kind_of rack.old.items }
{
    let status = code_status(alloc, code, task, rack)?;
    tell_outcome(alloc, status, task.devices, None, lines)
}

/// Says that bytes are no file of a code: the offset of their first fault in bytes, and what is said of the reason.
///
/// `Write` as of the sink; `Memory` is want of memory, and then nothing has reached the sink.
pub(crate) fn tell_code_fault<K: Sink>(
    alloc: Global,
    offset: u32,
    reason: CodeReason,
    lines: &mut Lines<K>,
) -> Result<Status, NoAnswer>
    requires { IsWhole lines.old }
    ensures { (known : Known) → Says K.Sink (Tells known (statuses.CodeRefused offset reason)) ⊥ lines.old lines.new result }
{
    let head = joined(alloc, reason.name(), b", of a code:")?;
    tell(alloc, Front::CodeAt(offset, reason), &head, lines)
}

/// Says what a play comes to of these bytes, as a task asks for it: where they are refused
/// as the file of a code, or how its play ends.
///
/// `Write` as of the sink; `Memory` is want of memory, and then nothing has reached the sink.
pub(crate) fn tell_code_file<K: Sink>(
    alloc: Global,
    task: &Task,
    bytes: &[u8],
    rack: &mut Vec<Box<dyn Device>>,
    lines: &mut Lines<K>,
) -> Result<Status, NoAnswer>
    requires rack { IsRack (map kind_of rack.old.items) }
    requires devices { CanBeFitted task.now.devices.now }
    requires whole { IsWhole lines.old }
    ensures says { (board : List ℕ) → IsBoard board task.now.devices.now → Says K.Sink (Explains
        (CodeAnswer task.now.request.now task.now.devices.now bytes.now) (known_with board None)) ⊥
        lines.old lines.new result }
    ensures kinds { map kind_of rack.new.items ≡ map kind_of rack.old.items }
{
    match decode_code(alloc, bytes) {
        Ok(code) => tell_code(alloc, task, &code, rack, lines),
        Err(DecodeRefused::At { offset, reason }) => tell_code_fault(alloc, offset, reason, lines),
        Err(DecodeRefused::Memory) => Err(NoAnswer::Memory),
    }
}
