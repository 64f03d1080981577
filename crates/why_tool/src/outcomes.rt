//! What is said of the status of a play, or of other work on a program.
ghost use Rattle.std.specs.Prelude.{◌≡◌, ◌++◌, pos, codes, IfOk, map};
ghost use Rattle.std.specs.Option.{option_map};
ghost use Rattle.tool_io.specs.Lines.{IsWhole, HasPut};
ghost use Rattle.tool_frame.specs.Answers.{Says};
ghost use Rattle.stapl_syntax.specs.ProgramValues.{trees_of};
ghost use Rattle.stapl_meaning.specs.Texts.{fault_name};
ghost use Rattle.tool_questions.specs.Explanations.{paragraphs};
ghost use Rattle.tool_questions.specs.Pieces.{PieceAnswer};
ghost use Rattle.tool_questions.specs.BoardLines.{devices_line};
ghost use Rattle.board_text.specs.Boards.{CanBeFitted};
ghost use Rattle.why_tool.specs.Texts.{misfit_line};
ghost use Rattle.play_words.specs.declared.status.Status.TheVariants as statuses;
ghost use Rattle.why_tool.specs.Told.{Known, IsKnown, IsPartOf, IsPartPut, list_or_none, Shows, Tells, IsToldUnder, IsOutcome};

use crate::told::{Front, put_told, tell};
use dev_card::Desc;
use play_words::Status;
use program_reports::put_list;
use stapl_meaning::{Ending, RunFault};
use stapl_syntax::Program;
use std::alloc::{AllocError, Global};
use tool_frame::NoAnswer;
use tool_io::{Failed, Lines, Sink};
use tool_questions::{joined, lines_with, put_devices, show_piece};

// What is said of a fault of a play.
fn fault_explanation(alloc: Global, fault: RunFault) -> Result<Vec<&'static str>, AllocError>
    ensures { IfOk result (λ found. map (λ line. line.now) found.items ≡ paragraphs (fault_name fault ++ codes ", in a play:")) }
{
    let head = joined(alloc, fault.name(), b", in a play:")?;
    lines_with(alloc, &head)
}

// Shows a piece of the program, if it is one.
fn show_piece_of<K: Sink>(
    alloc: Global,
    program: Option<&Program>,
    piece: u32,
    lines: &mut Lines<K>,
) -> Result<(), NoAnswer>
    requires { IsWhole lines.old }
    ensures { Says K.Sink (IsPartPut (IsPartOf (λ text. Shows (PieceAnswer text piece))
        (option_map (λ program. program.now.text) program.entry))) ⊥ lines.old lines.new result }
{
    if let Some(program) = program {
        show_piece(alloc, program.text(), piece, lines)?;
    }
    Ok(())
}

// Says what is known of a fault that ended the play of a program, or of a code.
fn tell_fault<K: Sink>(
    alloc: Global,
    fault: RunFault,
    piece: u32,
    program: Option<&Program>,
    lines: &mut Lines<K>,
) -> Result<Status, NoAnswer>
    requires { IsWhole lines.old }
    ensures { (known : Known) → known.program ≡ option_map (λ program. program.now.text) program.entry →
        Says K.Sink (Tells known (statuses.Fault fault piece)) ⊥ lines.old lines.new result }
{
    let said = fault_explanation(alloc, fault)?;
    show_piece_of(alloc, program, piece, lines)?;
    put_told(lines, Front::Ended(Ending::Fault(fault, piece)), &said)?;
    Ok(Status::Done(0))
}

// Puts the list of the program, if it is one.
fn put_list_of<K: Sink>(lines: &mut Lines<K>, program: Option<&Program>) -> Result<(), Failed>
    requires { IsWhole lines.old }
    ensures { HasPut K.Sink lines.old (list_or_none (option_map (λ program. trees_of program.now) program.entry))
        lines.new result }
{
    match program {
        Some(program) => put_list(lines, program.statements()),
        None => lines.put(b""),
    }
}

// Says that what a name stands for is not there, and what the program has.
fn tell_misfit<K: Sink>(
    alloc: Global,
    name: &[u8],
    head: &[u8],
    program: Option<&Program>,
    lines: &mut Lines<K>,
) -> Result<Status, NoAnswer>
    requires { IsWhole lines.old }
    ensures { Says K.Sink (IsToldUnder (misfit_line name.now) head.now
        (list_or_none (option_map (λ program. trees_of program.now) program.entry))) ⊥ lines.old lines.new result }
{
    tell(alloc, Front::Misfit(name), head, lines)?;
    put_list_of(lines, program)?;
    Ok(Status::Done(0))
}

// Says that the board lacks the place, and how many devices it has.
fn tell_place<K: Sink>(
    alloc: Global,
    devices: &[Desc],
    lines: &mut Lines<K>,
) -> Result<Status, NoAnswer>
    requires fits { CanBeFitted devices.now }
    requires whole { IsWhole lines.old }
    ensures { Says K.Sink (IsToldUnder (misfit_line (codes "place")) (codes "place, of the words:") (devices_line devices.now)) ⊥
        lines.old lines.new result }
{
    tell(
        alloc,
        Front::Misfit(b"place"),
        b"place, of the words:",
        lines,
    )?;
    put_devices(lines, devices)?;
    Ok(Status::Done(0))
}

/// Says that the play, or other work, is done with this code.
pub(crate) fn tell_done<K: Sink>(
    alloc: Global,
    code: i32,
    lines: &mut Lines<K>,
) -> Result<Status, NoAnswer>
    requires { IsWhole lines.old }
    ensures { (known : Known) → Says K.Sink (Tells known (statuses.Done code)) ⊥ lines.old lines.new result }
{
    if code == 0 {
        return tell(alloc, Front::Nothing, b"0, an exit code:", lines);
    }
    tell(
        alloc,
        Front::Ended(Ending::Exit(code)),
        b"1, an exit code:",
        lines,
    )
}

/// Says what is known of how a play on these devices ended, of this program if it is one.
///
/// `Write` as of the sink; `Memory` is want of memory, and then nothing has reached the sink.
pub(crate) fn tell_outcome<K: Sink>(
    alloc: Global,
    status: Status,
    devices: &[Desc],
    program: Option<&Program>,
    lines: &mut Lines<K>,
) -> Result<Status, NoAnswer>
    requires outcome { IsOutcome status }
    requires fits { CanBeFitted devices.now }
    requires whole { IsWhole lines.old }
    ensures { (known : Known) → IsKnown known devices.now (option_map (λ program. program.now) program.entry) →
        Says K.Sink (Tells known status) ⊥ lines.old lines.new result }
{
    match status {
        Status::Done(code) => tell_done(alloc, code, lines),
        Status::Fault(fault, piece) => tell_fault(alloc, fault, piece, program, lines),
        Status::Spent => tell(
            alloc,
            Front::Ended(Ending::Spent),
            b"spent, in a play:",
            lines,
        ),
        Status::NoAction => tell_misfit(alloc, b"action", b"action, of the words:", program, lines),
        Status::BadChoice => tell_misfit(
            alloc,
            b"choice",
            b"choice, of the words:",
            program,
            lines,
        ),
        Status::BadPlace => tell_place(alloc, devices, lines),
        _ => unreachable!(),
    }
}
