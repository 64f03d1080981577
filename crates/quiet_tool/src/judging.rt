//! The verdict on the play of a program.
ghost use Rattle.std.specs.Prelude.{◌≡◌, ◌≤◌, ℕ, List, true, length, map, IfOk};
ghost use Rattle.stapl_lexer.specs.Pieces.{text_limit};
ghost use Rattle.stapl_syntax.specs.Programs.{IsProgram};
ghost use Rattle.stapl_syntax.specs.ProgramValues.{trees_of};
ghost use Rattle.stapl_meaning.specs.Scopes.{Played, as_played};
ghost use Rattle.dev_card.specs.declared.desc.Desc.{Desc};
ghost use Rattle.stapl_code.specs.Safe.{AllBelow};
ghost use Rattle.stapl_codegen.specs.Generated.{IsCodeOf};
ghost use Rattle.board_text.specs.Boards.{CanBeFitted};
ghost use Rattle.chain_sim.specs.Rack.{IsRack};
ghost use Rattle.code_plays.specs.Plays.{has_place};
ghost use Rattle.quiet_runs.specs.Verdicts.{IsQuietVerdict};
ghost use Rattle.quiet_tool.specs.Texts.{IsLineOf};
ghost use Rattle.quiet_tool.specs.Answers.{run_of, VerdictAnswer, ActionAnswer};

use crate::QuietStatus;
use crate::lines::{line_of_piece, quiet_text, unquiet_line};
use code_plays::{Task, choose_asked, has_place};
use dev_card::{Desc, Device};
use quiet_runs::{Verdict, quiet_play};
use stapl_lexer::cut;
use stapl_meaning::laws::programs_are_typed;
use stapl_player::ChoiceRefused;
use stapl_syntax::Program;
use std::alloc::{AllocError, Global};
use valid_codes::Code;

/// A text that is to be written, and the status.
#[derive(Drop)]
pub(crate) struct Answer {
    pub(crate) text: Vec<u8>,
    pub(crate) status: QuietStatus,
}

// The line of the piece of a text with this number.
fn line_of(alloc: Global, text: &[u8], piece: u32) -> Result<u32, AllocError>
    requires { length text.now ≤ text_limit }
    ensures { IfOk result (IsLineOf text.now piece) }
{
    let pieces = cut(alloc, text)?;
    let line = line_of_piece(&pieces, piece);
    Ok(line)
}

// The answer of a verdict on the play of a program.
fn answer_verdict(
    alloc: Global,
    bytes: &[u8],
    turns: u32,
    verdict: Verdict,
) -> Result<Answer, AllocError>
    requires short { length bytes.now ≤ text_limit }
    ensures { IfOk result (λ answer. (program : Played) (procedures : List ℕ) (run : List Desc) →
        IsQuietVerdict program procedures turns run verdict →
        VerdictAnswer bytes.now program procedures turns run answer.text.items answer.status) }
{
    match verdict {
        Verdict::Quiet(ending) => {
            let text = quiet_text(alloc, turns, ending)?;
            Ok(Answer {
                text,
                status: QuietStatus::Quiet,
            })
        }
        Verdict::NotQuiet(turn, piece, why) => {
            let line = line_of(alloc, bytes, piece)?;
            let text = unquiet_line(alloc, piece, line, turn, why)?;
            Ok(Answer {
                text,
                status: QuietStatus::NotQuiet(turn, piece, why),
            })
        }
    }
}

// The devices that are looked at alone.
fn run_of<'a>(task: &Task<'a>) -> &'a [Desc]
    requires placed { has_place task.now.request.now.place task.now.devices.now ≡ true }
    ensures { result.now ≡ run_of task.now.request.now.place task.now.devices.now }
{
    match task.request.place {
        Some(run) => &task.devices[run.first as usize - 1..run.last as usize],
        None => task.devices,
    }
}

// The verdict on the play of the chosen procedures of a program, by its code.
fn judge_chosen(
    alloc: Global,
    task: &Task,
    program: &Program,
    code: &Code,
    chosen: &[u32],
    rack: &mut Vec<Box<dyn Device>>,
) -> Result<Answer, AllocError>
    requires program { IsProgram program.now.text (trees_of program.now) }
    requires code { IsCodeOf (as_played (trees_of program.now)) code.now }
    requires below { AllBelow (length code.now.procedures) chosen.now }
    requires placed { has_place task.now.request.now.place task.now.devices.now ≡ true }
    requires devices { CanBeFitted task.now.devices.now }
    requires rack { IsRack (map kind_of rack.old.items) }
    ensures answer { IfOk result (λ answer. VerdictAnswer program.now.text (as_played (trees_of program.now)) chosen.now
        task.now.request.now.turns (run_of task.now.request.now.place task.now.devices.now)
        answer.text.items answer.status) }
    ensures kinds { map kind_of rack.new.items ≡ map kind_of rack.old.items }
{
    let turns = task.request.turns;
    let run = run_of(task);
    let verdict = quiet_play(alloc, code, chosen, rack, run, turns)?;
    let answer = answer_verdict(alloc, program.text(), turns, verdict)?;
    Ok(answer)
}

// An answer of a text and a status.
fn refuse(alloc: Global, line: &[u8], status: QuietStatus) -> Result<Answer, AllocError>
    ensures { IfOk result (λ answer. (answer.text.items ≡ line.now) × (answer.status ≡ status)) }
{
    let mut text = Vec::new(alloc);
    text.extend_from_slice(line)?;
    Ok(Answer { text, status })
}

/// The verdict on the play of a program that a task asks for, by the code of the program.
///
/// `AllocError` comes for want of memory, or if a scan has 2 ^ 64 bits or more. Each device of the rack keeps its kind.
pub(crate) fn answer_code(
    alloc: Global,
    task: &Task,
    program: &Program,
    code: &Code,
    rack: &mut Vec<Box<dyn Device>>,
) -> Result<Answer, AllocError>
    requires program { IsProgram program.now.text (trees_of program.now) }
    requires code { IsCodeOf (as_played (trees_of program.now)) code.now }
    requires devices { CanBeFitted task.now.devices.now }
    requires rack { IsRack (map kind_of rack.old.items) }
    ensures answer { IfOk result (λ answer. ActionAnswer program.now.text (trees_of program.now)
        task.now.request.now task.now.devices.now answer.text.items answer.status) }
    ensures kinds { map kind_of rack.new.items ≡ map kind_of rack.old.items }
{
    programs_are_typed();
    match choose_asked(alloc, code, task.request) {
        Ok(chosen) if has_place(task) => judge_chosen(alloc, task, program, code, &chosen, rack),
        Ok(_) => refuse(alloc, b"R place\n", QuietStatus::BadPlace),
        Err(ChoiceRefused::NoAction) => refuse(alloc, b"R action\n", QuietStatus::NoAction),
        Err(ChoiceRefused::BadChoice) => refuse(alloc, b"R choice\n", QuietStatus::BadChoice),
        Err(ChoiceRefused::Memory) => Err(AllocError),
    }
}
