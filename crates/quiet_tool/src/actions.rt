//! The verdicts on the plays of some actions of a program.
ghost use Rattle.std.specs.Prelude.{◌≡◌, ◌++◌, map, filter_map, IfOk, OnOk};
ghost use Rattle.stapl_syntax.specs.Trees.{stmt_tree, body_tree};
ghost use Rattle.stapl_syntax.specs.Programs.{IsProgram};
ghost use Rattle.stapl_syntax.specs.ProgramValues.{trees_of};
ghost use Rattle.stapl_meaning.specs.Scopes.{as_played};
ghost use Rattle.stapl_codegen.specs.Generated.{IsCodeOf};
ghost use Rattle.board_text.specs.Boards.{CanBeFitted};
ghost use Rattle.chain_sim.specs.Rack.{IsRack};
ghost use Rattle.quiet_tool.specs.Texts.{action_text};
ghost use Rattle.quiet_tool.specs.Answers.{action_name, actions_of, with_action, ActionAnswer, ActionsAnswer, ProgramAnswer};

use crate::QuietStatus;
use crate::judging::{Answer, answer_code};
use crate::words::Actions;
use base::ItemList;
use code_plays::Task;
use dev_card::Device;
use play_words::PlayRequest;
use stapl_codegen::generate;
use stapl_lexer::Name;
use stapl_syntax::{Body, Program, Stmt};
use std::alloc::{AllocError, Global};
use valid_codes::Code;

/// What is asked of a program: a play on the devices of a board, and of which actions.
#[derive(Clone, Copy)]
pub(crate) struct Asked<'a> {
    pub(crate) task: Task<'a>,
    pub(crate) actions: Actions,
}

// The name of the action that a statement declares.
fn action_name(statement: &Stmt) -> Option<Name>
    ensures { result ≡ action_name (body_tree statement.now.body) }
{
    match &statement.body {
        Body::Action(name, _, _) => Some(**name),
        _ => None,
    }
}

// The actions of a program, in the order of their statements.
fn actions_of(alloc: Global, statements: &[Stmt]) -> Result<Vec<Name>, AllocError>
    ensures { IfOk result (λ names. names.items ≡ actions_of (map stmt_tree statements.now)) }
{
    statements
        .iter()
        .filter_map(|statement| action_name(statement))
        .collect(alloc)
}

// A list of the same names.
fn copied_names(alloc: Global, names: &ItemList<Name>) -> Result<ItemList<Name>, AllocError>
    ensures { IfOk result (λ copy. copy ≡ names.now) }
{
    let copy = names.as_slice().to_vec(alloc)?;
    Ok(ItemList::of(copy))
}

// The same that is asked of a play, of this action.
fn with_action(
    alloc: Global,
    request: &PlayRequest,
    action: Name,
) -> Result<PlayRequest, AllocError>
    ensures { IfOk result (λ other. other ≡ with_action request.now action) }
{
    let todo = copied_names(alloc, &request.todo)?;
    let skip = copied_names(alloc, &request.skip)?;
    Ok(PlayRequest {
        action,
        todo,
        skip,
        place: request.place,
        turns: request.turns,
        pins: request.pins,
        report: request.report,
    })
}

// Adds what is written of the play of an action.
fn add_action(text: &mut Vec<u8>, name: &Name, said: &[u8]) -> Result<(), AllocError>
    ensures { OnOk result (text.new.items ≡ text.old.items ++ action_text name.now said.now) }
{
    text.extend_from_slice(b"A ")?;
    text.extend_from_slice(name.bytes())?;
    text.extend_from_slice(b" ")?;
    text.extend_from_slice(said)?;
    Ok(())
}

// The verdict on the play of this action.
fn answer_action(
    alloc: Global,
    task: &Task,
    program: &Program,
    code: &Code,
    action: Name,
    rack: &mut Vec<Box<dyn Device>>,
) -> Result<Answer, AllocError>
    requires program { IsProgram program.now.text (trees_of program.now) }
    requires code { IsCodeOf (as_played (trees_of program.now)) code.now }
    requires devices { CanBeFitted task.now.devices.now }
    requires rack { IsRack (map kind_of rack.old.items) }
    ensures answer { IfOk result (λ answer. ActionAnswer program.now.text (trees_of program.now)
        (with_action task.now.request.now action) task.now.devices.now answer.text.items answer.status) }
    ensures kinds { map kind_of rack.new.items ≡ map kind_of rack.old.items }
{
    let request = with_action(alloc, task.request, action)?;
    let task = Task {
        request: &request,
        devices: task.devices,
    };
    let answer = answer_code(alloc, &task, program, code, rack)?;
    Ok(answer)
}

// The verdicts on the plays of these actions, in order. The board is fitted anew for each.
fn answer_actions(
    alloc: Global,
    task: &Task,
    program: &Program,
    code: &Code,
    names: &[Name],
    rack: &mut Vec<Box<dyn Device>>,
) -> Result<Answer, AllocError>
    requires program { IsProgram program.now.text (trees_of program.now) }
    requires code { IsCodeOf (as_played (trees_of program.now)) code.now }
    requires devices { CanBeFitted task.now.devices.now }
    requires rack { IsRack (map kind_of rack.old.items) }
    ensures answer { IfOk result (λ answer. ActionsAnswer program.now.text (trees_of program.now)
        task.now.request.now task.now.devices.now names.now answer.text.items answer.status) }
    ensures kinds { map kind_of rack.new.items ≡ map kind_of rack.old.items }
{
    let mut text = Vec::new(alloc);
    let mut status = QuietStatus::Quiet;
    for name in names {
        let answer = answer_action(alloc, task, program, code, *name, rack)?;
        add_action(&mut text, name, &answer.text)?;
        status = status.or(answer.status);
    }
    Ok(Answer { text, status })
}

// The verdicts on the plays of all actions of a program.
fn answer_each(
    alloc: Global,
    task: &Task,
    program: &Program,
    code: &Code,
    rack: &mut Vec<Box<dyn Device>>,
) -> Result<Answer, AllocError>
    requires program { IsProgram program.now.text (trees_of program.now) }
    requires code { IsCodeOf (as_played (trees_of program.now)) code.now }
    requires devices { CanBeFitted task.now.devices.now }
    requires rack { IsRack (map kind_of rack.old.items) }
    ensures answer { IfOk result (λ answer. ActionsAnswer program.now.text (trees_of program.now)
        task.now.request.now task.now.devices.now (actions_of (trees_of program.now)) answer.text.items answer.status) }
    ensures kinds { map kind_of rack.new.items ≡ map kind_of rack.old.items }
{
    let names = actions_of(alloc, program.statements())?;
    let answer = answer_actions(alloc, task, program, code, &names, rack)?;
    Ok(answer)
}

/// The answer for a program: the verdict on the play of the action that a task names, or on the play of each action.
///
/// `AllocError` comes for want of memory, or if a scan has 2 ^ 64 bits or more. Each device of the rack keeps its kind.
pub(crate) fn answer_program(
    alloc: Global,
    asked: &Asked,
    program: &Program,
    rack: &mut Vec<Box<dyn Device>>,
) -> Result<Answer, AllocError>
    requires program { IsProgram program.now.text (trees_of program.now) }
    requires devices { CanBeFitted asked.now.task.devices.now }
    requires rack { IsRack (map kind_of rack.old.items) }
    ensures answer { IfOk result (λ answer. ProgramAnswer asked.now.actions program.now.text (trees_of program.now)
        asked.now.task.request.now asked.now.task.devices.now answer.text.items answer.status) }
    ensures kinds { map kind_of rack.new.items ≡ map kind_of rack.old.items }
{
    let code = generate(alloc, program)?;
    match asked.actions {
        Actions::Named => answer_code(alloc, &asked.task, program, &code, rack),
        Actions::Each => answer_each(alloc, &asked.task, program, &code, rack),
    }
}
