//! The play of a program with its account.
ghost use Rattle.std.specs.Prelude.{◌≡◌, map};
ghost use Rattle.tool_io.specs.Lines.{IsWhole};
ghost use Rattle.tool_frame.specs.Answers.{Says};
ghost use Rattle.stapl_syntax.specs.Programs.{IsProgram};
ghost use Rattle.stapl_syntax.specs.ProgramValues.{trees_of};
ghost use Rattle.stapl_meaning.specs.Scopes.{as_played};
ghost use Rattle.stapl_codegen.specs.Generated.{IsCodeOf};
ghost use Rattle.board_text.specs.Boards.{CanBeFitted};
ghost use Rattle.chain_sim.specs.Rack.{IsRack};
ghost use Rattle.code_plays.specs.CodePlays.{IsPlayable};
ghost use Rattle.scans_tool.specs.Answers.{ChosenAnswer, ProgramAnswer};

use accounted_plays::play_with_account;
use code_plays::{Task, choose_asked, has_place, status_of};
use dev_card::Device;
use play_words::Status;
use stapl_codegen::generate;
use stapl_meaning::laws::programs_are_typed;
use stapl_player::ChoiceRefused;
use stapl_syntax::Program;
use std::alloc::Global;
use tool_frame::NoAnswer;
use tool_io::{Lines, Sink};
use valid_codes::Code;

// Plays the chosen procedures of a program by its code, with an account.
fn play_chosen<K: Sink>(
    alloc: Global,
    program: &Program,
    code: &Code,
    chosen: &[u32],
    task: &Task,
    rack: &mut Vec<Box<dyn Device>>,
    lines: &mut Lines<K>,
) -> Result<Status, NoAnswer>
    requires program { IsProgram program.now.text (trees_of program.now) }
    requires code { IsCodeOf (as_played (trees_of program.now)) code.now }
    requires playable { IsPlayable code.now chosen.now task.now }
    requires rack { IsRack (map kind_of rack.old.items) }
    requires whole { IsWhole lines.old }
    ensures says { Says K.Sink (ChosenAnswer program.now.text (as_played (trees_of program.now)) task.now.request.now
        task.now.devices.now chosen.now) ⊥ lines.old lines.new result }
    ensures kinds { map kind_of rack.new.items ≡ map kind_of rack.old.items }
{
    let ending = play_with_account(alloc, program, code, chosen, task, rack, lines)?;
    Ok(status_of(ending))
}

// Plays a program with an account, as a task asks for it, by the code of the program.
fn play_by_code<K: Sink>(
    alloc: Global,
    program: &Program,
    code: &Code,
    task: &Task,
    rack: &mut Vec<Box<dyn Device>>,
    lines: &mut Lines<K>,
) -> Result<Status, NoAnswer>
    requires program { IsProgram program.now.text (trees_of program.now) }
    requires code { IsCodeOf (as_played (trees_of program.now)) code.now }
    requires devices { CanBeFitted task.now.devices.now }
    requires rack { IsRack (map kind_of rack.old.items) }
    requires whole { IsWhole lines.old }
    ensures says { Says K.Sink (ProgramAnswer program.now.text (trees_of program.now) task.now.request.now
        task.now.devices.now) ⊥ lines.old lines.new result }
    ensures kinds { map kind_of rack.new.items ≡ map kind_of rack.old.items }
{
    programs_are_typed();
    match choose_asked(alloc, code, task.request) {
        Ok(chosen) if has_place(task) => {
            play_chosen(alloc, program, code, &chosen, task, rack, lines)
        }
        Ok(_) => {
            lines.put(b"R place\n")?;
            Ok(Status::BadPlace)
        }
        Err(ChoiceRefused::NoAction) => {
            lines.put(b"R action\n")?;
            Ok(Status::NoAction)
        }
        Err(ChoiceRefused::BadChoice) => {
            lines.put(b"R choice\n")?;
            Ok(Status::BadChoice)
        }
        Err(ChoiceRefused::Memory) => Err(NoAnswer::Memory),
    }
}

/// Plays a program with an account, as a task asks for it. Each device of the rack keeps its kind.
pub(crate) fn play_program<K: Sink>(
    alloc: Global,
    program: &Program,
    task: &Task,
    rack: &mut Vec<Box<dyn Device>>,
    lines: &mut Lines<K>,
) -> Result<Status, NoAnswer>
    requires program { IsProgram program.now.text (trees_of program.now) }
    requires devices { CanBeFitted task.now.devices.now }
    requires rack { IsRack (map kind_of rack.old.items) }
    requires whole { IsWhole lines.old }
    ensures says { Says K.Sink (ProgramAnswer program.now.text (trees_of program.now) task.now.request.now
        task.now.devices.now) ⊥ lines.old lines.new result }
    ensures kinds { map kind_of rack.new.items ≡ map kind_of rack.old.items }
{
    let code = generate(alloc, program)?;
    play_by_code(alloc, program, &code, task, rack, lines)
}
