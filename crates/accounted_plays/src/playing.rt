//! A play with its account.
ghost use Rattle.std.specs.Prelude.{◌≡◌, map};
ghost use Rattle.tool_io.specs.Lines.{IsWhole};
ghost use Rattle.tool_frame.specs.Answers.{Says};
ghost use Rattle.stapl_syntax.specs.Programs.{IsProgram};
ghost use Rattle.stapl_syntax.specs.ProgramValues.{trees_of};
ghost use Rattle.stapl_meaning.specs.Scopes.{as_played};
ghost use Rattle.stapl_codegen.specs.Generated.{IsCodeOf};
ghost use Rattle.chain_sim.specs.Rack.{IsRack};
ghost use Rattle.code_plays.specs.CodePlays.{IsPlayable};
ghost use Rattle.accounted_plays.specs.Accounted.{IsAccounted};

use crate::laws_of_code::{check_room, check_turns};
use crate::putting::put_account;
use crate::rooms::runs_for;
use account_plays::Course;
use chain_sim::fit_board;
use code_plays::{Task, base_of};
use dev_card::Device;
use stapl_machine::Machine;
use stapl_meaning::Ending;
use stapl_syntax::Program;
use std::alloc::Global;
use tool_frame::NoAnswer;
use tool_io::{Lines, Sink};
use turn_table::{most_states, turn_table};
use valid_codes::Code;

/// Plays the chosen procedures of a program by its code, which are told by their numbers, as a task asks for it: on its
/// board, which is fitted into the rack, for at most so many turns. It puts the text of the play with its account, and
/// answers how the play ended. Each device of the rack keeps its kind.
///
/// `Write` comes only if the count of the sink rose, or stands at its last value; `Memory` is want of memory, and then
/// nothing has reached the sink. `Read` never comes.
pub fn play_with_account<K: Sink>(
    alloc: Global,
    program: &Program,
    code: &Code,
    chosen: &[u32],
    task: &Task,
    rack: &mut Vec<Box<dyn Device>>,
    lines: &mut Lines<K>,
) -> Result<Ending, NoAnswer>
    requires program { IsProgram program.now.text (trees_of program.now) }
    requires code { IsCodeOf (as_played (trees_of program.now)) code.now }
    requires playable { IsPlayable code.now chosen.now task.now }
    requires rack { IsRack (map kind_of rack.old.items) }
    requires whole { IsWhole lines.old }
    ensures says { Says K.Sink (IsAccounted program.now.text (as_played (trees_of program.now)) task.now.request.now
        task.now.devices.now chosen.now) ⊥ lines.old lines.new result }
    ensures kinds { map kind_of rack.new.items ≡ map kind_of rack.old.items }
{
    let base = base_of(task);
    let places = fit_board(alloc, rack, task.devices)?;
    let machine = Machine::prepare(alloc, code)?;
    let table = turn_table(alloc, program)?;
    let mut runs = runs_for(alloc, &base, most_states(program))?;
    check_turns(program, code, chosen, &base, task, &table);
    check_room(program, code, chosen, &base, task, &table, &runs);
    let course = Course {
        code: code.raw().lists(),
        chosen,
        base,
        table: &table,
    };
    let ending = put_account(machine, &course, task, rack, &places, &mut runs, lines)?;
    Ok(ending)
}
