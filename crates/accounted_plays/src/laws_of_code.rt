//! What the proofs need of the play of a code: no call does anything.
ghost use Rattle.std.specs.Prelude.{◌≡◌, length, ℕ};
ghost use Rattle.scan_paths.specs.Scans.{lengths_of};
ghost use Rattle.stapl_syntax.specs.Programs.{IsProgram};
ghost use Rattle.stapl_syntax.specs.ProgramValues.{trees_of};
ghost use Rattle.stapl_meaning.specs.Scopes.{as_played};
ghost use Rattle.stapl_code.specs.Safe.{AllBelow};
ghost use Rattle.stapl_codegen.specs.Generated.{IsCodeOf};
ghost use Rattle.code_plays.specs.CodePlays.{HasEnding};
ghost use Rattle.scan_accounts.specs.Rooms.{most_states};
ghost use Rattle.turn_table.specs.Tables.{IsTurnTable};
ghost use Rattle.accounted_plays.specs.CodeAccounts.{plays_at, CanAccount, AreFirstRuns, TellsProgram};

use account_lines::TurnPlace;
use account_meaning::laws::{
    a_code_has_the_turns_of_its_program, each_turn_of_a_code_is_told,
    the_scans_of_a_code_are_those_of_its_program, the_text_of_a_code_is_that_of_its_program,
    the_turns_of_a_code_fit_the_room,
};
use code_plays::Task;
use run_cable::Runs;
use scan_paths::BasePads;
use stapl_code::laws::never_stuck;
use stapl_meaning::laws::programs_are_typed;
use stapl_syntax::Program;
use valid_codes::Code;

// Each play of a code comes to an ending.
fn check_endings(code: &Code, chosen: &[u32], base: &BasePads, task: &Task)
    requires { AllBelow (length code.now.procedures) chosen.now }
    ensures { (n : ℕ) → HasEnding (plays_at code.now chosen.now (lengths_of base.now) task.now.devices.now n) }
{
    let _raw = code.raw();
    never_stuck();
}

/// What the turns of plays of a code tell of its program.
pub(crate) fn check_turns(
    program: &Program,
    code: &Code,
    chosen: &[u32],
    base: &BasePads,
    task: &Task,
    table: &[TurnPlace],
)
    requires program { IsProgram program.now.text (trees_of program.now) }
    requires code { IsCodeOf (as_played (trees_of program.now)) code.now }
    requires table { IsTurnTable program.now.text (trees_of program.now) table.now }
    requires below { AllBelow (length code.now.procedures) chosen.now }
    ensures { TellsProgram program.now.text (trees_of program.now) code.now table.now chosen.now (lengths_of base.now)
        task.now.devices.now }
{
    check_endings(code, chosen, base, task);
    let _raw = code.raw();
    a_code_has_the_turns_of_its_program();
    the_text_of_a_code_is_that_of_its_program();
    the_scans_of_a_code_are_those_of_its_program();
}

/// A code can be played with an account, in the room that its program needs.
pub(crate) fn check_room(
    program: &Program,
    code: &Code,
    chosen: &[u32],
    base: &BasePads,
    task: &Task,
    table: &[TurnPlace],
    runs: &Runs,
)
    requires program { IsProgram program.now.text (trees_of program.now) }
    requires code { IsCodeOf (as_played (trees_of program.now)) code.now }
    requires table { IsTurnTable program.now.text (trees_of program.now) table.now }
    requires below { AllBelow (length code.now.procedures) chosen.now }
    requires room { AreFirstRuns (lengths_of base.now) (most_states (trees_of program.now)) runs.now }
    ensures { CanAccount code.now table.now chosen.now (lengths_of base.now) task.now.devices.now runs.now }
{
    check_endings(code, chosen, base, task);
    let _raw = code.raw();
    programs_are_typed();
    each_turn_of_a_code_is_told();
    the_turns_of_a_code_fit_the_room();
}
