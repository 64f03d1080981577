//! Laws of the definitions.
ghost use Rattle.std.specs.Prelude.{◌≡◌, ◌≤◌, ◌<◌, ◌^◌, ◌⊎◌, ℕ, Bool, List, flat_map, length};
ghost use Rattle.stapl_lexer.specs.declared.piece.Piece.{Piece};
ghost use Rattle.stapl_lexer.specs.Pieces.{IsCut};
ghost use Rattle.stapl_syntax.specs.Trees.{StmtTree};
ghost use Rattle.stapl_syntax.specs.Programs.{IsProgram};
ghost use Rattle.dev_card.specs.Padding.{BaseLengths};
ghost use Rattle.dev_card.specs.FarEnds.{FarEnd};
ghost use Rattle.stapl_meaning.specs.Scopes.{Played, as_played};
ghost use Rattle.stapl_meaning.specs.Plays.{chain_reset};
ghost use Rattle.stapl_code.specs.declared.raw.CodeLists.{CodeLists};
ghost use Rattle.stapl_codegen.specs.Generated.{IsCodeOf};
ghost use Rattle.stapl_machine.specs.Machines.{play_of};
ghost use Rattle.scan_accounts.specs.MadeTurns.{MadeTurn, made_play};
ghost use Rattle.scan_accounts.specs.Accounts.{passages, scans_among};
ghost use Rattle.scan_accounts.specs.AccountTexts.{turn_lines};
ghost use Rattle.scan_accounts.specs.Rooms.{most_states, turn_bits, turn_runs};
ghost use Rattle.run_cable.specs.KeptRuns.{Kept};
ghost use Rattle.code_plays.specs.CodePlays.{HasEnding};
ghost use Rattle.account_lines.specs.declared.lines.TurnPlace.{TurnPlace};
ghost use Rattle.account_plays.specs.AccountedRuns.{turns_text, turns_scans, AreNextCodeTurns, AreTold, HaveRoom, HasStopped};
ghost use Rattle.turn_table.specs.Tables.{IsTurnTable};
ghost use Rattle.account_meaning.specs.Tables.{TellsScans};

use scan_accounts::laws::{a_turn_has_runs_or_lines, turns_fit_the_room};

/// The turns of the plays of the code of a program, one after another and all of them, are those of the play of the
/// program, as it was made: their pieces, whether they scan, the states before them, and their events.
pub fn a_code_has_the_turns_of_its_program()
    ensures { (program : Played) (code : CodeLists) (table : List TurnPlace) (chosen : List ℕ) (n : ℕ) (base : BaseLengths)
        (far : FarEnd) (turns : List MadeTurn) → IsCodeOf program code → length code.instrs < 2 ^ 32 → TellsScans program table →
        AreNextCodeTurns code table (λ m. play_of code chosen m (chain_reset base far)) turns → length turns ≤ n →
        (length turns ≡ n) ⊎ HasStopped (play_of code chosen (length turns) (chain_reset base far)) →
        turns ≡ (made_play program chosen n base far).turns }
{}

/// With the table of a program, the text of the turns of its code is that of the turns of its play, as an account of the
/// play says it.
pub fn the_text_of_a_code_is_that_of_its_program()
    ensures { (text : List ℕ) (program : List StmtTree) (pieces : List Piece) (code : CodeLists) (table : List TurnPlace)
        (chosen : List ℕ) (n : ℕ) (base : BaseLengths) (far : FarEnd) (turns : List MadeTurn) → IsProgram text program →
        IsCut text pieces → IsTurnTable text program table → IsCodeOf (as_played program) code →
        length code.instrs < 2 ^ 32 →
        AreNextCodeTurns code table (λ m. play_of code chosen m (chain_reset base far)) turns → length turns ≤ n →
        (length turns ≡ n) ⊎ HasStopped (play_of code chosen (length turns) (chain_reset base far)) →
        turns_text table base turns ≡ flat_map (turn_lines (record { text = text; pieces = pieces }) base)
        (made_play (as_played program) chosen n base far).turns }
{
    a_turn_has_runs_or_lines();
}

/// So are the scans among them, of the instruction registers and of the data registers.
pub fn the_scans_of_a_code_are_those_of_its_program()
    ensures { (program : Played) (code : CodeLists) (table : List TurnPlace) (chosen : List ℕ) (n : ℕ) (base : BaseLengths)
        (far : FarEnd) (turns : List MadeTurn) (ir : Bool) → IsCodeOf program code → length code.instrs < 2 ^ 32 →
        TellsScans program table → AreNextCodeTurns code table (λ m. play_of code chosen m (chain_reset base far)) turns →
        length turns ≤ n → (length turns ≡ n) ⊎ HasStopped (play_of code chosen (length turns) (chain_reset base far)) →
        turns_scans table ir turns ≡ scans_among ir (passages (made_play program chosen n base far)) }
{}

/// The table of a program tells each turn of its code, if all plays of the code come to an ending.
pub fn each_turn_of_a_code_is_told()
    ensures { (text : List ℕ) (program : List StmtTree) (code : CodeLists) (table : List TurnPlace) (chosen : List ℕ)
        (base : BaseLengths) (far : FarEnd) → IsProgram text program → IsTurnTable text program table →
        IsCodeOf (as_played program) code → length code.instrs < 2 ^ 32 →
        ((n : ℕ) → HasEnding (play_of code chosen n (chain_reset base far))) →
        AreTold code table (λ n. play_of code chosen n (chain_reset base far)) }
{}

/// There is room for the runs of each turn of the code of a program, where there is room for the bits of the longest scan
/// with its base padding and of the longest list of states, and for a run more than this has states.
pub fn the_turns_of_a_code_fit_the_room()
    ensures { (text : List ℕ) (program : List StmtTree) (code : CodeLists) (table : List TurnPlace) (chosen : List ℕ)
        (base : BaseLengths) (far : FarEnd) (kept : Kept) → IsProgram text program → IsTurnTable text program table →
        IsCodeOf (as_played program) code → length code.instrs < 2 ^ 32 →
        turn_bits base (most_states program) ≤ kept.room.bits → turn_runs (most_states program) ≤ kept.room.runs →
        HaveRoom code table kept (λ n. play_of code chosen n (chain_reset base far)) }
{
    turns_fit_the_room();
}
