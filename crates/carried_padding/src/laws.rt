//! Laws of programs that carry the padding for a run of a board.
ghost use Rattle.std.specs.Prelude.{◌≡◌, ◌≤◌, ℕ, false, List, All, Some, length};
ghost use Rattle.stapl_syntax.specs.Programs.{IsProgram};
ghost use Rattle.stapl_syntax.specs.Trees.{StmtTree};
ghost use Rattle.dev_card.specs.declared.desc.Desc.{Desc};
ghost use Rattle.dev_card.specs.Board.{most_devices};
ghost use Rattle.dev_card.specs.Descriptions.{IsGood};
ghost use Rattle.dev_card.specs.Padding.{Neighbours, base_lengths};
ghost use Rattle.stapl_meaning.specs.Plays.{Run};
ghost use Rattle.carried_plays.specs.CarriedPrograms.{IsEnd, carried_with};
ghost use Rattle.carried_plays.specs.CarriedTexts.{IsCarriedText, IsTooLarge};
ghost use Rattle.carried_plays.specs.OwnPaddings.{has_own_padding};
ghost use Rattle.carried_plays.specs.PadNames.{IsFree};
ghost use Rattle.carried_padding.specs.CarriedPadding.{AreSamePlays, HaveSameText, CarriesPaddingOf};

use carried_plays::laws::{
    a_carried_text_is_a_program, a_carried_text_is_a_program_or_too_large,
    a_play_carries_its_padding, base_padding_is_short,
};
use stapl_codegen::laws::{programs_are_accepted, programs_are_not_stuck};

/// A program without paddings of its own that carries the padding for a run of a board plays on the whole board as the
/// program does with base padding for the run: for every choice and number of turns it has the same events, clocks
/// among them, outcome, variables and board after five turns more. The value of its CRC may be another one.
pub fn a_program_carries_its_padding()
    ensures { (text : List ℕ) (end program : List StmtTree) (name : List ℕ) (devices : List Desc) (run : Neighbours) →
        IsProgram text program → has_own_padding program ≡ false → IsFree name program → IsEnd end →
        All IsGood devices → length devices ≤ most_devices →
        CarriesPaddingOf devices run program (carried_with name (base_lengths devices (Some run)) end program) }
{
    a_play_carries_its_padding();
    base_padding_is_short();
    programs_are_accepted();
    programs_are_not_stuck();
}

/// The text of the program that carries the padding for a run of a board is a program, if it is not too large. The
/// program that is read from it plays on the whole board as the program does with base padding for the run.
pub fn a_carried_text_plays_as_its_program_with_base_padding()
    ensures accepted { (text new : List ℕ) (program : List StmtTree) (devices : List Desc) (run : Neighbours) →
        IsProgram text program → All IsGood devices → length devices ≤ most_devices →
        IsCarriedText (base_lengths devices (Some run)) program new →
        ¬ IsTooLarge (base_lengths devices (Some run)) program → (own : List StmtTree) × IsProgram new own }
    ensures plays { (text new : List ℕ) (program own : List StmtTree) (devices : List Desc) (run : Neighbours) →
        IsProgram text program → has_own_padding program ≡ false →
        All IsGood devices → length devices ≤ most_devices →
        IsCarriedText (base_lengths devices (Some run)) program new → IsProgram new own →
        CarriesPaddingOf devices run program own }
{
    a_carried_text_is_a_program();
    a_carried_text_is_a_program_or_too_large();
    a_program_carries_its_padding();
    base_padding_is_short();
}

/// Plays that are the same have the same text, with the clocks or without them, and the same ending.
pub fn the_same_plays_have_the_same_text()
    ensures { (padded carried : Run) → AreSamePlays padded carried → HaveSameText padded carried }
{}
