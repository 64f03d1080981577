//! Laws of programs that carry their own padding.
ghost use Rattle.std.specs.Prelude.{◌≡◌, ◌≤◌, ◌+◌, ℕ, true, false, List, ◌++◌, All, Some, length, codes};
ghost use Rattle.stapl_lexer.specs.Pieces.{text_limit};
ghost use Rattle.stapl_syntax.specs.Programs.{piece_limit, IsProgram};
ghost use Rattle.stapl_syntax.specs.Trees.{StmtTree};
ghost use Rattle.canonical_text.specs.CanonicalText.{checked_statements, lines};
ghost use Rattle.canonical_text.specs.Printable.{CanBePrinted};
ghost use Rattle.dev_card.specs.declared.desc.Desc.{Desc};
ghost use Rattle.dev_card.specs.Board.{most_devices};
ghost use Rattle.dev_card.specs.Descriptions.{IsGood};
ghost use Rattle.dev_card.specs.Padding.{BaseLengths, Neighbours, base_lengths};
ghost use Rattle.carried_plays.specs.CarriedPrograms.{IsEnd, carried_with, carried_program};
ghost use Rattle.carried_plays.specs.CarriedRules.{BreaksNoRule};
ghost use Rattle.carried_plays.specs.CarriedRuns.{AreShort, CarriesPadding};
ghost use Rattle.carried_plays.specs.CarriedTexts.{carried_text, IsCarriedText, IsTooLarge};
ghost use Rattle.carried_plays.specs.Examples.{scanning_program, middle_base, named_program, padding_program};
ghost use Rattle.carried_plays.specs.OwnPaddings.{has_own_padding, IsFirstPadding};
ghost use Rattle.carried_plays.specs.PadNames.{pad_name, IsFree, IsPadNumber};

use stapl_meaning::laws::programs_are_typed;

/// A program without paddings of its own that carries those of a base plays as it does with base padding. The value of
/// its CRC may be another one.
pub fn a_play_carries_its_padding()
    ensures { (text : List ℕ) (end program : List StmtTree) (name : List ℕ) (base : BaseLengths) →
        IsProgram text program → has_own_padding program ≡ false → IsFree name program → IsEnd end →
        AreShort base → CarriesPadding name base end program }
{
    programs_are_typed();
}

/// No statement of a program that carries its padding breaks a rule, no block is open at its end, and it has an ACTION,
/// as the program without it.
pub fn a_program_that_carries_its_padding_breaks_no_rule()
    ensures { (text : List ℕ) (end program : List StmtTree) (name : List ℕ) (base : BaseLengths) →
        IsProgram text program → IsFree name program → IsEnd end → BreaksNoRule (carried_with name base end program) }
{}

/// Exactly one number is the least whose name no block has, and it is at most the number of pieces.
pub fn there_is_one_free_name()
    ensures some { (text : List ℕ) (program : List StmtTree) → IsProgram text program →
        (n : ℕ) × (n ≤ length program) × IsPadNumber program n }
    ensures one { (program : List StmtTree) (n m : ℕ) → IsPadNumber program n → IsPadNumber program m → n ≡ m }
{}

/// A program with a padding of its own has exactly one first piece that sets one, and a program without has none.
pub fn there_is_one_first_padding()
    ensures some { (program : List StmtTree) → has_own_padding program ≡ true →
        (n : ℕ) × (n ≤ length program) × IsFirstPadding program n }
    ensures none { (program : List StmtTree) (n : ℕ) → has_own_padding program ≡ false → ¬ IsFirstPadding program n }
    ensures one { (program : List StmtTree) (n m : ℕ) → IsFirstPadding program n → IsFirstPadding program m → n ≡ m }
{}

/// The base padding for a run of a board is short enough for a program to set it.
pub fn base_padding_is_short()
    ensures { (devices : List Desc) (run : Neighbours) → All IsGood devices → length devices ≤ most_devices →
        AreShort (base_lengths devices (Some run)) }
{}

/// The text of a program that carries its padding is a program, of the statements that are stated and of no others, if
/// it is short enough and has few enough pieces. These are six more than those of the program, and all can be printed.
pub fn a_carried_text_is_a_program()
    ensures program { (text : List ℕ) (program : List StmtTree) (base : BaseLengths) (n : ℕ) → IsProgram text program →
        IsPadNumber program n → AreShort base → length program + 6 ≤ piece_limit →
        length (carried_text n base program) ≤ text_limit →
        IsProgram (carried_text n base program) (checked_statements (carried_program (pad_name n) base program)) }
    ensures read { (text : List ℕ) (program own : List StmtTree) (base : BaseLengths) (n : ℕ) →
        IsProgram text program → IsPadNumber program n → AreShort base → IsProgram (carried_text n base program) own →
        own ≡ checked_statements (carried_program (pad_name n) base program) }
    ensures printed { (text : List ℕ) (program : List StmtTree) (base : BaseLengths) (n : ℕ) → IsProgram text program →
        IsPadNumber program n → AreShort base → All CanBePrinted (carried_program (pad_name n) base program) }
    ensures pieces { (name : List ℕ) (base : BaseLengths) (program : List StmtTree) →
        length (carried_program name base program) ≡ length program + 6 }
{}

/// The text of a program that carries its padding is a program exactly if it is not too large.
pub fn a_carried_text_is_a_program_or_too_large()
    ensures program { (text new : List ℕ) (program : List StmtTree) (base : BaseLengths) → IsProgram text program →
        AreShort base → IsCarriedText base program new → ¬ IsTooLarge base program →
        (own : List StmtTree) × IsProgram new own }
    ensures too_large { (text new : List ℕ) (program own : List StmtTree) (base : BaseLengths) →
        IsProgram text program → AreShort base → IsCarriedText base program new → IsProgram new own →
        ¬ IsTooLarge base program }
{}

/// There is exactly one text of the program that carries a padding.
pub fn there_is_one_carried_text()
    ensures some { (text : List ℕ) (program : List StmtTree) (base : BaseLengths) → IsProgram text program →
        (new : List ℕ) × IsCarriedText base program new }
    ensures one { (base : BaseLengths) (program : List StmtTree) (a b : List ℕ) → IsCarriedText base program a →
        IsCarriedText base program b → a ≡ b }
{}

/// Examples: a program that carries a padding, one whose blocks have the names with the numbers 0 and 2, and one whose
/// fourth piece sets a padding inside IF.
pub fn examples_of_carried_programs()
    ensures text { carried_text 0 middle_base scanning_program
        ≡ codes "ACTION A = CHAIN_PAD_0, P;\nPROCEDURE P;\nBOOLEAN X[8];\nIRSCAN 4, $2;\nDRSCAN 8, $A5;\n"
        ++ codes "DRSCAN 8, $3C, CAPTURE X[];\nEXPORT \"X\", X[];\nENDPROC;\nPROCEDURE CHAIN_PAD_0;\nPREIR 2;\n"
        ++ codes "POSTIR 5;\nPREDR 1;\nPOSTDR 1;\nENDPROC;\n" }
    ensures lines { lines (carried_program (pad_name 1) middle_base named_program)
        ≡ codes "ACTION A \"t\" = CHAIN_PAD_1, CHAIN_PAD_0 OPTIONAL;\nACTION B = CHAIN_PAD_1, CHAIN_PAD_0;\n"
        ++ codes "PROCEDURE CHAIN_PAD_0;\nENDPROC;\nDATA CHAIN_PAD_2;\nENDDATA;\nPROCEDURE CHAIN_PAD_1;\nPREIR 2;\n"
        ++ codes "POSTIR 5;\nPREDR 1;\nPOSTDR 1;\nENDPROC;\nCRC 1234;\n" }
    ensures number { IsPadNumber named_program 1 }
    ensures padding { IsFirstPadding padding_program 4 }
{}
