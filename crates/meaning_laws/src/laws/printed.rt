//! Laws of canonical text and plays.
ghost use Rattle.std.specs.Prelude.{◌≡◌, ℕ, List, map};
ghost use Rattle.dev_card.specs.Padding.{BaseLengths};
ghost use Rattle.dev_card.specs.FarEnds.{FarEnd};
ghost use Rattle.stapl_syntax.specs.Trees.{StmtTree};
ghost use Rattle.stapl_syntax.specs.Programs.{IsProgram};
ghost use Rattle.stapl_meaning.specs.Choices.{choice_of};
ghost use Rattle.stapl_meaning.specs.Plays.{play};
ghost use Rattle.stapl_meaning.specs.Scopes.{as_played};
ghost use Rattle.canonical_text.specs.CanonicalText.{canonical_text, plain};

/// Programs whose statements are equal with the values of CRC left out play alike, whatever is chosen, for however many
/// turns, and over whatever chain: the plays have the same events, the same outcome and the same states. And the same
/// names can be chosen in both.
pub fn plays_are_equal()
    ensures play { (a b : List StmtTree) (chosen : List ℕ) (n : ℕ) (base : BaseLengths) (far : FarEnd) →
        map plain a ≡ map plain b → play (as_played a) chosen n base far ≡ play (as_played b) chosen n base far }
    ensures choice { (a b : List StmtTree) (name : List ℕ) (asked skipped : List (List ℕ)) →
        map plain a ≡ map plain b →
        choice_of (as_played a) name asked skipped ≡ choice_of (as_played b) name asked skipped }
{}

/// The program that the canonical text of a program is plays as that program does, and the same names can be chosen in
/// both.
pub fn canonical_text_plays_alike()
    ensures play { (text : List ℕ) (statements own : List StmtTree) (chosen : List ℕ) (n : ℕ) (base : BaseLengths)
        (far : FarEnd) → IsProgram text statements → IsProgram (canonical_text statements) own →
        play (as_played own) chosen n base far ≡ play (as_played statements) chosen n base far }
    ensures choice { (text : List ℕ) (statements own : List StmtTree) (name : List ℕ) (asked skipped : List (List ℕ)) →
        IsProgram text statements → IsProgram (canonical_text statements) own →
        choice_of (as_played own) name asked skipped ≡ choice_of (as_played statements) name asked skipped }
{}
