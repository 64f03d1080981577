//! Laws of the definitions.
ghost use Rattle.std.specs.Prelude.{◌≡◌, ◌⊎◌, ℕ, true, false, List, Bool, All, Some, map, codes};
ghost use Rattle.dev_card.specs.declared.desc.Desc.{Desc};
ghost use Rattle.dev_card.specs.Descriptions.{IsGood};
ghost use Rattle.dev_card.specs.FarEnds.{Told};
ghost use Rattle.dev_card.specs.Padding.{BaseLengths};
ghost use Rattle.stapl_meaning.specs.declared.events.Ending.{Ending};
ghost use Rattle.stapl_meaning.specs.Scopes.{Played};
ghost use Rattle.stapl_meaning.specs.Plays.{play, ending_of};
ghost use Rattle.stapl_meaning.specs.Texts.{text_of};
ghost use Rattle.dev_card.specs.Card.{Card, fresh};
ghost use Rattle.pin_lines.specs.PinLines.{has_bad_line, pins_in};
ghost use Rattle.pin_lines.specs.FirstFaults.{IsFirstBadLine, IsFirstDifference};
ghost use Rattle.pin_lines.specs.Traces.{IsTraceOf, Agrees, asked_lines};

/// The text with pins of a play on a board of new devices has no bad line, its clocks are those of that board, and they
/// lead to the board after the play. A report of some neighbours in that board may be in it.
pub fn a_play_with_pins_is_a_trace_of_its_board()
    ensures { (program : Played) (chosen : List ℕ) (n : ℕ) (base : BaseLengths) (devices : List Desc) (ending : Ending)
        (report : Bool) (first count : ℕ) → All IsGood devices →
        let run = play program chosen n base (Told (map fresh devices)) in
        ending_of run.outcome ≡ Some ending →
        IsTraceOf (map fresh devices)
        (text_of true run.events (asked_lines report first count run.chain.far) ending) run.chain.far }
{}

/// A text has no bad line, or exactly one first bad line.
pub fn a_text_has_one_first_bad_line()
    ensures some { (text : List ℕ) → (has_bad_line text ≡ false) ⊎ ((n : ℕ) × IsFirstBadLine text n) }
    ensures one { (text : List ℕ) (n m : ℕ) → IsFirstBadLine text n → IsFirstBadLine text m → n ≡ m }
    ensures none { (text : List ℕ) (n : ℕ) → IsFirstBadLine text n → has_bad_line text ≡ false → ⊥ }
{}

/// A board answers clocks as they say, or exactly one of them is the first that it answers otherwise.
pub fn a_board_answers_one_first_clock_otherwise()
    ensures some { (board : List Card) (digits : List ℕ) →
        Agrees board digits ⊎ ((i : ℕ) × IsFirstDifference board digits i) }
    ensures one { (board : List Card) (digits : List ℕ) (i j : ℕ) →
        IsFirstDifference board digits i → IsFirstDifference board digits j → i ≡ j }
    ensures none { (board : List Card) (digits : List ℕ) (i : ℕ) →
        IsFirstDifference board digits i → Agrees board digits → ⊥ }
{}

/// A play's text has its clocks and no bad line; a digit above 7, none at all or a carriage return make a line of
/// clocks bad; the last line may lack its line feed; lines that begin otherwise are skipped.
pub fn examples_of_lines_of_clocks()
    ensures clocks { pins_in (codes "C 5555515112161551\nX X = $2\nE exit 0\n") ≡ codes "5555515112161551" }
    ensures good { has_bad_line (codes "C 5555515112161551\nX X = $2\nE exit 0\n") ≡ false }
    ensures eight { has_bad_line (codes "C 58\n") ≡ true }
    ensures none { has_bad_line (codes "C \n") ≡ true }
    ensures carriage { has_bad_line (codes "C 55\r\n") ≡ true }
    ensures feed { pins_in (codes "C 55\nW 5\nC 1") ≡ codes "551" }
    ensures others { has_bad_line (codes "C\n C 9\nCC 9\nc 9\n\n") ≡ false }
{}
