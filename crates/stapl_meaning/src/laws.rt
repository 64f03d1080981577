//! Laws of the definitions.
ghost use Rattle.std.specs.Prelude.{◌≡◌, ℕ, ◌+◌, List, Some};
ghost use Rattle.stapl_syntax.specs.Trees.{StmtTree};
ghost use Rattle.stapl_syntax.specs.Programs.{IsProgram};
ghost use Rattle.stapl_meaning.specs.Deeds.{Chain};
ghost use Rattle.stapl_meaning.specs.SaidEvents.{TurnSaysNoClock};
ghost use Rattle.stapl_meaning.specs.States.{State, Turned};
ghost use Rattle.stapl_meaning.specs.Scopes.{Played, as_played};
ghost use Rattle.stapl_meaning.specs.Turns.{IsTurn, turn, IsFound};
ghost use Rattle.stapl_meaning.specs.declared.events.Ending.TheVariants.{Spent};
ghost use Rattle.stapl_meaning.specs.Plays.{run, then_runs, beginning, procedures_run, ending_of, IsGoing};
ghost use Rattle.stapl_meaning.specs.Typed.{IsTyped};

/// A statement does what the function gives, and where the function finds something to do, the statement does that.
pub fn turns_are_computed()
    ensures once { (program : Played) (i : ℕ) (s : State) (turned : Turned) → IsTurn program i s turned → (turn program i s ≡ turned) × IsFound turned }
    ensures found { (program : Played) (i : ℕ) (s : State) → IsFound (turn program i s) → IsTurn program i s (turn program i s) }
{}

/// A state has at most one turn.
pub fn one_turn()
    ensures { (program : Played) (i : ℕ) (s : State) (a b : Turned) → IsTurn program i s a → IsTurn program i s b → a ≡ b }
{}

/// No turn says a clock, and neither does the beginning of a play: clocks come from moves, stays and scans alone.
pub fn no_turn_says_a_clock()
    ensures turns { (program : Played) (i : ℕ) (s : State) → TurnSaysNoClock (turn program i s) }
    ensures beginning { (program : Played) (s : State) → TurnSaysNoClock (beginning program s) }
{}

/// A run of n + m turns is a run of n turns, and then one of m.
pub fn runs_follow_each_other()
    ensures { (program : Played) (n m i : ℕ) (s : State) (k : Chain) →
        run program (n + m) i s k ≡ then_runs (run program n i s k) (run program m) }
{}

/// A run of chosen procedures is spent only if it still goes on after its turns.
pub fn only_a_run_that_goes_on_is_spent()
    ensures { (program : Played) (chosen : List ℕ) (n : ℕ) (k : Chain) →
        ending_of (procedures_run program chosen n k).outcome ≡ Some Spent → IsGoing (procedures_run program chosen n k).outcome }
{}

/// Each program is typed.
pub fn programs_are_typed()
    ensures { (text : List ℕ) (program : List StmtTree) → IsProgram text program → IsTyped (as_played program) }
{}
