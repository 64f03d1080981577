//! Laws of loops.
ghost use Rattle.std.specs.Prelude.{◌≡◌, ◌≢◌, ℕ, ℤ, pos, List, Option};
ghost use Rattle.stapl_syntax.specs.Trees.{ExprTree, for_loop, next};
ghost use Rattle.stapl_meaning.specs.declared.values.Held.TheVariants as held;
ghost use Rattle.stapl_meaning.specs.States.{State};
ghost use Rattle.stapl_meaning.specs.Scopes.{Played, scope_at};
ghost use Rattle.effect_laws.specs.Given.{StandsAt, HasInteger, HasRoom, Holds, number_at};
ghost use Rattle.effect_laws.specs.Loops.{StepIs, GoesRound};

/// FOR gives its variable the first value, and the body follows. NEXT adds the step and goes back after FOR as long as
/// the variable is short of the limit; if it has come to it or past it, NEXT goes on after itself, with the records as
/// they were before FOR. So the body is played once, and once more for each step that is taken to come to the limit.
pub fn a_loop_goes_round_until_its_limit()
    ensures { (program : Played) (i j : ℕ) (s : State) (name same : List ℕ) (from to : ExprTree)
        (step : Option ExprTree) (first limit by old : ℤ) → StandsAt program i (for_loop name from to step) →
        HasInteger (scope_at program i).look s from first → HasInteger (scope_at program i).look s to limit →
        StepIs (scope_at program i).look s step by → by ≢ pos 0 → HasRoom s →
        Holds s (number_at program i name) (held.Int old) → StandsAt program j (next same) →
        number_at program j same ≡ number_at program i name →
        GoesRound program i j (number_at program i name) s first limit by }
{}
