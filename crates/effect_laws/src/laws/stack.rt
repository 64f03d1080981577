//! Laws of the record stack.
ghost use Rattle.std.specs.Prelude.{◌≡◌, ◌+◌, ℕ, List, []};
ghost use Rattle.stapl_syntax.specs.Trees.{ExprTree, scalar, push, pop};
ghost use Rattle.stapl_meaning.specs.declared.values.Value.{Value};
ghost use Rattle.stapl_meaning.specs.declared.values.Held.{Held};
ghost use Rattle.stapl_meaning.specs.States.{State, Leads};
ghost use Rattle.stapl_meaning.specs.Scopes.{Played, scope_at};
ghost use Rattle.stapl_meaning.specs.Turns.{turn};
ghost use Rattle.effect_laws.specs.Given.{StandsAt, HasValue, HasRoom, Holds, number_at};
ghost use Rattle.effect_laws.specs.Stack.{Receives, TakesBack};

/// POP gives a variable what PUSH put on the records, and leaves the records as they were before PUSH. What was done
/// between them does not matter if the records are as PUSH left them.
pub fn pop_gives_what_was_pushed()
    ensures { (program : Played) (i j : ℕ) (s : State) (e : ExprTree) (v : Value) (name : List ℕ) (old new : Held) →
        StandsAt program i (push e) → HasValue (scope_at program i).look s e v → HasRoom s →
        StandsAt program j (pop (scalar name)) → Receives ((scope_at program j).look.kind name) old v new →
        (t : State) × (turn program i s ≡ Leads [] (i + 1) t) × ((u : State) → u.records ≡ t.records →
        Holds u (number_at program j name) old → TakesBack program j u s name new) }
{}
