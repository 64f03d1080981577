//! Laws of what WAIT and FREQUENCY do.
ghost use Rattle.std.specs.Prelude.{◌≡◌, ◌≤◌, ◌+◌, ℕ, suc, pos, List, [], ◌∷◌, Option, Some, None};
ghost use Rattle.stapl_syntax.specs.Trees.{ExprTree, wait_cycles, wait_usec, frequency};
ghost use Rattle.tap_states.specs.declared.Tap.{Tap};
ghost use Rattle.stapl_meaning.specs.declared.events.Event.TheVariants.{Usec, Hertz};
ghost use Rattle.stapl_meaning.specs.Deeds.{Says, Goes, Stays};
ghost use Rattle.stapl_meaning.specs.States.{State, Leads};
ghost use Rattle.stapl_meaning.specs.Scopes.{Played, scope_at};
ghost use Rattle.stapl_meaning.specs.Turns.{turn};
ghost use Rattle.effect_laws.specs.Given.{StandsAt, HasInteger};
ghost use Rattle.effect_laws.specs.Chains.{StaysIn};

/// WAIT moves to its first state, stays for its clocks, waits for its microseconds, and moves to its second state. It
/// leaves nothing else behind.
pub fn wait_moves_stays_waits_and_moves()
    ensures clocks { (program : Played) (i n : ℕ) (s : State) (first second : Option ℕ) (at last : Tap)
        (cycles : ExprTree) → StandsAt program i (wait_cycles first cycles None second) → StaysIn first at →
        StaysIn second last → HasInteger (scope_at program i).look s cycles (pos n) → n ≤ 16777216 →
        turn program i s ≡ Leads (Goes at ∷ Stays n ∷ Goes last ∷ []) (i + 1) s }
    ensures both { (program : Played) (i n m : ℕ) (s : State) (first second : Option ℕ) (at last : Tap)
        (cycles usec : ExprTree) → StandsAt program i (wait_cycles first cycles (Some usec) second) →
        StaysIn first at → StaysIn second last → HasInteger (scope_at program i).look s cycles (pos n) →
        n ≤ 16777216 → HasInteger (scope_at program i).look s usec (pos m) →
        turn program i s ≡ Leads (Goes at ∷ Stays n ∷ Says (Usec m) ∷ Goes last ∷ []) (i + 1) s }
    ensures usec { (program : Played) (i m : ℕ) (s : State) (first second : Option ℕ) (at last : Tap)
        (usec : ExprTree) → StandsAt program i (wait_usec first usec second) → StaysIn first at →
        StaysIn second last → HasInteger (scope_at program i).look s usec (pos m) →
        turn program i s ≡ Leads (Goes at ∷ Says (Usec m) ∷ Goes last ∷ []) (i + 1) s }
{}

/// FREQUENCY says how many hertz are stated, and 0 if none are. It leaves nothing behind.
pub fn frequency_is_said_alone()
    ensures stated { (program : Played) (i n : ℕ) (s : State) (hertz : ExprTree) →
        StandsAt program i (frequency (Some hertz)) → HasInteger (scope_at program i).look s hertz (pos (suc n)) →
        turn program i s ≡ Leads (Says (Hertz (suc n)) ∷ []) (i + 1) s }
    ensures none { (program : Played) (i : ℕ) (s : State) → StandsAt program i (frequency None) →
        turn program i s ≡ Leads (Says (Hertz 0) ∷ []) (i + 1) s }
{}
