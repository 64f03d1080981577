//! Laws of assignments, and of the end of a run.
ghost use Rattle.std.specs.Prelude.{◌≡◌, ◌<◌, ℕ, ℤ, pos, Bool, List, [], Some, length};
ghost use Rattle.stapl_syntax.specs.declared.names.VarKind.TheVariants as names;
ghost use Rattle.stapl_syntax.specs.Trees.{ExprTree, assign, assign_element, exit};
ghost use Rattle.stapl_meaning.specs.declared.events.Ending.TheVariants.{Exit};
ghost use Rattle.stapl_meaning.specs.declared.values.Held.TheVariants as held;
ghost use Rattle.stapl_meaning.specs.States.{State, Over};
ghost use Rattle.stapl_meaning.specs.Scopes.{Played, scope_at};
ghost use Rattle.stapl_meaning.specs.Turns.{turn};
ghost use Rattle.effect_laws.specs.Given.{StandsAt, HasInteger, HasBit, Holds, number_at};
ghost use Rattle.effect_laws.specs.Assigned.{Gives, HasOneNew};

/// After an assignment the variable holds the value, or the element at the index does, and each other element is as it
/// was.
pub fn an_assignment_gives_its_value()
    ensures integer { (program : Played) (i : ℕ) (s : State) (name : List ℕ) (e : ExprTree) (old z : ℤ) →
        StandsAt program i (assign name e) → (scope_at program i).look.kind name ≡ Some names.Integer →
        HasInteger (scope_at program i).look s e z → Holds s (number_at program i name) (held.Int old) →
        Gives program i (number_at program i name) s (λ new. new ≡ held.Int z) }
    ensures boolean { (program : Played) (i : ℕ) (s : State) (name : List ℕ) (e : ExprTree) (old b : Bool) →
        StandsAt program i (assign name e) → (scope_at program i).look.kind name ≡ Some names.Boolean →
        HasBit (scope_at program i).look s e b → Holds s (number_at program i name) (held.Bit old) →
        Gives program i (number_at program i name) s (λ new. new ≡ held.Bit b) }
    ensures of_integers { (program : Played) (i k : ℕ) (s : State) (name : List ℕ) (index e : ExprTree) (old : List ℤ)
        (z : ℤ) → StandsAt program i (assign_element name index e) →
        (scope_at program i).look.kind name ≡ Some names.IntegerArray →
        HasInteger (scope_at program i).look s index (pos k) → HasInteger (scope_at program i).look s e z →
        Holds s (number_at program i name) (held.Ints old) → k < length old →
        Gives program i (number_at program i name) s
        (λ new. (now : List ℤ) × (new ≡ held.Ints now) × HasOneNew k z old now) }
    ensures of_booleans { (program : Played) (i k : ℕ) (s : State) (name : List ℕ) (index e : ExprTree)
        (old : List Bool) (b : Bool) → StandsAt program i (assign_element name index e) →
        (scope_at program i).look.kind name ≡ Some names.BooleanArray →
        HasInteger (scope_at program i).look s index (pos k) → HasBit (scope_at program i).look s e b →
        Holds s (number_at program i name) (held.Bits old) → k < length old →
        Gives program i (number_at program i name) s
        (λ new. (now : List Bool) × (new ≡ held.Bits now) × HasOneNew k b old now) }
{}

/// EXIT ends the run with its code, and the state is as it was.
pub fn exit_ends_the_run_with_its_code()
    ensures { (program : Played) (i : ℕ) (s : State) (e : ExprTree) (z : ℤ) → StandsAt program i (exit e) →
        HasInteger (scope_at program i).look s e z → turn program i s ≡ Over [] (Exit z) s }
{}
