//! Laws of what PRINT and EXPORT write.
ghost use Rattle.std.specs.Prelude.{◌≡◌, ◌+◌, ℕ, Bool, List, [], ◌∷◌};
ghost use Rattle.stapl_syntax.specs.Trees.{ExprTree, PartTree, whole, print, export, exported_value, exported_array};
ghost use Rattle.stapl_meaning.specs.declared.events.Event.TheVariants.{Print, Export};
ghost use Rattle.stapl_meaning.specs.declared.events.ExportValue.{ExportValue};
ghost use Rattle.stapl_meaning.specs.declared.events.ExportValue.TheVariants as exports;
ghost use Rattle.stapl_meaning.specs.declared.values.Value.{Value};
ghost use Rattle.stapl_meaning.specs.declared.values.Held.TheVariants as held;
ghost use Rattle.stapl_meaning.specs.Deeds.{Says};
ghost use Rattle.stapl_meaning.specs.States.{State, Leads};
ghost use Rattle.stapl_meaning.specs.Scopes.{Played, scope_at};
ghost use Rattle.stapl_meaning.specs.Turns.{turn};
ghost use Rattle.effect_laws.specs.Given.{StandsAt, HasValue, Holds, number_at};
ghost use Rattle.effect_laws.specs.Texts.{Gives, IsExported};

/// PRINT prints the bytes that its parts give, in one line, and does nothing else.
pub fn print_writes_its_parts()
    ensures { (program : Played) (i : ℕ) (s : State) (parts : List PartTree) (bytes : List ℕ) →
        StandsAt program i (print parts) → Gives (scope_at program i).look s parts bytes →
        turn program i s ≡ Leads (Says (Print bytes) ∷ []) (i + 1) s }
{}

/// EXPORT exports a value or the bits of an array under its key, and does nothing else.
pub fn export_writes_its_value()
    ensures value { (program : Played) (i : ℕ) (s : State) (key : List ℕ) (e : ExprTree) (v : Value) (x : ExportValue) →
        StandsAt program i (export key (exported_value e)) → HasValue (scope_at program i).look s e v → IsExported v x →
        turn program i s ≡ Leads (Says (Export key x) ∷ []) (i + 1) s }
    ensures array { (program : Played) (i : ℕ) (s : State) (key name : List ℕ) (bits : List Bool) →
        StandsAt program i (export key (exported_array (whole name))) →
        Holds s (number_at program i name) (held.Bits bits) →
        turn program i s ≡ Leads (Says (Export key (exports.Array bits)) ∷ []) (i + 1) s }
{}
