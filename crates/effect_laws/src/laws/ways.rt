//! Laws of where a statement goes on.
ghost use Rattle.std.specs.Prelude.{◌≡◌, ◌+◌, ℕ, pos, true, false, List, [], ◌∷◌, ◌++◌};
ghost use Rattle.stapl_syntax.specs.Trees.{ExprTree, BodyTree, call, goto, if_then, end_procedure};
ghost use Rattle.stapl_meaning.specs.declared.events.Ending.TheVariants.{Exit};
ghost use Rattle.stapl_meaning.specs.declared.records.Record.{Record};
ghost use Rattle.stapl_meaning.specs.declared.values.ValueKind.TheVariants as kinds;
ghost use Rattle.stapl_meaning.specs.declared.values.Value.TheVariants.{Bit};
ghost use Rattle.stapl_meaning.specs.Values.{Known, value_of};
ghost use Rattle.stapl_meaning.specs.States.{State, Leads, Over};
ghost use Rattle.stapl_meaning.specs.Scopes.{Played, scope_at};
ghost use Rattle.stapl_meaning.specs.Turns.{turn};
ghost use Rattle.effect_laws.specs.Given.{StandsAt, HasRoom};
ghost use Rattle.effect_laws.specs.Ways.{HasNoCall};

/// CALL goes on where its procedure begins. The ENDPROC that comes to its record goes on after that CALL, with the
/// records as they were before it: values and loops above are dropped. If there is no record of a CALL, the next chosen
/// procedure begins without records, and if there is none, the run ends with code 0.
pub fn a_procedure_returns_after_its_call()
    ensures call { (program : Played) (i : ℕ) (s : State) (name : List ℕ) → StandsAt program i (call name) → HasRoom s →
        (t : State) ×
        (turn program i s ≡ Leads [] ((scope_at program i).entry ((scope_at program i).procedure name)) t) ×
        ((j : ℕ) (u : State) (above : List Record) → StandsAt program j end_procedure → HasNoCall above →
        u.records ≡ above ++ t.records → turn program j u ≡ Leads [] (i + 1) (record u { records = s.records })) }
    ensures next { (program : Played) (i p : ℕ) (s : State) (others : List ℕ) → StandsAt program i end_procedure →
        HasNoCall s.records → s.chosen ≡ p ∷ others →
        turn program i s ≡ Leads [] ((scope_at program i).entry p) (record s { chosen = others; records = [] }) }
    ensures last { (program : Played) (i : ℕ) (s : State) → StandsAt program i end_procedure → HasNoCall s.records →
        s.chosen ≡ [] → turn program i s ≡ Over [] (Exit (pos 0)) (record s { chosen = []; records = [] }) }
{}

/// GOTO goes on at its label, and does nothing else. An IF whose condition is 0 goes on after it, and does nothing; one
/// whose condition is 1 does what its inner statement does in its place.
pub fn goto_and_if_choose_a_way()
    ensures goto { (program : Played) (i : ℕ) (s : State) (name : List ℕ) → StandsAt program i (goto name) →
        turn program i s ≡ Leads [] ((scope_at program i).label name) s }
    ensures zero { (program : Played) (i : ℕ) (s : State) (e : ExprTree) (body : BodyTree) →
        StandsAt program i (if_then e body) →
        value_of (scope_at program i).look s.store.variables kinds.Bit e ≡ Known (Bit false) →
        turn program i s ≡ Leads [] (i + 1) s }
    ensures one { (program other : Played) (i : ℕ) (s : State) (e : ExprTree) (body : BodyTree) →
        StandsAt program i (if_then e body) → StandsAt other i body → scope_at other i ≡ scope_at program i →
        value_of (scope_at program i).look s.store.variables kinds.Bit e ≡ Known (Bit true) →
        turn program i s ≡ turn other i s }
{}
