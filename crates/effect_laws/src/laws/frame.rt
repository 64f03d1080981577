//! Laws of the frame: what a turn leaves as it was.
ghost use Rattle.std.specs.Prelude.{◌≡◌, ◌≢◌, ℕ, List, Some, slice_get};
ghost use Rattle.stapl_syntax.specs.Trees.{StmtTree};
ghost use Rattle.stapl_meaning.specs.States.{State};
ghost use Rattle.stapl_meaning.specs.Scopes.{Played, scope_at};
ghost use Rattle.stapl_meaning.specs.Turns.{turn};
ghost use Rattle.effect_laws.specs.Named.{Assigns, UsesRecords, SetsScans, EndsProcedure};
ghost use Rattle.effect_laws.specs.Kept.{HoldsAfter};

/// A turn changes no variable that its statement does not assign to. Only PUSH, POP, CALL, FOR, NEXT and ENDPROC change
/// the records, only paddings and stop states change how later scans go, and only ENDPROC changes which procedures are
/// still to run. An IF may change what its inner statement may.
pub fn a_turn_changes_only_what_its_statement_names()
    ensures variables { (program : Played) (i n : ℕ) (s : State) (st : StmtTree) →
        slice_get program.pieces i ≡ Some st → ((name : List ℕ) → Assigns st.body name →
        (scope_at program i).look.variable name ≢ n) → HoldsAfter (λ t.
        slice_get t.store.variables n ≡ slice_get s.store.variables n) (turn program i s) }
    ensures records { (program : Played) (i : ℕ) (s : State) (st : StmtTree) → slice_get program.pieces i ≡ Some st →
        ¬ UsesRecords st.body → HoldsAfter (λ t. t.records ≡ s.records) (turn program i s) }
    ensures scans { (program : Played) (i : ℕ) (s : State) (st : StmtTree) → slice_get program.pieces i ≡ Some st →
        ¬ SetsScans st.body → HoldsAfter (λ t. (t.ir ≡ s.ir) × (t.dr ≡ s.dr)) (turn program i s) }
    ensures procedures { (program : Played) (i : ℕ) (s : State) (st : StmtTree) →
        slice_get program.pieces i ≡ Some st → ¬ EndsProcedure st.body →
        HoldsAfter (λ t. t.chosen ≡ s.chosen) (turn program i s) }
{}
