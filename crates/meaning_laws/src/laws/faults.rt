//! Laws of faults: where each one comes, and which one comes first.
ghost use Rattle.std.specs.Prelude.{◌≡◌, ◌≢◌, ◌↔◌, ℕ, Bool, List, []};
ghost use Rattle.stapl_syntax.specs.Trees.{ExprTree, BodyTree};
ghost use Rattle.dev_card.specs.Scans.{BoardScan};
ghost use Rattle.stapl_meaning.specs.Deeds.{Deed};
ghost use Rattle.stapl_meaning.specs.declared.events.RunFault.{RunFault};
ghost use Rattle.stapl_meaning.specs.declared.events.RunFault.TheVariants as faults;
ghost use Rattle.stapl_meaning.specs.declared.events.Ending.TheVariants.{Fault};
ghost use Rattle.stapl_meaning.specs.declared.values.Held.{Held};
ghost use Rattle.stapl_meaning.specs.declared.values.Value.{Value};
ghost use Rattle.stapl_meaning.specs.declared.values.ValueKind.{ValueKind};
ghost use Rattle.stapl_meaning.specs.Values.{Known, Faults, Lookup, value_of};
ghost use Rattle.stapl_meaning.specs.Operands.{values_of};
ghost use Rattle.stapl_meaning.specs.States.{State, Turned, Over, Scanning};
ghost use Rattle.stapl_meaning.specs.Scopes.{Scope, Played};
ghost use Rattle.stapl_meaning.specs.Turns.{operands, effect, turn};
ghost use Rattle.meaning_laws.specs.ExprFaults.{ExprBreaks};
ghost use Rattle.meaning_laws.specs.PartFaults.{IsPartFault};
ghost use Rattle.meaning_laws.specs.RowFaults.{HasShortArray, HasBadLength, HasBadCount, HasZeroStep, LacksRecord};
ghost use Rattle.meaning_laws.specs.RowFaults.{LacksRoom};
ghost use Rattle.meaning_laws.specs.TurnFaults.{Reaches, TurnBreaks, ReachesBrokenPart, EndsWithFault, EndsByTable};
ghost use Rattle.meaning_laws.specs.TurnFaults.{NeverFaults};

/// An expression breaks with a fault by the table exactly if that fault is found in place of its value.
pub fn expressions_break_by_the_table()
    ensures { (look : Lookup) (variables : List Held) (kind : ValueKind) (e : ExprTree) (k : RunFault) →
        (value_of look variables kind e ≡ Faults k) ↔ ExprBreaks look variables kind e k }
{}

/// A turn ends with a fault of its piece exactly if it breaks with it by the table: nothing was done before it, and the
/// state is as it was. No turn ends with a fault in another way.
pub fn turns_break_by_the_table()
    ensures breaks { (program : Played) (i : ℕ) (s : State) (k : RunFault) → TurnBreaks program i s k →
        EndsWithFault program i s k }
    ensures only { (program : Played) (i : ℕ) (s t : State) (deeds : List Deed) (k : RunFault) (piece : ℕ) →
        turn program i s ≡ Over deeds (Fault k piece) t → EndsByTable program i s deeds k piece t }
{}

/// A turn breaks with at most one fault.
pub fn a_turn_has_one_fault()
    ensures { (program : Played) (i : ℕ) (s : State) (k other : RunFault) → TurnBreaks program i s k →
        TurnBreaks program i s other → k ≡ other }
{}

/// Each fault of the table, and where it comes. A range from a lower index to a higher one means its elements in the
/// other order, so programs never end with RangeReversed.
pub fn where_each_fault_comes()
    ensures divide_by_zero { (program : Played) (i : ℕ) (s : State) →
        EndsWithFault program i s faults.DivideByZero ↔ ReachesBrokenPart program i s faults.DivideByZero }
    ensures index_out_of_range { (program : Played) (i : ℕ) (s : State) →
        EndsWithFault program i s faults.IndexOutOfRange ↔ ReachesBrokenPart program i s faults.IndexOutOfRange }
    ensures range_reversed { (program : Played) (i : ℕ) (s : State) → ¬ EndsWithFault program i s faults.RangeReversed }
    ensures length_mismatch { (program : Played) (i : ℕ) (s : State) →
        EndsWithFault program i s faults.LengthMismatch ↔ Reaches program i s HasShortArray }
    ensures bad_length { (program : Played) (i : ℕ) (s : State) →
        EndsWithFault program i s faults.BadLength ↔ Reaches program i s HasBadLength }
    ensures bad_count { (program : Played) (i : ℕ) (s : State) →
        EndsWithFault program i s faults.BadCount ↔ Reaches program i s HasBadCount }
    ensures shift_count { (program : Played) (i : ℕ) (s : State) →
        EndsWithFault program i s faults.ShiftCount ↔ ReachesBrokenPart program i s faults.ShiftCount }
    ensures zero_step { (program : Played) (i : ℕ) (s : State) →
        EndsWithFault program i s faults.ZeroStep ↔ Reaches program i s HasZeroStep }
    ensures no_record { (program : Played) (i : ℕ) (s : State) →
        EndsWithFault program i s faults.NoRecord ↔ Reaches program i s LacksRecord }
    ensures records_full { (program : Played) (i : ℕ) (s : State) →
        EndsWithFault program i s faults.RecordsFull ↔ Reaches program i s LacksRoom }
    ensures bad_char { (program : Played) (i : ℕ) (s : State) →
        EndsWithFault program i s faults.BadChar ↔ ReachesBrokenPart program i s faults.BadChar }
{}

/// If all operands of a statement have values, what it does breaks with none of the faults of parts, nor with
/// RangeReversed: an index, a range or a character that was tested is not found outside its limits again.
pub fn what_was_tested_never_breaks_again()
    ensures range_reversed { (scope : Scope) (s : State) (b : BodyTree) (values : List Value) →
        values_of scope.look s.store.variables (operands scope b) ≡ Known values →
        effect scope b values s ≢ Faults faults.RangeReversed }
    ensures parts { (scope : Scope) (s : State) (b : BodyTree) (values : List Value) (k : RunFault) →
        values_of scope.look s.store.variables (operands scope b) ≡ Known values →
        effect scope b values s ≡ Faults k → ¬ IsPartFault k }
{}

/// A turn that scans ends with no fault, whatever its scan captures.
pub fn no_fault_comes_from_captured_bits()
    ensures { (program : Played) (i : ℕ) (s : State) (deeds : List Deed) (scan : BoardScan)
        (rest : List Bool → Turned) → turn program i s ≡ Scanning deeds scan rest → (bits : List Bool) →
        NeverFaults (rest bits) }
{}
