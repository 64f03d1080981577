//! Laws of how scans go.
ghost use Rattle.std.specs.Prelude.{◌≡◌, ◌≤◌, ◌<◌, ℕ, pos, Bool, List, Option, Some, None, length};
ghost use Rattle.stapl_lexer.specs.declared.terminal.Padding.{Padding};
ghost use Rattle.stapl_lexer.specs.declared.terminal.Register.{Register};
ghost use Rattle.stapl_syntax.specs.Trees.{ExprTree, ArrayTree, whole, CompareTree, scalar, element, scan, pad, stop};
ghost use Rattle.tap_states.specs.declared.Tap.{Tap};
ghost use Rattle.dev_card.specs.Scans.{BoardScan};
ghost use Rattle.stapl_meaning.specs.declared.values.Held.TheVariants as held;
ghost use Rattle.stapl_meaning.specs.Deeds.{Deed};
ghost use Rattle.stapl_meaning.specs.States.{State, Turned, Scanning};
ghost use Rattle.stapl_meaning.specs.Scopes.{Played, scope_at};
ghost use Rattle.stapl_meaning.specs.Turns.{turn};
ghost use Rattle.effect_laws.specs.Given.{StandsAt, HasInteger, Holds, number_at};
ghost use Rattle.effect_laws.specs.Scans.{AreOnes, AreFirst, SetsPadding, SetsStop, ScansAs};
ghost use Rattle.effect_laws.specs.Chains.{IsStable};
ghost use Rattle.effect_laws.specs.Captures.{Scans, HoldsCaptured, HoldsResultInside};

/// PREIR, POSTIR, PREDR and POSTDR set one padding: so many ones, or the first so many bits of an array. IRSTOP and
/// DRSTOP set the state in which scans end. All else of how scans go is as it was.
pub fn paddings_and_stops_are_set_one_by_one()
    ensures ones { (program : Played) (i n : ℕ) (s : State) (which : Padding) (count : ExprTree) →
        StandsAt program i (pad which count None) → HasInteger (scope_at program i).look s count (pos n) → n ≤ 65536 →
        SetsPadding program i s which (AreOnes n) }
    ensures array { (program : Played) (i n : ℕ) (s : State) (which : Padding) (count : ExprTree) (name : List ℕ)
        (bits : List Bool) → StandsAt program i (pad which count (Some (whole name))) →
        HasInteger (scope_at program i).look s count (pos n) → n ≤ 65536 →
        Holds s (number_at program i name) (held.Bits bits) → n ≤ length bits →
        SetsPadding program i s which (AreFirst n bits) }
    ensures stop { (program : Played) (i n : ℕ) (s : State) (register : Register) (tap : Tap) →
        StandsAt program i (stop register n) → IsStable n tap → SetsStop program i s register tap }
{}

/// Each scan goes by the paddings and the stop state of its register, whatever its parts are.
pub fn scans_go_by_what_was_set()
    ensures { (program : Played) (i : ℕ) (s : State) (register : Register) (count : ExprTree) (source : ArrayTree)
        (target : Option ArrayTree) (compare : Option CompareTree) (deeds : List Deed) (job : BoardScan)
        (rest : List Bool → Turned) → StandsAt program i (scan register count source target compare) →
        turn program i s ≡ Scanning deeds job rest → ScansAs s job register }
{}

/// A scan of whole arrays shifts in the first bits of its source. The first places of its target are the captured bits,
/// and its result is 1 exactly if each captured bit under a mask bit 1 is the expected one, as the arrays were before
/// the scan. If the result goes to an element of the target, the captured bits are there before it.
pub fn a_scan_captures_and_compares_bit_by_bit()
    ensures scalar { (program : Played) (i n : ℕ) (s : State) (register : Register) (count : ExprTree)
        (source target expected mask result : List ℕ) (bits old wanted masked : List Bool) (was : Bool) →
        StandsAt program i
        (scan register count (whole source) (Some (whole target)) (Some (whole expected, (whole mask, scalar result)))) →
        HasInteger (scope_at program i).look s count (pos n) → 1 ≤ n → n ≤ 4194304 →
        Holds s (number_at program i source) (held.Bits bits) → n ≤ length bits →
        Holds s (number_at program i target) (held.Bits old) → n ≤ length old →
        Holds s (number_at program i expected) (held.Bits wanted) → n ≤ length wanted →
        Holds s (number_at program i mask) (held.Bits masked) → n ≤ length masked →
        Holds s (number_at program i result) (held.Bit was) →
        Scans program i n s bits (HoldsCaptured (record {
          array = number_at program i target;
          result = number_at program i result;
        }) n masked wanted old) }
    ensures inside { (program : Played) (i n k : ℕ) (s : State) (register : Register) (count index : ExprTree)
        (source target expected mask result : List ℕ) (bits old wanted masked : List Bool) →
        StandsAt program i
        (scan register count (whole source) (Some (whole target))
        (Some (whole expected, (whole mask, element result index)))) →
        HasInteger (scope_at program i).look s count (pos n) → 1 ≤ n → n ≤ 4194304 →
        Holds s (number_at program i source) (held.Bits bits) → n ≤ length bits →
        Holds s (number_at program i target) (held.Bits old) → n ≤ length old →
        Holds s (number_at program i expected) (held.Bits wanted) → n ≤ length wanted →
        Holds s (number_at program i mask) (held.Bits masked) → n ≤ length masked →
        number_at program i result ≡ number_at program i target →
        HasInteger (scope_at program i).look s index (pos k) → k < length old →
        Scans program i n s bits (HoldsResultInside (number_at program i target) n k masked wanted old) }
{}
