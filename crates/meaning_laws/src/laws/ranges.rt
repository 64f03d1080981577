//! Laws of ranges: which elements of an array they read and write, and in which order.
ghost use Rattle.std.specs.Prelude.{◌≡◌, ◌<◌, ◌≤◌, ◌⊎◌, ℕ, ℤ, pos, Bool, false, List, length, map, Some};
ghost use Rattle.std.specs.Prelude.{slice_index_or};
ghost use Rattle.stapl_meaning.specs.declared.profiles.Profile.{Profile};
ghost use Rattle.stapl_meaning.specs.declared.profiles.Profile.TheVariants.{One, Two};
ghost use Rattle.stapl_meaning.specs.declared.events.RunFault.TheVariants.{IndexOutOfRange, RangeReversed};
ghost use Rattle.stapl_meaning.specs.declared.values.Value.TheVariants.{Int};
ghost use Rattle.stapl_meaning.specs.declared.values.Held.TheVariants.{Bits};
ghost use Rattle.stapl_meaning.specs.Values.{Known, Faults, Span, bits_between, span_between, span_put};
ghost use Rattle.meaning_laws.specs.Places.{ArePlaces, IsWrittenAt, IsNoIndex};

/// Each range has places, and two lists of places of the same range are equal.
pub fn each_range_has_places()
    ensures exist { (first second : ℕ) → (places : List ℕ) × ArePlaces first second places }
    ensures same { (first second : ℕ) (places others : List ℕ) → ArePlaces first second places →
        ArePlaces first second others → places ≡ others }
{}

/// The bits of a range are the elements at its places, in the order of the places.
pub fn a_range_reads_its_places()
    ensures { (bits : List Bool) (first second : ℕ) (places : List ℕ) → first < length bits → second < length bits →
        ArePlaces first second places →
        bits_between Two (Some (Bits bits)) (Int (pos first)) (Int (pos second)) ≡
        Known (map (λ k. slice_index_or bits k false) places) }
{}

/// Bits that are written to a range are the elements at its first places, in the order of the places. Each other
/// element is as it was, and the array has as many elements as before.
pub fn a_range_is_written_at_its_places()
    ensures { (old new : List Bool) (first second : ℕ) (places : List ℕ) (span : Span) → first < length old →
        second < length old → ArePlaces first second places →
        span_between Two (length old) (pos first) (pos second) ≡ Known span → length new ≤ length places →
        IsWrittenAt places new old (span_put span new old) }
{}

/// A range whose first index is not below its second is the same part under both profiles. Under profile One a range
/// whose first index is below its second is the fault RangeReversed. If one of the two is no index of the array, the
/// fault is IndexOutOfRange under each profile.
pub fn the_older_profile()
    ensures agree { (n first second : ℕ) → first < n → second < n → second ≤ first →
        span_between One n (pos first) (pos second) ≡ span_between Two n (pos first) (pos second) }
    ensures reversed { (n first second : ℕ) → first < n → second < n → first < second →
        span_between One n (pos first) (pos second) ≡ Faults RangeReversed }
    ensures outside { (profile : Profile) (n : ℕ) (first second : ℤ) → IsNoIndex n first ⊎ IsNoIndex n second →
        span_between profile n first second ≡ Faults IndexOutOfRange }
{}
