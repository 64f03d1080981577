// Counts of faults of 64 bits.
ghost use Rattle.std.specs.Prelude.{◌≡◌};
ghost use Rattle.tool_io.specs.Causes.{CountKept, CountRose, IsSaturated, raised_count};

/// Counts one fault more, up to the last value of the type.
#[tactic(auto, using(crate::proofs::CauseLemmas::saturated_kept, crate::proofs::CauseLemmas::saturated_rose))]
pub fn raise(count: &mut u64)
    ensures raised { count.new ≡ raised_count count.old }
    ensures kept { CountKept count.old count.new (IsSaturated count.old) (IsSaturated count.new) }
    ensures rose { CountRose count.old count.new (IsSaturated count.new) }
{
    *count = count.saturating_add(1);
}
