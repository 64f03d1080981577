//! Parts of BOOLEAN arrays.
ghost use Rattle.std.specs.Prelude.{◌≡◌, ◌<◌, ◌≤◌, ◌+◌, ◌^◌, IfOk, IfSome, IfNone, Some, None, slice_get};
ghost use Rattle.stapl_meaning.specs.Values.{is_index, rising_span, span_between, span_of, range_held, bits_in, bits_of};
ghost use Rattle.stapl_meaning.specs.Values.{Known};
ghost use Rattle.stapl_meaning.specs.States.{State};
ghost use Rattle.stapl_code.specs.Machine.{kept};
ghost use Rattle.machine_memory.specs.Found.{IsGot};
ghost use Rattle.machine_memory.specs.Acts.{IsMade, Told};
ghost use Rattle.machine_memory.specs.Arrays.{span_in, whole_span, range_span, HasSpan, IsArrayPart, IsPartOf, array_of, dest_span, after_dest};

use crate::effects::Made;
use crate::operate::Stop;
use bit_list::Bits;
use stapl_code::Dest;
use stapl_meaning::{Held, Profile, RunFault, Value};

/// A part of an array: its lowest index, how many bits it has, and whether these go from its highest index down.
#[derive(Clone, Copy)]
pub struct Span {
    pub low: u32,
    pub count: u32,
    pub falls: bool,
}

/// A part of the array of a number.
#[derive(Clone, Copy)]
pub struct Part {
    pub array: u32,
    pub span: Span,
}

/// The literal of this number.
pub fn literal_at(literals: &[Bits], n: u32) -> Option<&Bits>
    ensures some { IfSome result (λ literal. slice_get literals.now n ≡ Some literal.now) }
    ensures none { IfNone result (slice_get literals.now n ≡ None) }
{
    literals.get(n as usize)
}

/// What the variable of this number holds.
pub fn held_at(variables: &[Held], n: u32) -> Option<&Held>
    ensures some { IfSome result (λ held. slice_get variables.now n ≡ Some held.now) }
    ensures none { IfNone result (slice_get variables.now n ≡ None) }
{
    variables.get(n as usize)
}

/// The variable that has a part.
pub fn holder(variables: &[Held], part: Part) -> &Held
    requires { IsArrayPart variables.now part }
    ensures span { HasSpan result.now part.span }
    ensures bits { bits_in (slice_get variables.now part.array) ≡ bits_of result.now }
{
    &variables[part.array as usize]
}

/// Whether it is an index of a list of so many items.
pub fn is_index(index: i32, count: u32) -> bool
    ensures { result ≡ is_index index count }
{
    index >= 0 && index.cast_unsigned() < count
}

// The part that a range is under a profile, if its first index is below its second.
fn rising_span(profile: Profile, first: u32, second: u32) -> Result<Span, Stop>
    requires rises { first < second }
    requires room { second + 1 < 2 ^ 32 }
    ensures span { IsGot (λ span g. g ≡ Known (span_in span)) result (rising_span profile first second) }
    ensures inside { IfOk result (λ span. span.low + span.count ≤ second + 1) }
{
    match profile {
        Profile::One => Err(Stop::Fault(RunFault::RangeReversed)),
        Profile::Two => Ok(Span {
            low: first,
            count: second + 1 - first,
            falls: true,
        }),
    }
}

// The part that a range of an array of so many bits is, under a profile.
fn span_between(profile: Profile, count: u32, first: i32, second: i32) -> Result<Span, Stop>
    ensures span { IsGot (λ span g. g ≡ Known (span_in span)) result (span_between profile count first second) }
    ensures inside { IfOk result (λ span. span.low + span.count ≤ count) }
{
    if !is_index(first, count) || !is_index(second, count) {
        return Err(Stop::Fault(RunFault::IndexOutOfRange));
    }
    let (first, second) = (first.cast_unsigned(), second.cast_unsigned());
    if first < second {
        return rising_span(profile, first, second);
    }
    Ok(Span {
        low: second,
        count: first + 1 - second,
        falls: false,
    })
}

fn span_of(profile: Profile, count: u32, first: Value, second: Value) -> Result<Span, Stop>
    ensures span { IsGot (λ span g. g ≡ Known (span_in span)) result (span_of profile count first second) }
    ensures inside { IfOk result (λ span. span.low + span.count ≤ count) }
{
    match (first, second) {
        (Value::Int(first), Value::Int(second)) => span_between(profile, count, first, second),
        _ => Err(Stop::Wrong),
    }
}

/// The whole of the BOOLEAN array of a number.
pub fn whole(variables: &[Held], n: u32) -> Result<Part, Stop>
    ensures { IsPartOf result variables.now n whole_span }
{
    match held_at(variables, n) {
        Some(Held::Bits(bits)) => {
            let span = Span {
                low: 0,
                count: bits.len(),
                falls: false,
            };
            Ok(Part { array: n, span })
        }
        _ => Err(Stop::Wrong),
    }
}

/// The range of the BOOLEAN array of a number, by its first and its second index, under a profile.
pub fn range(
    profile: Profile,
    variables: &[Held],
    n: u32,
    first: Value,
    second: Value,
) -> Result<Part, Stop>
    ensures { IsPartOf result variables.now n (range_span profile first second) }
{
    match held_at(variables, n) {
        Some(Held::Bits(bits)) => {
            let span = span_of(profile, bits.len(), first, second)?;
            Ok(Part { array: n, span })
        }
        _ => Err(Stop::Wrong),
    }
}

/// The test of a range, under a profile.
pub fn check_range(
    profile: Profile,
    variables: &[Held],
    n: u32,
    values: &[Value],
) -> Result<Made, Stop>
    ensures { (told : Told) (s : State) →
        IsMade result told s s (kept values.now (range_held profile (slice_get variables.now n))) }
{
    match values {
        [first, second] => {
            range(profile, variables, n, *first, *second)?;
            Ok(Made::PutTwo(*first, *second))
        }
        _ => Err(Stop::Wrong),
    }
}

/// Where a destination puts bits, under a profile.
pub fn place(
    profile: Profile,
    variables: &[Held],
    dest: Dest,
    values: &[Value],
) -> Result<Part, Stop>
    ensures { IsPartOf result variables.now (array_of dest) (dest_span profile dest values.now) }
{
    match dest {
        Dest::Whole(n) => whole(variables, n),
        Dest::Range(n) => match values {
            [first, second, ..] => range(profile, variables, n, *first, *second),
            _ => Err(Stop::Wrong),
        },
    }
}

/// The values after those of a destination.
pub fn after(dest: Dest, values: &[Value]) -> &[Value]
    ensures { result.now ≡ after_dest dest values.now }
{
    match dest {
        Dest::Whole(_) => values,
        Dest::Range(_) => &values[values.len().min(2)..],
    }
}
