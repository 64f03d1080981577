//! Bits between arrays, literals and integers.
ghost use Rattle.std.specs.Prelude.{◌≡◌, ◌≢◌, ◌<◌, ◌≤◌, ◌+◌, ◌∷◌, []};
ghost use Rattle.std.specs.Prelude.{List, ℕ, length, slice_get, take, false};
ghost use Rattle.bit_list.specs.Integers.{bits_of_int, int_of};
ghost use Rattle.stapl_meaning.specs.Values.{These, Whole, Range, OfInt, padded, then_get, integer_from, source_integer, bits_of, bits_in, span_bits};
ghost use Rattle.stapl_meaning.specs.States.{ScanSettings, State};
ghost use Rattle.stapl_meaning.specs.declared.records.Record.{Record};
ghost use Rattle.stapl_meaning.specs.Effects.{copied};
ghost use Rattle.stapl_code.specs.Machine.{puts, does, known_source, target_of};
ghost use Rattle.stapl_code.specs.Safe.{constants_of};
ghost use Rattle.machine_memory.specs.Found.{IsValue};
ghost use Rattle.machine_memory.specs.Acts.{IsMade, Told, state_with};
ghost use Rattle.machine_memory.specs.Arrays.{span_in, HasSpan, IsArrayPart, first_bits, with_bits, with_part, bits_put, part_asked, integer_asked};

use bit_list::Bits;
use machine_memory::effects::Made;
use machine_memory::operate::Stop;
use machine_memory::part_bits::{copy_turned, first_places, part_word, turn_within};
use machine_memory::parts::{Part, Span, after, holder, literal_at, place, range, whole};
use stapl_code::{CodeLists, Dest, Source};
use stapl_meaning::{Held, Profile, RunFault, Value};

// Sets a part of an array to the lowest bits of a literal, and to 0 where it has none.
fn pad_bits(held: &mut Held, span: Span, literal: &Bits)
    requires { HasSpan held.old span }
    ensures { held.new ≡ with_bits held.old span (padded false span.count literal.now) }
{
    if let Held::Bits(bits) = held {
        bits.copy_padded(span.low, literal, span.count);
        turn_within(bits, span.low, span.count, span.falls);
    }
}

fn put_literal(variables: &mut Vec<Held>, part: Part, literal: &Bits)
    requires { IsArrayPart variables.old.items part }
    ensures { variables.new.items ≡ with_part variables.old.items part (padded false part.span.count literal.now) }
{
    pad_bits(&mut variables[part.array as usize], part.span, literal);
}

// Sets a part of an array to the lowest bits of an integer.
fn set_low_bits(held: &mut Held, span: Span, value: i32)
    requires is_part { HasSpan held.old span }
    requires width { span.count ≤ 32 }
    ensures { held.new ≡ with_bits held.old span (take span.count (bits_of_int value)) }
{
    if let Held::Bits(bits) = held {
        bits.set_low_bits(span.low, value, span.count);
        turn_within(bits, span.low, span.count, span.falls);
    }
}

fn put_integer(variables: &mut Vec<Held>, part: Part, value: i32)
    requires is_part { IsArrayPart variables.old.items part }
    requires width { part.span.count ≤ 32 }
    ensures { variables.new.items ≡ with_part variables.old.items part (take part.span.count (bits_of_int value)) }
{
    set_low_bits(&mut variables[part.array as usize], part.span, value);
}

// Moves the first bits of a part of an array to another part of it. All are read before one is written.
fn move_bits(held: &mut Held, span: Span, from: Span)
    requires is_part { HasSpan held.old span }
    requires source { HasSpan held.old from }
    requires enough { span.count ≤ from.count }
    ensures { held.new ≡ with_bits held.old span (first_bits span.count from (bits_of held.old)) }
{
    if let Held::Bits(bits) = held {
        let low = first_places(bits, from, span.count);
        bits.copy_within(span.low, low, span.count);
        turn_within(bits, span.low, span.count, span.falls != from.falls);
    }
}

// Copies the first bits of a part of another array.
fn copy_bits(held: &mut Held, span: Span, other: &Held, from: Span)
    requires is_part { HasSpan held.old span }
    requires source { HasSpan other.now from }
    requires enough { span.count ≤ from.count }
    ensures { held.new ≡ with_bits held.old span (first_bits span.count from (bits_of other.now)) }
{
    if let Held::Bits(bits) = held {
        if let Held::Bits(other) = other {
            let low = first_places(other, from, span.count);
            let falls = span.falls != from.falls;
            copy_turned(bits, span.low, other, low, span.count, falls);
        }
    }
}

// Copies the first bits of a part of another variable. The one that is written is taken out and put back.
fn put_other(variables: &mut Vec<Held>, part: Part, from: Part)
    requires is_part { IsArrayPart variables.old.items part }
    requires source { IsArrayPart variables.old.items from }
    requires enough { part.span.count ≤ from.span.count }
    requires other { part.array ≢ from.array }
    ensures { variables.new.items ≡ with_part variables.old.items part
        (first_bits part.span.count from.span (bits_in (slice_get variables.old.items from.array))) }
{
    let at = part.array as usize;
    let mut held = std::mem::replace(&mut variables[at], Held::Int(0));
    copy_bits(
        &mut held,
        part.span,
        &variables[from.array as usize],
        from.span,
    );
    variables[at] = held;
}

fn put_part(variables: &mut Vec<Held>, part: Part, from: Part)
    requires is_part { IsArrayPart variables.old.items part }
    requires source { IsArrayPart variables.old.items from }
    requires enough { part.span.count ≤ from.span.count }
    ensures { variables.new.items ≡ with_part variables.old.items part
        (first_bits part.span.count from.span (bits_in (slice_get variables.old.items from.array))) }
{
    if part.array == from.array {
        move_bits(&mut variables[part.array as usize], part.span, from.span);
    } else {
        put_other(variables, part, from);
    }
}

// As many bits of a part of an array as another part has go there.
fn copy_part(variables: &mut Vec<Held>, part: Part, from: Part) -> Result<Made, Stop>
    requires is_part { IsArrayPart variables.old.items part }
    requires source { IsArrayPart variables.old.items from }
    ensures { (told : Told) (chosen : List ℕ) (records : List Record) (ir dr : ScanSettings) →
        IsMade result told (state_with chosen records ir dr variables.old.items)
        (state_with chosen records ir dr variables.new.items)
        (does (bits_put variables.old.items part (state_with chosen records ir dr variables.old.items)
        (part_asked variables.old.items part from))) }
{
    if from.span.count < part.span.count {
        return Err(Stop::Fault(RunFault::LengthMismatch));
    }
    put_part(variables, part, from);
    Ok(Made::On)
}

fn copy_literal(
    profile: Profile,
    literal: &Bits,
    dest: Dest,
    values: &[Value],
    variables: &mut Vec<Held>,
) -> Result<Made, Stop>
    ensures { (told : Told) (chosen : List ℕ) (records : List Record) (ir dr : ScanSettings) →
        IsMade result told (state_with chosen records ir dr variables.old.items)
        (state_with chosen records ir dr variables.new.items)
        (does (copied (target_of profile dest) (These literal.now) values.now
        (state_with chosen records ir dr variables.old.items))) }
{
    let part = place(profile, variables, dest, values)?;
    match after(dest, values) {
        [] => {
            put_literal(variables, part, literal);
            Ok(Made::On)
        }
        _ => Err(Stop::Wrong),
    }
}

fn copy_whole(
    profile: Profile,
    from: u32,
    dest: Dest,
    values: &[Value],
    variables: &mut Vec<Held>,
) -> Result<Made, Stop>
    ensures { (told : Told) (chosen : List ℕ) (records : List Record) (ir dr : ScanSettings) →
        IsMade result told (state_with chosen records ir dr variables.old.items)
        (state_with chosen records ir dr variables.new.items)
        (does (copied (target_of profile dest) (Whole from) values.now
        (state_with chosen records ir dr variables.old.items))) }
{
    let part = place(profile, variables, dest, values)?;
    match after(dest, values) {
        [] => {
            let from = whole(variables, from)?;
            copy_part(variables, part, from)
        }
        _ => Err(Stop::Wrong),
    }
}

fn copy_range(
    profile: Profile,
    from: u32,
    dest: Dest,
    values: &[Value],
    variables: &mut Vec<Held>,
) -> Result<Made, Stop>
    ensures { (told : Told) (chosen : List ℕ) (records : List Record) (ir dr : ScanSettings) →
        IsMade result told (state_with chosen records ir dr variables.old.items)
        (state_with chosen records ir dr variables.new.items)
        (does (copied (target_of profile dest) (Range profile from) values.now
        (state_with chosen records ir dr variables.old.items))) }
{
    let part = place(profile, variables, dest, values)?;
    match after(dest, values) {
        [first, second] => {
            let from = range(profile, variables, from, *first, *second)?;
            copy_part(variables, part, from)
        }
        _ => Err(Stop::Wrong),
    }
}

// As many bits of an integer as a part of an array has go there.
fn fill_integer(variables: &mut Vec<Held>, part: Part, value: Value) -> Result<Made, Stop>
    requires is_part { IsArrayPart variables.old.items part }
    ensures { (told : Told) (chosen : List ℕ) (records : List Record) (ir dr : ScanSettings) →
        IsMade result told (state_with chosen records ir dr variables.old.items)
        (state_with chosen records ir dr variables.new.items)
        (does (bits_put variables.old.items part (state_with chosen records ir dr variables.old.items)
        (integer_asked part value))) }
{
    match value {
        Value::Int(value) => {
            if part.span.count > 32 {
                return Err(Stop::Fault(RunFault::LengthMismatch));
            }
            put_integer(variables, part, value);
            Ok(Made::On)
        }
        Value::Bit(_) => Err(Stop::Wrong),
    }
}

fn copy_integer(
    profile: Profile,
    dest: Dest,
    values: &[Value],
    variables: &mut Vec<Held>,
) -> Result<Made, Stop>
    ensures { (told : Told) (chosen : List ℕ) (records : List Record) (ir dr : ScanSettings) →
        IsMade result told (state_with chosen records ir dr variables.old.items)
        (state_with chosen records ir dr variables.new.items)
        (does (copied (target_of profile dest) OfInt values.now
        (state_with chosen records ir dr variables.old.items))) }
{
    let part = place(profile, variables, dest, values)?;
    match after(dest, values) {
        [value] => fill_integer(variables, part, *value),
        _ => Err(Stop::Wrong),
    }
}

/// Bits of a source go into an array or a range of it. All are read before the first is written.
pub fn copy(
    code: &CodeLists,
    dest: Dest,
    source: Source,
    values: &[Value],
    variables: &mut Vec<Held>,
) -> Result<Made, Stop>
    ensures { (told : Told) (chosen : List ℕ) (records : List Record) (ir dr : ScanSettings) →
        IsMade result told (state_with chosen records ir dr variables.old.items)
        (state_with chosen records ir dr variables.new.items)
        (does (then_get (known_source (constants_of code.now) source)
        (λ from. copied (target_of code.now.profile dest) from values.now
        (state_with chosen records ir dr variables.old.items)))) }
{
    let profile = code.profile;
    match source {
        Source::Literal(n) => match literal_at(code.literals.as_slice(), n) {
            Some(literal) => copy_literal(profile, literal, dest, values, variables),
            None => Err(Stop::Wrong),
        },
        Source::Whole(from) => copy_whole(profile, from, dest, values, variables),
        Source::Range(from) => copy_range(profile, from, dest, values, variables),
        Source::FromInt => copy_integer(profile, dest, values, variables),
    }
}

// The integer with the first 32 bits of a part of a list.
fn low_integer(bits: &Bits, span: Span) -> i32
    requires { span.low + span.count ≤ length bits.now }
    ensures { result ≡ int_of (first_bits 32 span bits.now) }
{
    let word = part_word(bits, span, 0, span.count.min(32));
    (word as u32).cast_signed()
}

fn literal_integer(literal: &Bits, values: &[Value]) -> Result<Value, Stop>
    ensures { (variables : List Held) → IsValue result (source_integer variables (These literal.now) values.now) }
{
    match values {
        [] => {
            let span = Span {
                low: 0,
                count: literal.len(),
                falls: false,
            };
            Ok(Value::Int(low_integer(literal, span)))
        }
        _ => Err(Stop::Wrong),
    }
}

fn part_integer(held: &Held, span: Span) -> Value
    requires { HasSpan held.now span }
    ensures { result ≡ integer_from (span_bits (span_in span) (bits_of held.now)) }
{
    match held {
        Held::Bits(bits) => Value::Int(low_integer(bits, span)),
        _ => unreachable!(),
    }
}

fn whole_integer(variables: &[Held], from: u32, values: &[Value]) -> Result<Value, Stop>
    ensures { IsValue result (source_integer variables.now (Whole from) values.now) }
{
    match values {
        [] => {
            let part = whole(variables, from)?;
            Ok(part_integer(holder(variables, part), part.span))
        }
        _ => Err(Stop::Wrong),
    }
}

// The integer with the first 32 bits of the range between these indexes.
fn integer_between(
    profile: Profile,
    variables: &[Held],
    from: u32,
    first: Value,
    second: Value,
) -> Result<Value, Stop>
    ensures { IsValue result (source_integer variables.now (Range profile from) (first ∷ second ∷ [])) }
{
    let part = range(profile, variables, from, first, second)?;
    Ok(part_integer(holder(variables, part), part.span))
}

/// The integer with the first 32 bits of a range under a profile, whose first and second indexes these values are.
pub fn range_integer(
    profile: Profile,
    variables: &[Held],
    from: u32,
    values: &[Value],
) -> Result<Value, Stop>
    ensures { IsValue result (source_integer variables.now (Range profile from) values.now) }
{
    match values {
        [first, second] => integer_between(profile, variables, from, *first, *second),
        _ => Err(Stop::Wrong),
    }
}

// An integer of its own 32 bits.
fn same_integer(value: Value) -> Result<Value, Stop>
    ensures { (variables : List Held) → IsValue result (source_integer variables OfInt (value ∷ [])) }
{
    match value {
        Value::Int(_) => Ok(value),
        Value::Bit(_) => Err(Stop::Wrong),
    }
}

fn taken_integer(values: &[Value]) -> Result<Value, Stop>
    ensures { (variables : List Held) → IsValue result (source_integer variables OfInt values.now) }
{
    match values {
        [value] => same_integer(*value),
        _ => Err(Stop::Wrong),
    }
}

fn integer_of(
    code: &CodeLists,
    source: Source,
    values: &[Value],
    variables: &[Held],
) -> Result<Value, Stop>
    ensures { IsValue result
        (then_get (known_source (constants_of code.now) source)
        (λ from. source_integer variables.now from values.now)) }
{
    match source {
        Source::Literal(n) => match literal_at(code.literals.as_slice(), n) {
            Some(literal) => literal_integer(literal, values),
            None => Err(Stop::Wrong),
        },
        Source::Whole(from) => whole_integer(variables, from, values),
        Source::Range(from) => range_integer(code.profile, variables, from, values),
        Source::FromInt => taken_integer(values),
    }
}

/// The integer with the first 32 bits of a source.
pub fn integer(
    code: &CodeLists,
    source: Source,
    values: &[Value],
    variables: &[Held],
) -> Result<Made, Stop>
    ensures { (told : Told) (s : State) → IsMade result told s s (puts
        (then_get (known_source (constants_of code.now) source)
        (λ from. source_integer variables.now from values.now))) }
{
    Ok(Made::Put(integer_of(code, source, values, variables)?))
}
