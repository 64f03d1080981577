//! The written lines of events and of clocks.
ghost use Rattle.std.specs.Prelude.{◌≡◌, ◌<◌, ◌≤◌, ◌+◌, ◌^◌, ◌++◌, ◌∷◌, [], codes, length, slice_get};
ghost use Rattle.tool_io.specs.Lines.{IsWhole, HasPut};
ghost use Rattle.base.specs.Bits.{low_bits};
ghost use Rattle.bit_list.specs.Integers.{bits_of_int};
ghost use Rattle.bit_list.specs.Hexadecimal.{all_hex_digits};
ghost use Rattle.stapl_meaning.specs.Effects.{export_of};
ghost use Rattle.stapl_meaning.specs.Texts.{export_text, event_line, pin_line};
ghost use Rattle.stapl_meaning.specs.declared.events.Event.TheVariants.{Print, Usec, Hertz};
ghost use Rattle.stapl_meaning.specs.declared.events.Event.TheVariants as events;
ghost use Rattle.stapl_code.specs.Safe.{constants_of};
ghost use Rattle.stapl_meaning.specs.Values.{bits_in, bits_of, span_bits};
ghost use Rattle.machine_memory.specs.Arrays.{span_in};
ghost use Rattle.machine_memory.specs.Exports.{text_in, literal_in, bits_at, value_exported, export_event};
ghost use Rattle.written_cable.specs.HexTexts.{hex_text};

use bit_list::Bits;
use machine_memory::effects::{BitsAt, Export, Exported, digit_of};
use machine_memory::part_bits::part_word;
use machine_memory::parts::{Part, Span, held_at, literal_at};
use stapl_code::CodeLists;
use stapl_meaning::{Held, Text, Value};
use tool_io::{Failed, Lines, Sink, put_count_line, put_escaped, put_hex};

/// Puts the line of a PRINT with this text, and sends on what is put, so that the line is seen.
///
/// `Failed` as of the sink.
pub fn put_print<K: Sink>(out: &mut Lines<K>, bytes: &[u8]) -> Result<(), Failed>
    requires { IsWhole out.old }
    ensures { HasPut K.Sink out.old (event_line (Print bytes.now)) out.new result }
{
    put_print_line(out, bytes)?;
    out.finish()?;
    Ok(())
}

// Puts the line of a PRINT with this text.
fn put_print_line<K: Sink>(out: &mut Lines<K>, bytes: &[u8]) -> Result<(), Failed>
    requires { IsWhole out.old }
    ensures { HasPut K.Sink out.old (event_line (Print bytes.now)) out.new result }
{
    out.put(b"P ")?;
    put_escaped(out, bytes)?;
    out.put(b"\n")?;
    Ok(())
}

/// Puts the hexadecimal digits of a part of a list of bits, the highest first.
///
/// `Failed` as of the sink.
pub fn put_digits<K: Sink>(out: &mut Lines<K>, bits: &Bits, span: Span) -> Result<(), Failed>
    requires whole { IsWhole out.old }
    requires inside { span.low + span.count ≤ length bits.now }
    requires few { span.low + span.count + 3 < 2 ^ 32 }
    ensures { HasPut K.Sink out.old (all_hex_digits (span_bits (span_in span) bits.now)) out.new result }
{
    let mut left = span.count;
    'down: while left > 0 {
        let low = (left - 1) / 64 * 64;
        put_hex(out, part_word(bits, span, low, left - low), left - low)?;
        left = low;
    }
    Ok(())
}

// Puts the text of a part of a list of bits.
fn put_inside<K: Sink>(out: &mut Lines<K>, bits: &Bits, span: Span) -> Result<(), Failed>
    requires whole { IsWhole out.old }
    requires inside { span.low + span.count ≤ length bits.now }
    requires few { span.low + span.count + 3 < 2 ^ 32 }
    ensures { HasPut K.Sink out.old (hex_text (span_bits (span_in span) bits.now)) out.new result }
{
    out.put(b"$")?;
    put_digits(out, bits, span)?;
    Ok(())
}

// As much of a part as lies in a list of bits.
fn inside(span: Span, bits: &Bits) -> Span
    ensures inside { result.low + result.count ≤ length bits.now }
    ensures few { result.low + result.count + 3 < 2 ^ 32 }
    ensures same { span_bits (span_in span) bits.now ≡ span_bits (span_in result) bits.now }
{
    let len = bits.len();
    let low = span.low.min(len);
    let count = span.count.min(len - low);
    let falls = span.falls;
    Span { low, count, falls }
}

// Puts the text of as much of a part as lies in a list of bits.
fn put_part<K: Sink>(out: &mut Lines<K>, bits: &Bits, span: Span) -> Result<(), Failed>
    requires { IsWhole out.old }
    ensures { HasPut K.Sink out.old (hex_text (span_bits (span_in span) bits.now)) out.new result }
{
    let there = inside(span, bits);
    put_inside(out, bits, there)
}

// The whole of a list of bits.
fn whole_span(bits: &Bits) -> Span
    ensures { span_bits (span_in result) bits.now ≡ bits.now }
{
    Span {
        low: 0,
        count: bits.len(),
        falls: false,
    }
}

// Puts the text of all of a list of bits.
fn put_all<K: Sink>(out: &mut Lines<K>, bits: &Bits) -> Result<(), Failed>
    requires { IsWhole out.old }
    ensures { HasPut K.Sink out.old (hex_text bits.now) out.new result }
{
    let whole = whole_span(bits);
    put_part(out, bits, whole)
}

// Puts the text of a part of no bits.
fn put_none<K: Sink>(out: &mut Lines<K>, span: Span) -> Result<(), Failed>
    requires { IsWhole out.old }
    ensures { HasPut K.Sink out.old (hex_text (span_bits (span_in span) [])) out.new result }
{
    out.put(b"$")
}

fn put_literal<K: Sink>(out: &mut Lines<K>, literals: &[Bits], n: u32) -> Result<(), Failed>
    requires { IsWhole out.old }
    ensures { HasPut K.Sink out.old (hex_text (literal_in (slice_get literals.now n))) out.new result }
{
    match literal_at(literals, n) {
        Some(literal) => put_all(out, literal),
        None => out.put(b"$"),
    }
}

// Puts the text of a part of what a variable holds, which is no bits if it is no array of bits.
fn put_held<K: Sink>(out: &mut Lines<K>, held: &Held, span: Span) -> Result<(), Failed>
    requires { IsWhole out.old }
    ensures { HasPut K.Sink out.old (hex_text (span_bits (span_in span) (bits_of held.now))) out.new result }
{
    match held {
        Held::Bits(bits) => put_part(out, bits, span),
        _ => put_none(out, span),
    }
}

fn put_variable<K: Sink>(out: &mut Lines<K>, variables: &[Held], part: Part) -> Result<(), Failed>
    requires { IsWhole out.old }
    ensures { HasPut K.Sink out.old
        (hex_text (span_bits (span_in part.span) (bits_in (slice_get variables.now part.array)))) out.new result }
{
    match held_at(variables, part.array) {
        Some(held) => put_held(out, held, part.span),
        None => put_none(out, part.span),
    }
}

// Puts the text of the bits of a number.
fn put_number_text<K: Sink>(out: &mut Lines<K>, number: u64, len: u32) -> Result<(), Failed>
    requires whole { IsWhole out.old }
    requires most { len ≤ 64 }
    requires fits { number < 2 ^ len }
    ensures { HasPut K.Sink out.old (hex_text (low_bits len number)) out.new result }
{
    out.put(b"$")?;
    put_hex(out, number, len)?;
    Ok(())
}

fn put_integer<K: Sink>(out: &mut Lines<K>, z: i32) -> Result<(), Failed>
    requires { IsWhole out.old }
    ensures { HasPut K.Sink out.old (hex_text (bits_of_int z)) out.new result }
{
    put_number_text(out, u64::from(z.cast_unsigned()), 32)
}

// Puts the text of the bits that lie somewhere.
fn put_bits<K: Sink>(
    out: &mut Lines<K>,
    literals: &[Bits],
    variables: &[Held],
    at: BitsAt,
) -> Result<(), Failed>
    requires { IsWhole out.old }
    ensures { HasPut K.Sink out.old (hex_text (bits_at literals.now variables.now at)) out.new result }
{
    match at {
        BitsAt::Literal(n) => put_literal(out, literals, n),
        BitsAt::Part(part) => put_variable(out, variables, part),
        BitsAt::Integer(z) => put_integer(out, z),
    }
}

// Puts a value as it is exported.
fn put_value<K: Sink>(out: &mut Lines<K>, value: Value) -> Result<(), Failed>
    requires { IsWhole out.old }
    ensures { HasPut K.Sink out.old (export_text (export_of value)) out.new result }
{
    match value {
        Value::Int(z) => out.put_int(i64::from(z)),
        Value::Bit(b) => out.put(&[digit_of(b)]),
    }
}

// Puts what is exported.
fn put_exported<K: Sink>(
    out: &mut Lines<K>,
    literals: &[Bits],
    variables: &[Held],
    value: Exported,
) -> Result<(), Failed>
    requires { IsWhole out.old }
    ensures { HasPut K.Sink out.old
        (export_text (value_exported literals.now variables.now value)) out.new result }
{
    match value {
        Exported::Value(value) => put_value(out, value),
        Exported::Bits(at) => put_bits(out, literals, variables, at),
    }
}

// The text of a number, or nothing where there is none.
fn text_at(texts: &[Text], n: u32) -> &[u8]
    ensures { result.now ≡ text_in (slice_get texts.now n) }
{
    match texts.get(n as usize) {
        Some(text) => text.as_slice(),
        None => &[],
    }
}

// Puts the line of an EXPORT with this key.
fn put_line<K: Sink>(
    out: &mut Lines<K>,
    key: &[u8],
    literals: &[Bits],
    variables: &[Held],
    value: Exported,
) -> Result<(), Failed>
    requires { IsWhole out.old }
    ensures { HasPut K.Sink out.old
        (event_line (events.Export key.now (value_exported literals.now variables.now value))) out.new result }
{
    out.put(b"X ")?;
    put_escaped(out, key)?;
    out.put(b" = ")?;
    put_exported(out, literals, variables, value)?;
    out.put(b"\n")?;
    Ok(())
}

/// Puts the line of an EXPORT, and sends on what is put, so that the line is seen.
///
/// `Failed` as of the sink.
pub fn put_export<K: Sink>(
    out: &mut Lines<K>,
    code: &CodeLists,
    variables: &[Held],
    export: Export,
) -> Result<(), Failed>
    requires { IsWhole out.old }
    ensures { HasPut K.Sink out.old
        (event_line (export_event (constants_of code.now) variables.now export)) out.new result }
{
    put_export_line(out, code, variables, export)?;
    out.finish()?;
    Ok(())
}

// Puts the line of an EXPORT.
fn put_export_line<K: Sink>(
    out: &mut Lines<K>,
    code: &CodeLists,
    variables: &[Held],
    export: Export,
) -> Result<(), Failed>
    requires { IsWhole out.old }
    ensures { HasPut K.Sink out.old
        (event_line (export_event (constants_of code.now) variables.now export)) out.new result }
{
    let key = text_at(code.texts.as_slice(), export.key);
    put_line(out, key, code.literals.as_slice(), variables, export.value)
}

/// Puts the line of a wait of n microseconds, and sends on what is put, so that the line is seen.
///
/// `Failed` as of the sink.
pub fn put_usec<K: Sink>(out: &mut Lines<K>, n: u32) -> Result<(), Failed>
    requires { IsWhole out.old }
    ensures { HasPut K.Sink out.old (event_line (Usec n)) out.new result }
{
    put_count_line(out, b"W ", n)?;
    out.finish()?;
    Ok(())
}

/// Puts the line of a frequency of n hertz, and sends on what is put, so that the line is seen.
///
/// `Failed` as of the sink.
pub fn put_hertz<K: Sink>(out: &mut Lines<K>, n: u32) -> Result<(), Failed>
    requires { IsWhole out.old }
    ensures { HasPut K.Sink out.old (event_line (Hertz n)) out.new result }
{
    put_count_line(out, b"F ", n)?;
    out.finish()?;
    Ok(())
}

/// Puts the line of these digits of clocks, and nothing if there is none.
///
/// `Failed` as of the sink.
#[tactic(auto, using(tool_io::proofs::PutLemmas::puts_nothing, tool_io::proofs::PutLemmas::put_then, tool_io::proofs::PutLemmas::put_then_front, tool_io::proofs::PutLemmas::front_with))]
pub fn put_pins<K: Sink>(out: &mut Lines<K>, digits: &[u8]) -> Result<(), Failed>
    requires { IsWhole out.old }
    ensures { HasPut K.Sink out.old (pin_line digits.now) out.new result }
{
    if digits.len() == 0 {
        return Ok(());
    }
    put_pin_line(out, digits)
}

// Puts the line of these digits of clocks.
fn put_pin_line<K: Sink>(out: &mut Lines<K>, digits: &[u8]) -> Result<(), Failed>
    requires { IsWhole out.old }
    ensures { HasPut K.Sink out.old ((codes "C " ++ digits.now) ++ 10 ∷ []) out.new result }
{
    out.put(b"C ")?;
    out.put(digits)?;
    out.put(b"\n")?;
    Ok(())
}
