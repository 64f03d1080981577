//! How the text of a Print is joined.
ghost use Rattle.std.specs.Prelude.{◌≡◌, ◌≤◌, ◌+◌, ◌^◌, ◌∷◌, ◌++◌, [], List, ℕ, pos, length, drop, slice_get, vec_capacity, IfSome, IfNone};
ghost use Rattle.std.specs.Fmt.{signed_decimal};
ghost use Rattle.stapl_meaning.specs.Values.{Got, Known, then_get, integer_of};
ghost use Rattle.stapl_meaning.specs.Operands.{character_of};
ghost use Rattle.stapl_meaning.specs.Effects.{shown, after_value, after_character, printed};
ghost use Rattle.stapl_meaning.specs.States.{State};
ghost use Rattle.stapl_code.specs.Machine.{known_text, parts_text, does};
ghost use Rattle.stapl_code.specs.Safe.{constants_of};
ghost use Rattle.machine_memory.specs.declared.memory.Shifted.{Shifted};
ghost use Rattle.machine_memory.specs.Found.{IsGot};
ghost use Rattle.machine_memory.specs.Prints.{IsPut, TakesNext, with_front, text_length, part_room, parts_room, instr_room, print_room};
ghost use Rattle.machine_memory.specs.Acts.{IsMade};

use itoa::Buffer;
use machine_memory::effects::{Doing, Made, character, digit_of};
use machine_memory::operate::Stop;
use stapl_code::{CodeLists, Instr, PrintPart};
use stapl_meaning::{Text, Value};

fn put(text: &mut Vec<u8>, bytes: &[u8])
    requires { length text.old.items + length bytes.now ≤ vec_capacity text.old }
    ensures put { text.new.items ≡ text.old.items ++ bytes.now }
    ensures room { vec_capacity text.old ≤ vec_capacity text.new }
{
    match text.extend_from_slice(bytes) {
        Ok(()) => {}
        Err(_) => unreachable!(),
    }
}

fn put_digits(text: &mut Vec<u8>, n: i32)
    requires { length text.old.items + 11 ≤ vec_capacity text.old }
    ensures put { text.new.items ≡ text.old.items ++ signed_decimal n }
    ensures size { length text.new.items ≤ length text.old.items + 11 }
    ensures room { vec_capacity text.old ≤ vec_capacity text.new }
{
    let mut digits = Buffer::new();
    put(text, digits.format(n).as_bytes());
}

// Puts the text of a number.
fn put_text(texts: &[Text], n: u32, text: &mut Vec<u8>) -> Result<(), Stop>
    requires { length text.old.items + text_length (slice_get texts.now n) ≤ vec_capacity text.old }
    ensures put { (rest : Got (List ℕ)) → IsPut result text.old.items
        (then_get (known_text (slice_get texts.now n)) (λ bytes. then_get rest (λ more. Known (bytes ++ more))))
        text.new.items rest }
    ensures size { length text.new.items ≤ length text.old.items + text_length (slice_get texts.now n) }
    ensures room { vec_capacity text.old ≤ vec_capacity text.new }
{
    match texts.get(n as usize) {
        Some(bytes) => {
            put(text, bytes.as_slice());
            Ok(())
        }
        None => Err(Stop::Wrong),
    }
}

// Puts what is printed of a value.
fn put_shown(value: Value, text: &mut Vec<u8>)
    requires { length text.old.items + 11 ≤ vec_capacity text.old }
    ensures put { text.new.items ≡ text.old.items ++ shown value }
    ensures size { length text.new.items ≤ length text.old.items + 11 }
    ensures room { vec_capacity text.old ≤ vec_capacity text.new }
{
    match value {
        Value::Int(n) => put_digits(text, n),
        Value::Bit(b) => put(text, &[digit_of(b)]),
    }
}

// Puts a value.
fn put_value(value: Value, text: &mut Vec<u8>)
    requires { length text.old.items + 11 ≤ vec_capacity text.old }
    ensures put { (rest : Got (List ℕ)) →
        with_front text.old.items (after_value value rest) ≡ with_front text.new.items rest }
    ensures size { length text.new.items ≤ length text.old.items + 11 }
    ensures room { vec_capacity text.old ≤ vec_capacity text.new }
{
    put_shown(value, text);
}

// The byte of a character.
fn byte_of(value: Value) -> Result<u8, Stop>
    ensures { IsGot (λ byte g. g ≡ Known (pos byte)) result (then_get (character_of value) integer_of) }
{
    match character(value)? {
        Value::Int(z) => Ok(z as u8),
        Value::Bit(_) => Err(Stop::Wrong),
    }
}

// Puts a character.
fn put_character(value: Value, text: &mut Vec<u8>) -> Result<(), Stop>
    requires { length text.old.items + 1 ≤ vec_capacity text.old }
    ensures put { (rest : Got (List ℕ)) → IsPut result text.old.items (after_character value rest) text.new.items rest }
    ensures size { length text.new.items ≤ length text.old.items + 1 }
    ensures room { vec_capacity text.old ≤ vec_capacity text.new }
{
    let byte = byte_of(value)?;
    put(text, &[byte]);
    Ok(())
}

// The value at a place, and on to the next one.
fn next_value(values: &[Value], at: &mut usize) -> Result<Value, Stop>
    ensures { TakesNext (drop at.old values.now) result (drop at.new values.now) }
{
    match values.get(*at) {
        Some(value) => {
            *at += 1;
            Ok(*value)
        }
        None => Err(Stop::Wrong),
    }
}

// Puts the text of a part, whose value is the next one if it has any.
fn join_part(
    code: &CodeLists,
    part: PrintPart,
    values: &[Value],
    at: &mut usize,
    text: &mut Vec<u8>,
) -> Result<(), Stop>
    requires { length text.old.items + part_room code.now.texts part ≤ vec_capacity text.old }
    ensures put { (entries : List ℕ) (rest : List PrintPart) → IsPut result text.old.items
        (parts_text entries (constants_of code.now) (part ∷ rest) (drop at.old values.now)) text.new.items
        (parts_text entries (constants_of code.now) rest (drop at.new values.now)) }
    ensures size { length text.new.items ≤ length text.old.items + part_room code.now.texts part }
    ensures room { vec_capacity text.old ≤ vec_capacity text.new }
{
    match part {
        PrintPart::Text(n) => put_text(code.texts.as_slice(), n, text),
        PrintPart::Int | PrintPart::Bit => {
            let value = next_value(values, at)?;
            put_value(value, text);
            Ok(())
        }
        PrintPart::Char => {
            let value = next_value(values, at)?;
            put_character(value, text)
        }
    }
}

// Joins the texts of the parts, which take all these values.
fn join(
    code: &CodeLists,
    parts: &[PrintPart],
    values: &[Value],
    text: &mut Vec<u8>,
) -> Result<(), Stop>
    requires { parts_room code.now.texts parts.now ≤ vec_capacity text.old }
    ensures joined { (entries : List ℕ) → IsGot (λ done g. g ≡ Known text.new.items) result
        (parts_text entries (constants_of code.now) parts.now values.now) }
    ensures room { vec_capacity text.old ≤ vec_capacity text.new }
{
    text.clear();
    let mut at = 0;
    for part in parts {
        match join_part(code, *part, values, &mut at, text) {
            Ok(()) => {}
            Err(stop) => return Err(stop),
        }
    }
    if at < values.len() {
        return Err(Stop::Wrong);
    }
    Ok(())
}

/// Joins the text of a Print, for which there is room.
pub fn print(
    code: &CodeLists,
    parts: &[PrintPart],
    values: &[Value],
    text: &mut Vec<u8>,
) -> Result<Made, Stop>
    requires { parts_room code.now.texts parts.now ≤ vec_capacity text.old }
    ensures made { (entries : List ℕ) (s : State) (shifted : Shifted) → IsMade result
        (record { text = text.new.items; constants = constants_of code.now; states = []; shifted = shifted }) s s
        (does (printed (parts_text entries (constants_of code.now) parts.now values.now) s)) }
    ensures room { vec_capacity text.old ≤ vec_capacity text.new }
{
    match join(code, parts, values, text) {
        Ok(()) => Ok(Made::Acts(Doing::Prints)),
        Err(stop) => Err(stop),
    }
}

// How many bytes the text of a number has.
fn text_length(texts: &[Text], n: u32) -> usize
    ensures { result ≡ text_length (slice_get texts.now n) }
{
    match texts.get(n as usize) {
        Some(bytes) => bytes.as_slice().len(),
        None => 0,
    }
}

// The most bytes of a part.
fn part_room(code: &CodeLists, part: PrintPart) -> usize
    ensures { result ≡ part_room code.now.texts part }
{
    match part {
        PrintPart::Text(n) => text_length(code.texts.as_slice(), n),
        PrintPart::Int | PrintPart::Bit => 11,
        PrintPart::Char => 1,
    }
}

// The most bytes of these parts, if they are fewer than 2^64.
fn parts_room(code: &CodeLists, parts: &[PrintPart]) -> Option<usize>
    ensures some { IfSome result (λ n. n ≡ parts_room code.now.texts parts.now) }
    ensures none { IfNone result (2 ^ 64 ≤ parts_room code.now.texts parts.now) }
{
    let mut n: usize = 0;
    for part in parts {
        match n.checked_add(part_room(code, *part)) {
            Some(sum) => n = sum,
            None => return None,
        }
    }
    Some(n)
}

fn instr_room(code: &CodeLists, instr: &Instr) -> Option<usize>
    ensures some { IfSome result (λ n. n ≡ instr_room code.now.texts instr.now) }
    ensures none { IfNone result (2 ^ 64 ≤ instr_room code.now.texts instr.now) }
{
    match instr {
        Instr::Print(parts) => parts_room(code, parts.as_slice()),
        _ => Some(0),
    }
}

/// The most bytes that a Print of the code may put, or `None` if they are 2^64 or more.
pub fn print_room(code: &CodeLists) -> Option<usize>
    ensures some { IfSome result (λ n. n ≡ print_room code.now.texts code.now.instrs) }
    ensures none { IfNone result (2 ^ 64 ≤ print_room code.now.texts code.now.instrs) }
{
    let mut most: usize = 0;
    for instr in code.instrs.as_slice() {
        match instr_room(code, instr) {
            Some(n) => most = most.max(n),
            None => return None,
        }
    }
    Some(most)
}
