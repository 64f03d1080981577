//! Elements of arrays.
ghost use Rattle.std.specs.Prelude.{◌≡◌, ◌<◌, OnErr, List, ℕ, length, nat_abs, slice_get, slice_set, pos, Some};
ghost use Rattle.stapl_meaning.specs.declared.values.Value.TheVariants.{Int, Bit};
ghost use Rattle.stapl_meaning.specs.declared.events.RunFault.TheVariants.{IndexOutOfRange};
ghost use Rattle.stapl_meaning.specs.Values.{Known, is_index, passed, item_at, element_of, index_held, padded};
ghost use Rattle.stapl_meaning.specs.States.{ScanSettings, State};
ghost use Rattle.stapl_meaning.specs.declared.records.Record.{Record};
ghost use Rattle.stapl_meaning.specs.Effects.{with_element, element_written, element_assigned, with_integers, integers_set, replaced};
ghost use Rattle.stapl_code.specs.Machine.{one, does};
ghost use Rattle.machine_memory.specs.Found.{IsGot, IsValue, if_written};
ghost use Rattle.machine_memory.specs.Acts.{IsMade, Told, state_with};
ghost use Rattle.machine_memory.specs.Arrays.{place_in};

use crate::effects::Made;
use crate::operate::Stop;
use crate::parts::held_at;
use base::ItemList;
use bit_list::Bits;
use stapl_meaning::{Held, RunFault, Value};

// An index as a place in a list of so many items.
fn place_in(index: i32, count: usize) -> Option<usize>
    ensures { result ≡ place_in index count }
{
    if index < 0 {
        return None;
    }
    let place = index as usize;
    if place < count { Some(place) } else { None }
}

fn integer_at(items: &[i32], index: i32) -> Result<Value, Stop>
    ensures { IsValue result (item_at Int items.now index) }
{
    match place_in(index, items.len()) {
        Some(place) => Ok(Value::Int(items[place])),
        None => Err(Stop::Fault(RunFault::IndexOutOfRange)),
    }
}

fn bit_at(bits: &Bits, index: i32) -> Result<Value, Stop>
    ensures { IsValue result (item_at Bit bits.now index) }
{
    match place_in(index, bits.len() as usize) {
        Some(place) => Ok(Value::Bit(bits.get(place as u32))),
        None => Err(Stop::Fault(RunFault::IndexOutOfRange)),
    }
}

/// The element of an array at an index.
pub fn element(variables: &[Held], n: u32, index: i32) -> Result<Value, Stop>
    ensures { IsValue result (element_of (slice_get variables.now n) (Int index)) }
{
    match held_at(variables, n) {
        Some(Held::Ints(items)) => integer_at(items.as_slice(), index),
        Some(Held::Bits(bits)) => bit_at(bits, index),
        _ => Err(Stop::Wrong),
    }
}

/// The element of an array at an index that is taken.
pub fn load_at(variables: &[Held], n: u32, values: &[Value]) -> Result<Made, Stop>
    ensures { (told : Told) (s : State) →
        IsMade result told s s (one values.now (element_of (slice_get variables.now n))) }
{
    match values {
        [Value::Int(index)] => Ok(Made::Put(element(variables, n, *index)?)),
        _ => Err(Stop::Wrong),
    }
}

// An index that is one of a list of so many items.
fn index_in(index: i32, count: usize) -> Result<Value, Stop>
    ensures { IsValue result (passed (is_index index count) IndexOutOfRange (Int index)) }
{
    match place_in(index, count) {
        Some(_) => Ok(Value::Int(index)),
        None => Err(Stop::Fault(RunFault::IndexOutOfRange)),
    }
}

/// An index that is one of an array.
pub fn index_of(variables: &[Held], n: u32, index: i32) -> Result<Value, Stop>
    ensures { IsValue result (index_held (slice_get variables.now n) (Int index)) }
{
    match held_at(variables, n) {
        Some(Held::Ints(items)) => index_in(index, items.len()),
        Some(Held::Bits(bits)) => index_in(index, bits.len() as usize),
        _ => Err(Stop::Wrong),
    }
}

/// The test of an index.
pub fn check_index(variables: &[Held], n: u32, values: &[Value]) -> Result<Made, Stop>
    ensures { (told : Told) (s : State) →
        IsMade result told s s (one values.now (index_held (slice_get variables.now n))) }
{
    match values {
        [Value::Int(index)] => Ok(Made::Put(index_of(variables, n, *index)?)),
        _ => Err(Stop::Wrong),
    }
}

// Puts an integer at an index, if it is one of the list.
#[inline(always)]
fn write_integer(items: &mut [i32], index: i32, value: i32) -> Result<(), Stop>
    ensures written { IsGot (λ done g. g ≡ Known items.new) result
        (passed (is_index index (length items.old)) IndexOutOfRange (slice_set items.old (nat_abs index) value)) }
    ensures same { OnErr result (items.new ≡ items.old) }
{
    match place_in(index, items.len()) {
        Some(place) => {
            items[place] = value;
            Ok(())
        }
        None => Err(Stop::Fault(RunFault::IndexOutOfRange)),
    }
}

// Puts a bit at an index, if it is one of the list.
#[inline(always)]
fn write_bit(bits: &mut Bits, index: i32, value: bool) -> Result<(), Stop>
    ensures written { IsGot (λ done g. g ≡ Known bits.new) result
        (passed (is_index index (length bits.old)) IndexOutOfRange (slice_set bits.old (nat_abs index) value)) }
    ensures same { OnErr result (bits.new ≡ bits.old) }
{
    match place_in(index, bits.len() as usize) {
        Some(place) => {
            bits.set(place as u32, value);
            Ok(())
        }
        None => Err(Stop::Fault(RunFault::IndexOutOfRange)),
    }
}

// Puts an integer into an INTEGER array. The list of integers is taken out and put back, which asks for no memory.
#[inline(always)]
fn set_integer(held: &mut Held, index: i32, value: i32) -> Result<(), Stop>
    ensures written { IsGot (λ done g. g ≡ Known held.new) result (with_element held.old index (Int value)) }
    ensures same { OnErr result (held.new ≡ held.old) }
{
    match std::mem::replace(held, Held::Int(0)) {
        Held::Ints(items) => {
            let mut items = items.into_items();
            let done = write_integer(&mut items, index, value);
            drop(std::mem::replace(held, Held::Ints(ItemList::of(items))));
            done
        }
        other => {
            *held = other;
            Err(Stop::Wrong)
        }
    }
}

// Puts a bit into a BOOLEAN array.
#[inline(always)]
fn set_bit(held: &mut Held, index: i32, value: bool) -> Result<(), Stop>
    ensures written { IsGot (λ done g. g ≡ Known held.new) result (with_element held.old index (Bit value)) }
    ensures same { OnErr result (held.new ≡ held.old) }
{
    match held {
        Held::Bits(bits) => write_bit(bits, index, value),
        _ => Err(Stop::Wrong),
    }
}

#[inline(always)]
fn set_element(held: &mut Held, index: i32, value: Value) -> Result<(), Stop>
    ensures written { IsGot (λ done g. g ≡ Known held.new) result (with_element held.old index value) }
    ensures same { OnErr result (held.new ≡ held.old) }
{
    match value {
        Value::Int(value) => set_integer(held, index, value),
        Value::Bit(value) => set_bit(held, index, value),
    }
}

/// Puts a value into an element of an array of its kind.
#[inline(always)]
pub fn store_at(variables: &mut Vec<Held>, n: u32, index: i32, value: Value) -> Result<(), Stop>
    ensures written { IsGot (λ done g. g ≡ Known variables.new.items) result
        (element_written variables.old.items n (slice_get variables.old.items n) index value) }
    ensures same { OnErr result (variables.new.items ≡ variables.old.items) }
{
    if n as usize >= variables.len() {
        return Err(Stop::Wrong);
    }
    set_element(&mut variables[n as usize], index, value)
}

/// A value goes into the element of an array at an index.
pub fn assign_at(variables: &mut Vec<Held>, n: u32, values: &[Value]) -> Result<Made, Stop>
    ensures { (told : Told) (chosen : List ℕ) (records : List Record) (ir dr : ScanSettings) →
        IsMade result told (state_with chosen records ir dr variables.old.items)
        (state_with chosen records ir dr variables.new.items)
        (does (element_assigned n values.now (state_with chosen records ir dr variables.old.items))) }
{
    match values {
        [Value::Int(index), value] => {
            store_at(variables, n, *index, *value)?;
            Ok(Made::On)
        }
        _ => Err(Stop::Wrong),
    }
}

// Sets all items to the first ones of a list, and to 0 where it has none.
fn write_integers(items: &mut [i32], list: &[i32])
    ensures { items.new ≡ padded (pos 0) (length items.old) list.now }
{
    let n = items.len().min(list.len());
    items[..n].copy_from_slice(&list[..n]);
    items[n..].fill(0);
}

// Sets the elements of an INTEGER array, and answers whether it is one.
fn set_elements(held: &mut Held, list: &[i32]) -> bool
    ensures { with_integers list.now (Some held.old) ≡ if_written result held.new }
{
    match std::mem::replace(held, Held::Int(0)) {
        Held::Ints(items) => {
            let mut items = items.into_items();
            write_integers(&mut items, list);
            *held = Held::Ints(ItemList::of(items));
            true
        }
        other => {
            *held = other;
            false
        }
    }
}

// Sets the elements of the INTEGER array of a number, and answers whether it is one.
fn store_all(variables: &mut Vec<Held>, n: u32, list: &[i32]) -> bool
    ensures { replaced variables.old.items n (with_integers list.now (slice_get variables.old.items n))
        ≡ if_written result variables.new.items }
{
    if n as usize >= variables.len() {
        return false;
    }
    set_elements(&mut variables[n as usize], list)
}

/// Sets the elements of an INTEGER array from index 0 on, and those after them to 0.
pub fn set_integers(
    variables: &mut Vec<Held>,
    n: u32,
    list: &[i32],
    values: &[Value],
) -> Result<Made, Stop>
    ensures { (told : Told) (chosen : List ℕ) (records : List Record) (ir dr : ScanSettings) →
        IsMade result told (state_with chosen records ir dr variables.old.items)
        (state_with chosen records ir dr variables.new.items)
        (does (integers_set n list.now values.now (state_with chosen records ir dr variables.old.items))) }
{
    match values {
        [] => {
            if !store_all(variables, n, list) {
                return Err(Stop::Wrong);
            }
            Ok(Made::On)
        }
        _ => Err(Stop::Wrong),
    }
}
