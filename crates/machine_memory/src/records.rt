//! What instructions make of the record stack: values, calls and loops.
ghost use Rattle.std.specs.Prelude.{◌≡◌, List, ℕ, length, reverse, nat_lt, not};
ghost use Rattle.stapl_meaning.specs.declared.records.Record.{Record};
ghost use Rattle.stapl_meaning.specs.declared.values.Held.{Held};
ghost use Rattle.stapl_meaning.specs.Effects.{record_limit, with_records, number_of, value_as, pushed, topmost, called, returned_from, returned};
ghost use Rattle.stapl_meaning.specs.States.{ScanSettings, State};
ghost use Rattle.stapl_code.specs.Machine.{does, unrecorded};
ghost use Rattle.machine_memory.specs.Acts.{IsMade, Told, state_with};
ghost use Rattle.machine_memory.specs.Records.{returns_to};

use crate::effects::Made;
use crate::operate::Stop;
use crate::record_stack::{RECORD_LIMIT, RecordStack};
use stapl_meaning::{Record, RunFault, Value, ValueKind};

/// Whether there is no room for one more record.
pub fn is_full(records: &RecordStack) -> bool
    ensures { nat_lt (length (reverse records.now.items)) record_limit ≡ not result }
{
    records.len() >= RECORD_LIMIT
}

// A value as a number.
fn number_of(value: Value) -> i32
    ensures { result ≡ number_of value }
{
    match value {
        Value::Int(z) => z,
        Value::Bit(b) => i32::from(b),
    }
}

/// A value is put on top of the records.
pub fn push_value(records: &mut RecordStack, values: &[Value]) -> Result<Made, Stop>
    ensures { (told : Told) (chosen : List ℕ) (ir dr : ScanSettings) (variables : List Held) →
        IsMade result told (state_with chosen (reverse records.old.items) ir dr variables)
        (state_with chosen (reverse records.new.items) ir dr variables)
        (does (pushed values.now (state_with chosen (reverse records.old.items) ir dr variables))) }
{
    match values {
        [value] => {
            if is_full(records) {
                return Err(Stop::Fault(RunFault::RecordsFull));
            }
            records.push(Record::Pushed(number_of(*value)));
            Ok(Made::On)
        }
        _ => Err(Stop::Wrong),
    }
}

// A number as a value of a kind.
fn value_as(kind: ValueKind, z: i32) -> Value
    ensures { result ≡ value_as kind z }
{
    match kind {
        ValueKind::Int => Value::Int(z),
        ValueKind::Bit => Value::Bit(z != 0),
    }
}

/// The topmost record is taken off, if it is a value.
pub fn pop_value(records: &mut RecordStack, kind: ValueKind) -> Result<Made, Stop>
    ensures { (told : Told) (chosen : List ℕ) (ir dr : ScanSettings) (variables : List Held) →
        IsMade result told (state_with chosen (reverse records.old.items) ir dr variables)
        (state_with chosen (reverse records.new.items) ir dr variables)
        (unrecorded (topmost kind (reverse records.old.items))
        (state_with chosen (reverse records.old.items) ir dr variables)) }
{
    match records.as_slice() {
        [.., Record::Pushed(z)] => {
            let value = value_as(kind, *z);
            let _ = records.pop();
            Ok(Made::Popped(value))
        }
        _ => Err(Stop::Fault(RunFault::NoRecord)),
    }
}

/// A procedure is called. A record keeps the place after.
pub fn call(records: &mut RecordStack, after: u32, values: &[Value]) -> Result<Made, Stop>
    ensures { (told : Told) (chosen : List ℕ) (ir dr : ScanSettings) (variables : List Held) →
        IsMade result told (state_with chosen (reverse records.old.items) ir dr variables)
        (state_with chosen (reverse records.new.items) ir dr variables)
        (does (called after values.now (state_with chosen (reverse records.old.items) ir dr variables))) }
{
    match values {
        [] => {
            if is_full(records) {
                return Err(Stop::Fault(RunFault::RecordsFull));
            }
            records.push(Record::Called(after));
            Ok(Made::Jump)
        }
        _ => Err(Stop::Wrong),
    }
}

// Drops the records down to and with the nearest call, and answers where it returns to; if there is none, drops all.
fn drop_to_call(records: &mut RecordStack) -> Option<u32>
    ensures { (s : State) → returned_from (reverse records.old.items) s
        ≡ returns_to result (with_records s (reverse records.new.items)) }
{
    'down: while let Some(top) = records.pop() {
        if let Record::Called(place) = top {
            return Some(place);
        }
    }
    None
}

/// The procedure is over: the play goes on after the nearest call, if there is one.
pub fn end_procedure(records: &mut RecordStack, values: &[Value]) -> Result<Made, Stop>
    ensures { (told : Told) (chosen : List ℕ) (ir dr : ScanSettings) (variables : List Held) →
        IsMade result told (state_with chosen (reverse records.old.items) ir dr variables)
        (state_with chosen (reverse records.new.items) ir dr variables)
        (does (returned values.now (state_with chosen (reverse records.old.items) ir dr variables))) }
{
    match values {
        [] => match drop_to_call(records) {
            Some(place) => Ok(Made::Resume(place)),
            None => Ok(Made::Returned),
        },
        _ => Err(Stop::Wrong),
    }
}
