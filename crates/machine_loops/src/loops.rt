//! What instructions make of loops, which lie on the record stack.
ghost use Rattle.std.specs.Prelude.{◌≡◌, ◌<◌, List, [], ℕ, length, reverse, take, slice_get, Some};
ghost use Rattle.stapl_meaning.specs.declared.records.Record.TheVariants.{Looped};
ghost use Rattle.stapl_meaning.specs.Values.{Known};
ghost use Rattle.stapl_meaning.specs.Effects.{looped, is_over, integer_held, went_round, repeated};
ghost use Rattle.stapl_code.specs.Machine.{does};
ghost use Rattle.machine_memory.specs.Found.{IsGot};
ghost use Rattle.machine_memory.specs.Acts.{IsMade, Told, state_in};
ghost use Rattle.machine_loops.specs.Loops.{begun_loop, IsSearched};

use machine_memory::effects::{Made, store};
use machine_memory::memory::Memory;
use machine_memory::operate::{Stop, sum};
use machine_memory::parts::held_at;
use machine_memory::records::is_full;
use stapl_meaning::{Held, Loop, Record, RunFault, Value};

// A loop is put on top of the records, and its variable is set.
fn begin(memory: &mut Memory, for_loop: Loop, first: i32) -> Result<Made, Stop>
    ensures { (told : Told) (chosen : List ℕ) →
        IsMade result told (state_in chosen memory.old) (state_in chosen memory.new)
        (does (begun_loop for_loop first (state_in chosen memory.old))) }
{
    if for_loop.step == 0 {
        return Err(Stop::Fault(RunFault::ZeroStep));
    }
    if is_full(&memory.records) {
        return Err(Stop::Fault(RunFault::RecordsFull));
    }
    if !store(&mut memory.variables, for_loop.variable, Value::Int(first)) {
        return Err(Stop::Wrong);
    }
    memory.records.push(Record::Looped(for_loop));
    Ok(Made::On)
}

/// The loop of the variable of number n begins, from a first value, a limit and a step.
pub fn begin_loop(memory: &mut Memory, n: u32, body: u32, values: &[Value]) -> Result<Made, Stop>
    ensures { (told : Told) (chosen : List ℕ) →
        IsMade result told (state_in chosen memory.old) (state_in chosen memory.new)
        (does (looped n body values.now (state_in chosen memory.old))) }
{
    match values {
        [Value::Int(first), Value::Int(limit), Value::Int(step)] => {
            let for_loop = Loop {
                variable: n,
                limit: *limit,
                step: *step,
                place: body,
            };
            begin(memory, for_loop, *first)
        }
        _ => Err(Stop::Wrong),
    }
}

/// The nearest loop of a variable, and the place of its record.
#[derive(Clone, Copy)]
pub struct Nearest {
    pub at: usize,
    pub for_loop: Loop,
}

// Finds the topmost loop of the variable of number n, if loops of other variables alone stand above it.
fn find_loop(records: &[Record], n: u32) -> Option<Nearest>
    ensures { IsSearched records.now n result }
{
    let mut at = records.len();
    'down: while at > 0 {
        at -= 1;
        match records[at] {
            Record::Looped(for_loop) => {
                if for_loop.variable == n {
                    return Some(Nearest { at, for_loop });
                }
            }
            _ => return None,
        }
    }
    None
}

/// Whether a loop is over if its variable holds this integer.
#[inline(always)]
pub fn is_over(for_loop: Loop, z: i32) -> bool
    ensures { result ≡ is_over for_loop z }
{
    (0 < for_loop.step && for_loop.limit <= z) || (for_loop.step < 0 && z <= for_loop.limit)
}

/// The integer that a scalar holds.
#[inline(always)]
pub fn integer_held(variables: &[Held], n: u32) -> Result<i32, Stop>
    ensures { IsGot (λ z g. g ≡ Known z) result (integer_held (slice_get variables.now n)) }
{
    match held_at(variables, n) {
        Some(Held::Int(z)) => Ok(*z),
        _ => Err(Stop::Wrong),
    }
}

// The loop of a record, whose variable holds this integer, goes round, or it is over.
fn go_round(memory: &mut Memory, found: Nearest, z: i32) -> Result<Made, Stop>
    requires there { found.at < length memory.old.records.items }
    requires is { slice_get memory.old.records.items found.at ≡ Some (Looped found.for_loop) }
    ensures { (told : Told) (chosen : List ℕ) →
        IsMade result told (state_in chosen memory.old) (state_in chosen memory.new)
        (does (went_round found.for_loop (reverse (take found.at memory.old.records.items)) z
        (state_in chosen memory.old))) }
{
    if is_over(found.for_loop, z) {
        memory.records.truncate(found.at);
        return Ok(Made::On);
    }
    let next = sum(z, found.for_loop.step);
    if !store(
        &mut memory.variables,
        found.for_loop.variable,
        Value::Int(next),
    ) {
        return Err(Stop::Wrong);
    }
    memory.records.keep_through(found.at);
    Ok(Made::Resume(found.for_loop.place))
}

// The nearest loop of the variable of number n goes round, or it is over.
fn repeat_nearest(memory: &mut Memory, n: u32) -> Result<Made, Stop>
    ensures { (told : Told) (chosen : List ℕ) →
        IsMade result told (state_in chosen memory.old) (state_in chosen memory.new)
        (does (repeated n [] (state_in chosen memory.old))) }
{
    match find_loop(memory.records.as_slice(), n) {
        Some(found) => {
            let z = integer_held(&memory.variables, n)?;
            go_round(memory, found, z)
        }
        None => Err(Stop::Fault(RunFault::NoRecord)),
    }
}

/// The loop of the variable of number n goes round, or it is over.
pub fn repeat(memory: &mut Memory, n: u32, values: &[Value]) -> Result<Made, Stop>
    ensures { (told : Told) (chosen : List ℕ) →
        IsMade result told (state_in chosen memory.old) (state_in chosen memory.new)
        (does (repeated n values.now (state_in chosen memory.old))) }
{
    match values {
        [] => repeat_nearest(memory, n),
        _ => Err(Stop::Wrong),
    }
}
