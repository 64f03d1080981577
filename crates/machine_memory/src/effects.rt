//! What instructions make of the operands that they take, the topmost last.
ghost use Rattle.std.specs.Prelude.{◌≡◌, List, ℕ, slice_get, false};
ghost use Rattle.stapl_meaning.specs.Values.{scalar_of};
ghost use Rattle.stapl_meaning.specs.Operands.{character_of};
ghost use Rattle.stapl_meaning.specs.States.{ScanSettings, State};
ghost use Rattle.stapl_meaning.specs.declared.records.Record.{Record};
ghost use Rattle.stapl_meaning.specs.Effects.{digit_of, with_scalar, scalar_written, assigned, jumped, parted, exited};
ghost use Rattle.stapl_code.specs.Machine.{bit_of, operated, signed_by, one, two, does};
ghost use Rattle.stapl_code.specs.Operators.{unary_results};
ghost use Rattle.machine_memory.specs.Found.{IsValue, if_written};
ghost use Rattle.machine_memory.specs.Acts.{IsMade, Told, state_with};

use crate::operate::{Stop, absolute, combine, sign};
use crate::parts::{Part, held_at};
use stapl_code::operator_of;
use stapl_lexer::Register;
use stapl_meaning::{Ending, Held, RunFault, Value};
use stapl_syntax::UnOp;
use tap_states::Tap;

/// Where bits lie.
#[derive(Clone, Copy)]
pub enum BitsAt {
    /// In the literal of a number.
    Literal(u32),
    /// In a part of an array.
    Part(Part),
    /// In an integer, which has 32.
    Integer(i32),
}

/// What is exported.
#[derive(Clone, Copy)]
pub enum Exported {
    /// A value.
    Value(Value),
    /// The bits that lie somewhere.
    Bits(BitsAt),
}

/// An export under the text of a number, which is written from where its bits lie.
#[derive(Clone, Copy)]
pub struct Export {
    pub key: u32,
    pub value: Exported,
}

/// What a WAIT does: where it waits, for how many clocks, for how many microseconds, and where it goes then.
#[derive(Clone, Copy)]
pub struct Wait {
    pub at: Tap,
    pub cycles: Option<u32>,
    pub usec: Option<u32>,
    pub last: Tap,
}

/// The cell of the result of a comparison: a scalar, or an element at an index.
#[derive(Clone, Copy)]
pub enum CellAt {
    Scalar(u32),
    Element(u32, i32),
}

/// What a scan compares with, by where it lies.
#[derive(Clone, Copy)]
pub struct ComparedAt {
    pub expected: BitsAt,
    pub mask: BitsAt,
    pub cell: CellAt,
}

/// The parts of a scan, by where they lie.
#[derive(Clone, Copy)]
pub struct PartsAt {
    pub source: BitsAt,
    pub target: Option<Part>,
    pub compare: Option<ComparedAt>,
}

/// A scan that is still to be done, whose bits were taken: its registers, where the captured bits go, and if they are
/// compared, where the result goes.
#[derive(Clone, Copy)]
pub struct ScanJob {
    pub register: Register,
    pub target: Option<Part>,
    pub cell: Option<CellAt>,
}

/// What is still to be done to the outside.
#[derive(Clone, Copy)]
pub enum Doing {
    /// The text of the last Print is printed.
    Prints,
    /// Something is exported.
    Exports(Export),
    /// The chain moves through the states of the instruction.
    Moves,
    /// The chain waits.
    Waits(Wait),
    /// A frequency is stated in hertz, or none by 0.
    Tunes(u32),
}

/// What an instruction made.
#[derive(Clone, Copy)]
pub enum Made {
    /// A value, which goes on top of the operands.
    Put(Value),
    /// Two values, which go on top of the operands, the second topmost.
    PutTwo(Value, Value),
    /// A value that was taken off the records, which goes on top of the operands.
    Popped(Value),
    /// It goes on to the next instruction.
    On,
    /// It goes on, with something that is still to be done to the outside.
    Acts(Doing),
    /// It goes on, with a scan that is still to be done.
    Scans(ScanJob),
    /// It goes to its target.
    Jump,
    /// It goes to the place that a record kept.
    Resume(u32),
    /// The procedure is over.
    Returned,
    /// The play is over.
    Over(Ending),
}

/// The value of a scalar variable.
#[inline(always)]
pub fn load(variables: &[Held], n: u32) -> Result<Value, Stop>
    ensures { IsValue result (scalar_of (slice_get variables.now n)) }
{
    match held_at(variables, n) {
        Some(Held::Int(value)) => Ok(Value::Int(*value)),
        Some(Held::Bit(value)) => Ok(Value::Bit(*value)),
        _ => Err(Stop::Wrong),
    }
}

#[inline(always)]
fn write(held: &mut Held, value: Value) -> bool
    ensures written { with_scalar held.old value ≡ if_written result held.new }
    ensures same { result ≡ false → held.new ≡ held.old }
{
    match (held, value) {
        (Held::Int(old), Value::Int(new)) => {
            *old = new;
            true
        }
        (Held::Bit(old), Value::Bit(new)) => {
            *old = new;
            true
        }
        _ => false,
    }
}

/// Writes a value into a scalar variable of its kind, and answers whether there is one.
#[inline(always)]
pub fn store(variables: &mut Vec<Held>, n: u32, value: Value) -> bool
    ensures written { scalar_written variables.old.items n (slice_get variables.old.items n) value
        ≡ if_written result variables.new.items }
    ensures same { result ≡ false → variables.new.items ≡ variables.old.items }
{
    if n as usize >= variables.len() {
        return false;
    }
    write(&mut variables[n as usize], value)
}

/// A value goes into a scalar variable.
pub fn assign(variables: &mut Vec<Held>, n: u32, values: &[Value]) -> Result<Made, Stop>
    ensures { (told : Told) (chosen : List ℕ) (records : List Record) (ir dr : ScanSettings) →
        IsMade result told (state_with chosen records ir dr variables.old.items)
        (state_with chosen records ir dr variables.new.items)
        (does (assigned n values.now (state_with chosen records ir dr variables.old.items))) }
{
    match values {
        [value] => {
            if !store(variables, n, *value) {
                return Err(Stop::Wrong);
            }
            Ok(Made::On)
        }
        _ => Err(Stop::Wrong),
    }
}

/// The Boolean of a bit.
#[inline(always)]
pub fn bit(bit: u8) -> Result<Value, Stop>
    ensures { IsValue result (bit_of bit) }
{
    match bit {
        0 => Ok(Value::Bit(false)),
        1 => Ok(Value::Bit(true)),
        _ => Err(Stop::Wrong),
    }
}

/// A Boolean as a digit.
pub fn digit_of(bit: bool) -> u8
    ensures { result ≡ digit_of bit }
{
    if bit { b'1' } else { b'0' }
}

fn operate(number: u8, left: Value, right: Value) -> Result<Value, Stop>
    ensures { IsValue result (operated number left right) }
{
    match operator_of(number) {
        Some(operator) => combine(operator.op, left, right),
        None => Err(Stop::Wrong),
    }
}

/// What the operator of a number makes of a value before which it stands.
#[inline(always)]
pub fn operate_before(number: u8, value: Value) -> Result<Value, Stop>
    ensures { IsValue result (signed_by (slice_get unary_results number) value) }
{
    match number {
        0 => sign(UnOp::Negate, value),
        1 => sign(UnOp::Complement, value),
        2 => absolute(value),
        3 => sign(UnOp::Not, value),
        _ => Err(Stop::Wrong),
    }
}

/// What the operator of a number makes of one value.
pub fn operate_one(number: u8, values: &[Value]) -> Result<Made, Stop>
    ensures { (told : Told) (s : State) →
        IsMade result told s s (one values.now (signed_by (slice_get unary_results number))) }
{
    match values {
        [value] => {
            let value = operate_before(number, *value)?;
            Ok(Made::Put(value))
        }
        _ => Err(Stop::Wrong),
    }
}

/// What the operator of a number makes of two values.
pub fn operate_two(number: u8, values: &[Value]) -> Result<Made, Stop>
    ensures { (told : Told) (s : State) → IsMade result told s s (two values.now (operated number)) }
{
    match values {
        [left, right] => {
            let value = operate(number, *left, *right)?;
            Ok(Made::Put(value))
        }
        _ => Err(Stop::Wrong),
    }
}

/// A value that is the number of a character.
pub fn character(value: Value) -> Result<Value, Stop>
    ensures { IsValue result (character_of value) }
{
    match value {
        Value::Int(z) => {
            if z < 0 || z >= 256 {
                return Err(Stop::Fault(RunFault::BadChar));
            }
            Ok(Value::Int(z))
        }
        Value::Bit(_) => Err(Stop::Wrong),
    }
}

/// The test of a character.
pub fn check_character(values: &[Value]) -> Result<Made, Stop>
    ensures { (told : Told) (s : State) → IsMade result told s s (one values.now character_of) }
{
    match values {
        [value] => {
            let value = character(*value)?;
            Ok(Made::Put(value))
        }
        _ => Err(Stop::Wrong),
    }
}

/// To the target.
pub fn jump(values: &[Value]) -> Result<Made, Stop>
    ensures { (told : Told) (s : State) → IsMade result told s s (does (jumped values.now s)) }
{
    match values {
        [] => Ok(Made::Jump),
        _ => Err(Stop::Wrong),
    }
}

/// On where a Boolean is 1, else to the target.
pub fn part_ways(values: &[Value]) -> Result<Made, Stop>
    ensures { (told : Told) (s : State) → IsMade result told s s (does (parted values.now s)) }
{
    match values {
        [Value::Bit(true)] => Ok(Made::On),
        [Value::Bit(false)] => Ok(Made::Jump),
        _ => Err(Stop::Wrong),
    }
}

/// The play is over.
pub fn exit(values: &[Value]) -> Result<Made, Stop>
    ensures { (told : Told) (s : State) → IsMade result told s s (does (exited values.now s)) }
{
    match values {
        [Value::Int(code)] => Ok(Made::Over(Ending::Exit(*code))),
        _ => Err(Stop::Wrong),
    }
}
