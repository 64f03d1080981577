//! The instructions that most turns are made of, done at once where nothing stands in their way.
ghost use Rattle.std.specs.Prelude.{◌≡◌, ◌∷◌, ◌<◌, ◌≤◌, [], List, ℕ, IfSome, drop, length, reverse, slice_get, vec_capacity};
ghost use Rattle.stapl_meaning.specs.declared.values.Value.TheVariants.{Int, Bit};
ghost use Rattle.stapl_meaning.specs.Values.{Known, element_of, index_held};
ghost use Rattle.stapl_code.specs.Machine.{Falls, Stops, operated};
ghost use Rattle.stapl_code.specs.Rooms.{count_after};
ghost use Rattle.stapl_meaning.specs.declared.records.Record.TheVariants.{Looped};
ghost use Rattle.stapl_meaning.specs.States.{Leads};
ghost use Rattle.stapl_meaning.specs.Effects.{repeated};
ghost use Rattle.stapl_code.specs.declared.instr.Instr.TheVariants.{PushBit, Load, LoadAt, CheckIndex, CheckRange, Store, StoreAt, Unary, Binary, ToInt, Next, JumpIfZero};
ghost use Rattle.stapl_code.specs.declared.instr.Source.TheVariants.{Range};
ghost use Rattle.stapl_code.specs.declared.raw.CodeLists.{CodeLists};
ghost use Rattle.machine_memory.specs.Acts.{operands_of, state_in, state_of, step_of};
ghost use Rattle.machine_memory.specs.RunRooms.{IsKeptBeside};
ghost use Rattle.stapl_instructions.specs.TriedInstrs.{IsTried, IsRound, IsWritten, element_put};

use machine_copies::range_integer;
use machine_loops::{integer_held, is_over};
use machine_memory::arrays::{element, index_of, store_at};
use machine_memory::effects::{bit, load, operate_before, store};
use machine_memory::memory::{Memory, Workspace};
use machine_memory::operands::{leave, put, replace, top, top_two};
use machine_memory::operate::{
    common_bits, difference, different_bits, divide, joint_bits, product, remainder, shift_left,
    shift_right, sum,
};
use machine_memory::parts::range;
use machine_memory::record_stack::RecordStack;
use stapl_code::{CodeLists, Instr, Source};
use stapl_meaning::{Held, Loop, Record, Value};

/// What came of an instruction that was tried.
#[derive(Clone, Copy)]
pub enum Tried {
    /// It is done, and the next one follows.
    On,
    /// It is done, and the turn at this place follows.
    To(u32),
    /// It is not done, and nothing is changed.
    Not,
}

// Puts a value on the operands.
#[inline(always)]
fn try_put(value: Value, work: &mut Workspace) -> Tried
    requires { length work.old.operands.items < vec_capacity work.old.operands }
    ensures tried { (chosen : List ℕ) →
        IsTried result chosen work.old work.new (Falls (value ∷ operands_of work.old) (state_of chosen work.old)) }
    ensures kept { IsKeptBeside work.old work.new }
{
    put(&mut work.operands, value);
    Tried::On
}

#[inline(always)]
fn try_bit(number: u8, work: &mut Workspace) -> Tried
    requires { length work.old.operands.items < vec_capacity work.old.operands }
    ensures tried { (code : CodeLists) (here : ℕ) (chosen : List ℕ) →
        IsTried result chosen work.old work.new (step_of code here (PushBit number) chosen work.old) }
    ensures kept { IsKeptBeside work.old work.new }
{
    match bit(number) {
        Ok(value) => try_put(value, work),
        Err(_) => Tried::Not,
    }
}

#[inline(always)]
fn try_load(n: u32, work: &mut Workspace) -> Tried
    requires { length work.old.operands.items < vec_capacity work.old.operands }
    ensures tried { (code : CodeLists) (here : ℕ) (chosen : List ℕ) →
        IsTried result chosen work.old work.new (step_of code here (Load n) chosen work.old) }
    ensures kept { IsKeptBeside work.old work.new }
{
    match load(&work.memory.variables, n) {
        Ok(value) => try_put(value, work),
        Err(_) => Tried::Not,
    }
}

#[inline(always)]
fn try_store(n: u32, work: &mut Workspace) -> Tried
    ensures tried { (code : CodeLists) (here : ℕ) (chosen : List ℕ) →
        IsTried result chosen work.old work.new (step_of code here (Store n) chosen work.old) }
    ensures kept { IsKeptBeside work.old work.new }
{
    match top(&work.operands) {
        Some(value) => {
            if !store(&mut work.memory.variables, n, value) {
                return Tried::Not;
            }
            leave(&mut work.operands);
            Tried::On
        }
        None => Tried::Not,
    }
}

// What the operator of a number makes of two integers, if it does not fault.
#[inline(always)]
fn of_integers(number: u8, a: i32, b: i32) -> Option<Value>
    ensures { IfSome result (λ v. operated number (Int a) (Int b) ≡ Known v) }
{
    match number {
        0 => Some(Value::Int(sum(a, b))),
        1 => Some(Value::Int(difference(a, b))),
        2 => Some(Value::Int(product(a, b))),
        3 => divide(a, b).ok(),
        4 => remainder(a, b).ok(),
        5 => Some(Value::Int(common_bits(a, b))),
        6 => Some(Value::Int(joint_bits(a, b))),
        7 => Some(Value::Int(different_bits(a, b))),
        8 => shift_left(a, b).ok(),
        9 => shift_right(a, b).ok(),
        10 => Some(Value::Bit(a == b)),
        11 => Some(Value::Bit(a != b)),
        12 => Some(Value::Bit(a < b)),
        13 => Some(Value::Bit(a <= b)),
        14 => Some(Value::Bit(a > b)),
        15 => Some(Value::Bit(a >= b)),
        _ => None,
    }
}

// What the operator of a number makes of two Booleans.
#[inline(always)]
fn of_booleans(number: u8, a: bool, b: bool) -> Option<Value>
    ensures { IfSome result (λ v. operated number (Bit a) (Bit b) ≡ Known v) }
{
    match number {
        16 | 19 => Some(Value::Bit(a && b)),
        17 | 20 => Some(Value::Bit(a || b)),
        18 | 22 => Some(Value::Bit(a != b)),
        21 => Some(Value::Bit(a == b)),
        _ => None,
    }
}

#[inline(always)]
fn of_two(number: u8, left: Value, right: Value) -> Option<Value>
    ensures { IfSome result (λ v. operated number left right ≡ Known v) }
{
    match (left, right) {
        (Value::Int(a), Value::Int(b)) => of_integers(number, a, b),
        (Value::Bit(a), Value::Bit(b)) => of_booleans(number, a, b),
        _ => None,
    }
}

#[inline(always)]
fn try_binary(number: u8, work: &mut Workspace) -> Tried
    ensures tried { (code : CodeLists) (here : ℕ) (chosen : List ℕ) →
        IsTried result chosen work.old work.new (step_of code here (Binary number) chosen work.old) }
    ensures kept { IsKeptBeside work.old work.new }
{
    match top_two(&work.operands) {
        Some((left, right)) => match of_two(number, left, right) {
            Some(value) => {
                leave(&mut work.operands);
                replace(&mut work.operands, value);
                Tried::On
            }
            None => Tried::Not,
        },
        None => Tried::Not,
    }
}

#[inline(always)]
fn try_unary(number: u8, work: &mut Workspace) -> Tried
    ensures tried { (code : CodeLists) (here : ℕ) (chosen : List ℕ) →
        IsTried result chosen work.old work.new (step_of code here (Unary number) chosen work.old) }
    ensures kept { IsKeptBeside work.old work.new }
{
    match top(&work.operands) {
        Some(value) => match operate_before(number, value) {
            Ok(made) => {
                replace(&mut work.operands, made);
                Tried::On
            }
            Err(_) => Tried::Not,
        },
        None => Tried::Not,
    }
}

// The element of an array at an index, if there is one.
#[inline(always)]
fn element_there(variables: &[Held], n: u32, index: Value) -> Option<Value>
    ensures { IfSome result (λ v. element_of (slice_get variables.now n) index ≡ Known v) }
{
    match index {
        Value::Int(index) => element(variables, n, index).ok(),
        Value::Bit(_) => None,
    }
}

#[inline(always)]
fn try_load_at(n: u32, work: &mut Workspace) -> Tried
    ensures tried { (code : CodeLists) (here : ℕ) (chosen : List ℕ) →
        IsTried result chosen work.old work.new (step_of code here (LoadAt n) chosen work.old) }
    ensures kept { IsKeptBeside work.old work.new }
{
    match top(&work.operands) {
        Some(index) => match element_there(&work.memory.variables, n, index) {
            Some(value) => {
                replace(&mut work.operands, value);
                Tried::On
            }
            None => Tried::Not,
        },
        None => Tried::Not,
    }
}

// An index, if it is one of an array.
#[inline(always)]
fn index_there(variables: &[Held], n: u32, index: Value) -> Option<Value>
    ensures { IfSome result (λ v. index_held (slice_get variables.now n) index ≡ Known v) }
{
    match index {
        Value::Int(index) => index_of(variables, n, index).ok(),
        Value::Bit(_) => None,
    }
}

#[inline(always)]
fn try_index(n: u32, work: &mut Workspace) -> Tried
    ensures tried { (code : CodeLists) (here : ℕ) (chosen : List ℕ) →
        IsTried result chosen work.old work.new (step_of code here (CheckIndex n) chosen work.old) }
    ensures kept { IsKeptBeside work.old work.new }
{
    match top(&work.operands) {
        Some(index) => match index_there(&work.memory.variables, n, index) {
            Some(_) => Tried::On,
            None => Tried::Not,
        },
        None => Tried::Not,
    }
}

// Puts a value into the element of an array at an index, and answers whether there is one.
#[inline(always)]
fn put_element(variables: &mut Vec<Held>, n: u32, index: Value, value: Value) -> bool
    ensures { IsWritten result (element_put variables.old.items n index value)
        variables.old.items variables.new.items }
{
    match index {
        Value::Int(index) => store_at(variables, n, index, value).is_ok(),
        Value::Bit(_) => false,
    }
}

#[inline(always)]
fn try_store_at(n: u32, work: &mut Workspace) -> Tried
    ensures tried { (code : CodeLists) (here : ℕ) (chosen : List ℕ) →
        IsTried result chosen work.old work.new (step_of code here (StoreAt n) chosen work.old) }
    ensures kept { IsKeptBeside work.old work.new }
{
    match top_two(&work.operands) {
        Some((index, value)) => {
            if !put_element(&mut work.memory.variables, n, index, value) {
                return Tried::Not;
            }
            leave(&mut work.operands);
            leave(&mut work.operands);
            Tried::On
        }
        None => Tried::Not,
    }
}

#[inline(always)]
fn try_range(code: &CodeLists, n: u32, work: &Workspace) -> Tried
    ensures { (here : ℕ) (chosen : List ℕ) →
        IsTried result chosen work.now work.now (step_of code.now here (CheckRange n) chosen work.now) }
{
    match top_two(&work.operands) {
        Some((first, second)) => match range(
            code.profile,
            &work.memory.variables,
            n,
            first,
            second,
        ) {
            Ok(_) => Tried::On,
            Err(_) => Tried::Not,
        },
        None => Tried::Not,
    }
}

#[inline(always)]
fn try_integer(code: &CodeLists, n: u32, work: &mut Workspace) -> Tried
    ensures tried { (here : ℕ) (chosen : List ℕ) →
        IsTried result chosen work.old work.new (step_of code.now here (ToInt (Range n)) chosen work.old) }
    ensures kept { IsKeptBeside work.old work.new }
{
    match top_two(&work.operands) {
        Some((first, second)) => {
            let indexes = [first, second];
            match range_integer(code.profile, &work.memory.variables, n, &indexes) {
                Ok(value) => {
                    leave(&mut work.operands);
                    replace(&mut work.operands, value);
                    Tried::On
                }
                Err(_) => Tried::Not,
            }
        }
        None => Tried::Not,
    }
}

#[inline(always)]
fn try_if(to: u32, work: &mut Workspace) -> Tried
    ensures tried { (code : CodeLists) (here : ℕ) (chosen : List ℕ) →
        IsTried result chosen work.old work.new (step_of code here (JumpIfZero to) chosen work.old) }
    ensures kept { IsKeptBeside work.old work.new }
{
    match top(&work.operands) {
        Some(Value::Bit(goes_on)) => {
            if goes_on {
                leave(&mut work.operands);
                return Tried::On;
            }
            if work.operands.len() != 1 {
                return Tried::Not;
            }
            leave(&mut work.operands);
            Tried::To(to)
        }
        _ => Tried::Not,
    }
}

// The topmost record.
#[inline(always)]
fn top_record(records: &RecordStack) -> Option<Record>
    ensures { IfSome result (λ top. reverse records.now.items ≡ top ∷ drop 1 (reverse records.now.items)) }
{
    match records.as_slice() {
        [.., top] => Some(*top),
        _ => None,
    }
}

// The topmost loop goes round, or it is over.
#[inline(always)]
fn try_round(for_loop: Loop, memory: &mut Memory) -> Tried
    requires { reverse memory.old.records.items ≡ Looped for_loop ∷ drop 1 (reverse memory.old.records.items) }
    ensures { (chosen : List ℕ) → IsRound result chosen memory.old memory.new
        (repeated for_loop.variable [] (state_in chosen memory.old)) }
{
    match integer_held(&memory.variables, for_loop.variable) {
        Ok(z) => {
            if is_over(for_loop, z) {
                let _ = memory.records.pop();
                return Tried::On;
            }
            let next = sum(z, for_loop.step);
            if !store(&mut memory.variables, for_loop.variable, Value::Int(next)) {
                return Tried::Not;
            }
            Tried::To(for_loop.place)
        }
        Err(_) => Tried::Not,
    }
}

// The topmost loop goes round, or it is over, if it is one of the variable of number n.
#[inline(always)]
fn try_loop(n: u32, memory: &mut Memory) -> Tried
    ensures { (chosen : List ℕ) → IsRound result chosen memory.old memory.new
        (repeated n [] (state_in chosen memory.old)) }
{
    match top_record(&memory.records) {
        Some(Record::Looped(for_loop)) => {
            if for_loop.variable != n {
                return Tried::Not;
            }
            try_round(for_loop, memory)
        }
        _ => Tried::Not,
    }
}

#[inline(always)]
fn try_next(n: u32, work: &mut Workspace) -> Tried
    ensures tried { (code : CodeLists) (here : ℕ) (chosen : List ℕ) →
        IsTried result chosen work.old work.new (step_of code here (Next n) chosen work.old) }
    ensures kept { IsKeptBeside work.old work.new }
{
    if work.operands.len() != 0 {
        return Tried::Not;
    }
    try_loop(n, &mut work.memory)
}

// Goes to a place, if no operand is left.
#[inline(always)]
fn go(to: u32, work: &Workspace) -> Tried
    ensures { (chosen : List ℕ) → IsTried result chosen work.now work.now
        (Stops (operands_of work.now) (Leads [] to (state_of chosen work.now))) }
{
    if work.operands.len() != 0 {
        return Tried::Not;
    }
    Tried::To(to)
}

/// Carries out an instruction that stands here, if it is a common one and nothing stands in its way: it does not fault.
/// There is room for the operands that it leaves.
#[inline(always)]
pub fn try_step(code: &CodeLists, here: u32, instr: &Instr, work: &mut Workspace) -> Tried
    requires { count_after instr.now (length work.old.operands.items) ≤ vec_capacity work.old.operands }
    ensures tried { (chosen : List ℕ) →
        IsTried result chosen work.old work.new (step_of code.now here instr.now chosen work.old) }
    ensures kept { IsKeptBeside work.old work.new }
{
    match instr {
        Instr::Turn(_) => go(here, work),
        Instr::Jump(to) => go(*to, work),
        Instr::Push(value) => try_put(Value::Int(*value), work),
        Instr::PushBit(number) => try_bit(*number, work),
        Instr::Load(n) => try_load(*n, work),
        Instr::Store(n) => try_store(*n, work),
        Instr::Binary(number) => try_binary(*number, work),
        Instr::JumpIfZero(to) => try_if(*to, work),
        Instr::Next(n) => try_next(*n, work),
        Instr::LoadAt(n) => try_load_at(*n, work),
        Instr::StoreAt(n) => try_store_at(*n, work),
        Instr::CheckIndex(n) => try_index(*n, work),
        Instr::Unary(number) => try_unary(*number, work),
        Instr::CheckRange(n) => try_range(code, *n, work),
        Instr::ToInt(Source::Range(n)) => try_integer(code, *n, work),
        _ => Tried::Not,
    }
}
