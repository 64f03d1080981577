//! What the machine does at an instruction.
ghost use Rattle.std.specs.Prelude.{◌≡◌, ◌<◌, ◌≤◌, ◌+◌, ◌^◌, List, ℕ, length, drop, vec_capacity};
ghost use Rattle.stapl_code.specs.Machine.{made, lands};
ghost use Rattle.stapl_code.specs.declared.raw.CodeLists.{CodeLists};
ghost use Rattle.stapl_code.specs.Safe.{entries_of, constants_of};
ghost use Rattle.machine_memory.specs.Acts.{IsMade, IsActed, told_by, state_in, step_of};
ghost use Rattle.machine_memory.specs.Prints.{instr_room};
ghost use Rattle.machine_memory.specs.RunRooms.{IsKeptBeside};

use crate::printing::print;
use machine_copies::{copy, integer};
use machine_loops::{begin_loop, repeat};
use machine_memory::arrays::{assign_at, check_index, load_at, set_integers};
use machine_memory::effects::{
    Made, assign, bit, check_character, exit, jump, load, operate_one, operate_two, part_ways,
};
use machine_memory::memory::{Memory, Workspace};
use machine_memory::operate::Stop;
use machine_memory::parts::check_range;
use machine_memory::records::{call, end_procedure, pop_value, push_value};
use machine_scans::{export, go_through, pad, scan, stop, tune, wait};
use stapl_code::{CodeLists, Dest, Instr, Source, operands_taken};
use stapl_meaning::Value;

// What an instruction that stands here makes of its operands.
fn make(
    code: &CodeLists,
    here: u32,
    instr: &Instr,
    values: &[Value],
    text: &mut Vec<u8>,
    memory: &mut Memory,
) -> Result<Made, Stop>
    requires countable { here + 1 < 2 ^ 32 }
    requires fits { instr_room code.now.texts instr.now ≤ vec_capacity text.old }
    ensures made { (entries chosen : List ℕ) → IsMade result (told_by code.now instr.now text.new.items memory.new)
        (state_in chosen memory.old) (state_in chosen memory.new)
        (made entries (constants_of code.now) here instr.now values.now (state_in chosen memory.old)) }
    ensures room { vec_capacity text.old ≤ vec_capacity text.new }
{
    match instr {
        Instr::Turn(_) | Instr::Jump(_) => jump(values),
        Instr::Push(value) => Ok(Made::Put(Value::Int(*value))),
        Instr::PushBit(value) => Ok(Made::Put(bit(*value)?)),
        Instr::Load(n) => Ok(Made::Put(load(&memory.variables, *n)?)),
        Instr::LoadAt(n) => load_at(&memory.variables, *n, values),
        Instr::CheckIndex(n) => check_index(&memory.variables, *n, values),
        Instr::CheckRange(n) => check_range(code.profile, &memory.variables, *n, values),
        Instr::Store(n) => assign(&mut memory.variables, *n, values),
        Instr::StoreAt(n) => assign_at(&mut memory.variables, *n, values),
        Instr::Unary(number) => operate_one(*number, values),
        Instr::Binary(number) => operate_two(*number, values),
        Instr::ToInt(source) => integer(code, *source, values, &memory.variables),
        Instr::CopyBits(dest, source) => copy(code, *dest, *source, values, &mut memory.variables),
        Instr::SetBits(n, literal) => {
            let (dest, source) = (Dest::Whole(*n), Source::Literal(*literal));
            copy(code, dest, source, values, &mut memory.variables)
        }
        Instr::SetInts(n, list) => set_integers(&mut memory.variables, *n, list.as_slice(), values),
        Instr::For(n, body) => begin_loop(memory, *n, *body, values),
        Instr::Next(n) => repeat(memory, *n, values),
        Instr::PushRecord(_) => push_value(&mut memory.records, values),
        Instr::PopRecord(kind) => pop_value(&mut memory.records, *kind),
        Instr::Call(_) => call(&mut memory.records, here + 1, values),
        Instr::JumpIfZero(_) => part_ways(values),
        Instr::EndProc => end_procedure(&mut memory.records, values),
        Instr::Print(list) => print(code, list.as_slice(), values, text),
        Instr::Export(key, part) => export(code, *key, *part, values, &memory.variables),
        Instr::CheckChar => check_character(values),
        Instr::Exit => exit(values),
        Instr::Scan(plan) => scan(code, plan, values, memory),
        Instr::Stop(register, state) => stop(*register, *state, values, memory),
        Instr::Pad(which, source) => pad(code, *which, *source, values, memory),
        Instr::State(_) => go_through(values),
        Instr::Wait(at, kind, last) => wait(*at, *kind, *last, values),
        Instr::Frequency(_) => tune(values),
    }
}

// The items from a place on.
fn after(items: &[Value], at: usize) -> &[Value]
    requires { at ≤ length items.now }
    ensures { result.now ≡ drop at items.now }
{
    &items[at..]
}

/// Takes the operands of an instruction that stands here off, and does what it does with them.
pub fn act(code: &CodeLists, here: u32, instr: &Instr, work: &mut Workspace) -> Result<Made, Stop>
    requires countable { here + 1 < 2 ^ 32 }
    requires fits { instr_room code.now.texts instr.now ≤ vec_capacity work.old.text }
    ensures acts { (chosen : List ℕ) →
        IsActed result code.now instr.now (lands (entries_of code.now.procedures) here instr.now) chosen work.new
        (step_of code.now here instr.now chosen work.old) }
    ensures kept { IsKeptBeside work.old work.new }
{
    let count = operands_taken(instr);
    let len = work.operands.len();
    if len < count {
        return Err(Stop::Wrong);
    }
    let below = len - count;
    let values = after(&work.operands, below);
    match make(code, here, instr, values, &mut work.text, &mut work.memory) {
        Ok(made) => {
            work.operands.truncate(below);
            Ok(made)
        }
        Err(stop) => Err(stop),
    }
}
