//! Where the machine goes after an instruction.
ghost use Rattle.std.specs.Prelude.{◌≡◌, ◌<◌, ◌≤◌, ◌+◌, ◌^◌, List, ℕ, drop, length, reverse, vec_capacity};
ghost use Rattle.stapl_meaning.specs.declared.records.Record.{Record};
ghost use Rattle.stapl_meaning.specs.declared.values.Held.{Held};
ghost use Rattle.stapl_meaning.specs.declared.values.Value.{Value};
ghost use Rattle.stapl_meaning.specs.Deeds.{Chain};
ghost use Rattle.stapl_meaning.specs.States.{ScanSettings, State, next_chosen, jumps_to, Happened, happens, happened_in_piece};
ghost use Rattle.stapl_code.specs.Machine.{lands, entry_of, at_end, continues};
ghost use Rattle.stapl_code.specs.Ticks.{counted_after};
ghost use Rattle.stapl_code.specs.Rooms.{count_after};
ghost use Rattle.stapl_code.specs.Safe.{entries_of};
ghost use Rattle.machine_memory.specs.Acts.{state_with, step_of, stepped, RestsAfter};
ghost use Rattle.machine_memory.specs.Prints.{instr_room};
ghost use Rattle.machine_memory.specs.RunRooms.{IsWithin, KeepsRoom};
ghost use Rattle.stapl_instructions.specs.Moves.{led_to, led_on, IsClean, moved_to, moved_ticks, IsCleanMove, RestsAfterMove};

use crate::act::act;
use machine_memory::effects::{Doing, Made, ScanJob};
use machine_memory::memory::Workspace;
use machine_memory::operands::put;
use machine_memory::operate::Stop;
use stapl_code::{CodeLists, Instr, ProcDef};
use stapl_meaning::{Ending, Value};

/// Where a turn leads.
#[derive(Clone, Copy)]
pub enum Went {
    /// To the turn at this place.
    On(u32),
    /// To the end of the run, which has no ending where it met what no valid code meets.
    Over(Option<Ending>),
}

/// Where an instruction leads.
#[derive(Clone, Copy)]
pub enum Moved {
    /// On to the next one.
    On,
    /// On to the next one, with something that is still to be done to the outside.
    Acts(Doing),
    /// On to the next one, with a scan that is still to be done.
    Scans(ScanJob),
    /// To the end of the turn.
    Ends(Went),
}

fn jump_to(to: Option<u32>) -> Went
    ensures { (s : State) → jumps_to to s ≡ led_to result s }
{
    match to {
        Some(place) => Went::On(place),
        None => Went::Over(None),
    }
}

fn entry(procedures: &[ProcDef], procedure: u32) -> u32
    ensures { result ≡ entry_of (entries_of procedures.now) procedure }
{
    match procedures.get(procedure as usize) {
        Some(def) => def.entry,
        None => u32::MAX,
    }
}

// Where a jump or a call of an instruction leads, which stands here.
fn target(code: &CodeLists, here: u32, instr: &Instr) -> Option<u32>
    ensures { result ≡ lands (entries_of code.now.procedures) here instr.now }
{
    match instr {
        Instr::Turn(_) => Some(here),
        Instr::Call(procedure) => Some(entry(code.procedures.as_slice(), *procedure)),
        Instr::Jump(to) | Instr::JumpIfZero(to) => Some(*to),
        _ => None,
    }
}

/// Begins the next chosen procedure. Where there is none, the run ends with code 0.
pub fn begin_next(code: &CodeLists, chosen: &[u32], next: &mut usize) -> Went
    ensures { (records : List Record) (ir dr : ScanSettings) (variables : List Held) →
        next_chosen (entry_of (entries_of code.now.procedures))
        (state_with (drop next.old chosen.now) records ir dr variables) (drop next.old chosen.now)
        ≡ led_to result (state_with (drop next.new chosen.now) records ir dr variables) }
{
    if *next >= chosen.len() {
        return Went::Over(Some(Ending::Exit(0)));
    }
    let procedure = chosen[*next];
    *next += 1;
    Went::On(entry(code.procedures.as_slice(), procedure))
}

// The end of a turn, which must find no operand left.
fn end_turn(operands: &[Value], went: Went) -> Went
    ensures ends { (piece : ℕ) (s : State) (k : Chain) →
        happened_in_piece piece (at_end (reverse operands.now) (happens k (led_to went s))) ≡ led_on result s k }
    ensures clean { IsClean result operands.now }
{
    if operands.len() != 0 {
        return Went::Over(None);
    }
    went
}

// Where an instruction leads that made this, and for whose values there is room.
fn lead(
    code: &CodeLists,
    chosen: &[u32],
    here: u32,
    instr: &Instr,
    made: Made,
    work: &mut Workspace,
) -> Moved
    requires rests { RestsAfter made work.old.memory }
    requires room { IsWithin (vec_capacity work.old.operands) made work.old }
    ensures leads { (k : Chain) (go : List Value → State → Chain → Happened) →
        happened_in_piece work.old.piece
        (continues k (stepped code.now instr.now (lands (entries_of code.now.procedures) here instr.now) chosen.now made
        work.old) go)
        ≡ moved_to code.now instr.now result chosen.now work.new k go }
    ensures ticks { (k : Chain) (go : List Value → State → Chain → ℕ) →
        counted_after k (stepped code.now instr.now (lands (entries_of code.now.procedures) here instr.now) chosen.now
        made work.old) go
        ≡ moved_ticks code.now instr.now result chosen.now work.new k go }
    ensures clean { (most : ℕ) → IsWithin most made work.old → IsCleanMove most result work.new }
    ensures rests { RestsAfterMove result work.new.memory }
    ensures room { KeepsRoom work.old work.new }
{
    match made {
        Made::Put(value) | Made::Popped(value) => {
            put(&mut work.operands, value);
            Moved::On
        }
        Made::PutTwo(first, second) => {
            put(&mut work.operands, first);
            put(&mut work.operands, second);
            Moved::On
        }
        Made::On => Moved::On,
        Made::Acts(doing) => Moved::Acts(doing),
        Made::Scans(job) => Moved::Scans(job),
        Made::Jump => {
            let went = jump_to(target(code, here, instr));
            Moved::Ends(end_turn(&work.operands, went))
        }
        Made::Resume(place) => Moved::Ends(end_turn(&work.operands, Went::On(place))),
        Made::Returned => {
            let went = begin_next(code, chosen, &mut work.next);
            Moved::Ends(end_turn(&work.operands, went))
        }
        Made::Over(ending) => {
            let went = Went::Over(Some(ending));
            Moved::Ends(end_turn(&work.operands, went))
        }
    }
}

/// Carries out an instruction that stands here, and answers where it leads. There is room for the operands that it
/// leaves, and for the text that it prints.
pub fn advance(
    code: &CodeLists,
    chosen: &[u32],
    here: u32,
    instr: &Instr,
    work: &mut Workspace,
) -> Moved
    requires countable { here + 1 < 2 ^ 32 }
    requires prints { instr_room code.now.texts instr.now ≤ vec_capacity work.old.text }
    requires few { count_after instr.now (length work.old.operands.items) ≤ vec_capacity work.old.operands }
    ensures leads { (k : Chain) (go : List Value → State → Chain → Happened) →
        happened_in_piece work.old.piece (continues k (step_of code.now here instr.now chosen.now work.old) go)
        ≡ moved_to code.now instr.now result chosen.now work.new k go }
    ensures ticks { (k : Chain) (go : List Value → State → Chain → ℕ) →
        counted_after k (step_of code.now here instr.now chosen.now work.old) go
        ≡ moved_ticks code.now instr.now result chosen.now work.new k go }
    ensures clean { IsCleanMove (count_after instr.now (length work.old.operands.items)) result work.new }
    ensures rests { RestsAfterMove result work.new.memory }
    ensures room { KeepsRoom work.old work.new }
{
    match act(code, here, instr, work) {
        Ok(made) => lead(code, chosen, here, instr, made, work),
        Err(Stop::Fault(fault)) => {
            let ending = Ending::Fault(fault, work.piece);
            Moved::Ends(Went::Over(Some(ending)))
        }
        Err(Stop::Wrong) => Moved::Ends(Went::Over(None)),
    }
}
