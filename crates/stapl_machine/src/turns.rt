//! Turns of a code.
ghost use Rattle.std.specs.Prelude.{◌≡◌, ◌<◌, ◌≤◌, ◌+◌, ◌^◌, [], map, List, ℕ, length, slice_get, IsTrue, IfOk};
ghost use Rattle.tap_states.specs.Tap.{is_stable_state};
ghost use Rattle.stapl_meaning.specs.Deeds.{Chain, Goes};
ghost use Rattle.stapl_meaning.specs.Scans.{settings_of, scan_of};
ghost use Rattle.stapl_code.specs.Ticks.{tick_of};
ghost use Rattle.machine_memory.specs.Acts.{state_in, state_of, states_of, told_by, stays_for, pauses_for, waited_deeds, deeds_told, RestsIn};
ghost use Rattle.machine_memory.specs.Jobs.{CanBeDone, job_scan, job_lands, with_captured};
ghost use Rattle.stapl_instructions.specs.Moves.{led_on, IsClean};
ghost use Rattle.written_cable.specs.Pins.{tap_of};
ghost use Rattle.machine_memory.specs.RunRooms.{HasRoom, KeepsRoom};
ghost use Rattle.written_cable.specs.Ports.{IsOpenPort, DoesDeeds, DoesScan, DoesCapture, IsDone, Keeps};
ghost use Rattle.stapl_machine.specs.Reaches.{after_try, ticks_after_try, IsCleanTry, after_reached, ticks_after_reached, IsReachedPlace};
ghost use Rattle.stapl_machine.specs.Turns.{HasRoomFrom, rest_of, ticks_from, no_ticks, after_it, ticks_after_it, IsCleanAfter, piece_of, turn_at, ticks_at};

use base::Steps;
use machine_memory::effects::{Doing, ScanJob, Wait};
use machine_memory::memory::{Memory, Shifted, Workspace};
use machine_memory::settings::Settings;
use machine_scans::land;
use scan_paths::Cable;
use stapl_code::{CodeLists, Instr};
use stapl_instructions::{Moved, Tried, Went, advance, try_step};
use stapl_lexer::Register;
use std::sync::ledger::Ledger;
use tap_states::Tap;
use tool_io::Failed;
use written_cable::{Paper, PinCable, Trouble, trouble_of};

// Counts an instruction. A Turn is counted in the turn that it begins.
#[inline(always)]
fn count<L: Ledger>(instr: &Instr, steps: &mut Steps<L>)
    ensures { steps.new ≡ steps.old + tick_of instr.now }
{
    match instr {
        Instr::Turn(_) => {}
        _ => steps.tick(),
    }
}

// Keeps the controllers in their state for so many clocks, if any are counted.
fn rest_if<C: Cable, O: Paper>(cycles: Option<u32>, port: &mut PinCable<C, O>) -> Result<(), Failed>
    requires open { IsOpenPort C.Cable O.Paper port.old }
    requires stable { IsTrue (is_stable_state (tap_of port.old)) }
    ensures { DoesDeeds C.Cable O.Paper (stays_for cycles) port.old port.new result }
{
    match cycles {
        Some(n) => port.rest(n),
        None => Ok(()),
    }
}

// Waits for so many microseconds, if any are counted.
fn pause_if<C: Cable, O: Paper>(usec: Option<u32>, port: &mut PinCable<C, O>) -> Result<(), Failed>
    requires { IsOpenPort C.Cable O.Paper port.old }
    ensures { DoesDeeds C.Cable O.Paper (pauses_for usec) port.old port.new result }
{
    match usec {
        Some(n) => port.pause(n),
        None => Ok(()),
    }
}

// Carries out a WAIT.
fn wait<C: Cable, O: Paper>(wait: Wait, port: &mut PinCable<C, O>) -> Result<(), Failed>
    requires open { IsOpenPort C.Cable O.Paper port.old }
    requires stable { IsTrue (is_stable_state wait.at) }
    ensures { DoesDeeds C.Cable O.Paper (waited_deeds wait) port.old port.new result }
{
    port.go(wait.at)?;
    rest_if(wait.cycles, port)?;
    pause_if(wait.usec, port)?;
    port.go(wait.last)?;
    Ok(())
}

// Moves to one state after another.
fn go_through<C: Cable, O: Paper>(states: &[Tap], port: &mut PinCable<C, O>) -> Result<(), Failed>
    requires { IsOpenPort C.Cable O.Paper port.old }
    ensures { DoesDeeds C.Cable O.Paper (map Goes states.now) port.old port.new result }
{
    for i in 0..states.len() {
        port.go(states[i])?;
    }
    Ok(())
}

// The states that an instruction moves the chain through.
fn states_of(instr: &Instr) -> &[Tap]
    ensures { result.now ≡ states_of instr.now }
{
    match instr {
        Instr::State(states) => states.as_slice(),
        _ => &[],
    }
}

// Does what an instruction has left to be done to the outside.
fn perform<C: Cable, O: Paper>(
    code: &CodeLists,
    instr: &Instr,
    text: &[u8],
    memory: &Memory,
    doing: Doing,
    port: &mut PinCable<C, O>,
) -> Result<(), Failed>
    requires open { IsOpenPort C.Cable O.Paper port.old }
    requires rests { RestsIn doing }
    ensures { DoesDeeds C.Cable O.Paper
        (deeds_told (told_by code.now instr.now text.now memory.now) memory.now.variables.items doing)
        port.old port.new result }
{
    match doing {
        Doing::Prints => port.print(text),
        Doing::Exports(export) => port.export(code, &memory.variables, export),
        Doing::Moves => go_through(states_of(instr), port),
        Doing::Waits(counts) => wait(counts, port),
        Doing::Tunes(n) => port.tune(n),
    }
}

// Scans by the settings of the registers.
fn shift<C: Cable, O: Paper>(
    register: Register,
    settings: &Settings,
    shifted: &mut Shifted,
    port: &mut PinCable<C, O>,
) -> Result<(), Failed>
    requires open { IsOpenPort C.Cable O.Paper port.old }
    requires stable { IsTrue (is_stable_state (tap_of port.old)) }
    requires some { 1 ≤ length shifted.old.data }
    requires room { length shifted.old.captured ≡ length shifted.old.data }
    ensures did { DoesScan C.Cable O.Paper (scan_of register settings.now shifted.old.data) shifted.new.captured
        port.old port.new result }
    ensures kept_bits { shifted.new ≡ record shifted.old { captured = shifted.new.captured } }
    ensures length { length shifted.new.captured ≡ length shifted.old.captured }
{
    port.scan(register, settings, &shifted.data, &mut shifted.captured)
}

// The same by the settings of these registers in a memory.
fn shift_in<C: Cable, O: Paper>(
    register: Register,
    memory: &mut Memory,
    port: &mut PinCable<C, O>,
) -> Result<(), Failed>
    requires open { IsOpenPort C.Cable O.Paper port.old }
    requires stable { IsTrue (is_stable_state (tap_of port.old)) }
    requires some { 1 ≤ length memory.old.shifted.data }
    requires room { length memory.old.shifted.captured ≡ length memory.old.shifted.data }
    ensures did { (chosen : List ℕ) → DoesScan C.Cable O.Paper
        (scan_of register (settings_of register (state_in chosen memory.old)) memory.old.shifted.data)
        memory.new.shifted.captured port.old port.new result }
    ensures same { memory.new ≡ with_captured memory.old memory.new.shifted.captured }
    ensures length { length memory.new.shifted.captured ≡ length memory.old.shifted.captured }
{
    match register {
        Register::Data => shift(register, &memory.dr, &mut memory.shifted, port),
        Register::Instruction => shift(register, &memory.ir, &mut memory.shifted, port),
    }
}

// Scans, and lets the captured bits land.
fn capture<C: Cable, O: Paper>(
    job: ScanJob,
    memory: &mut Memory,
    port: &mut PinCable<C, O>,
) -> Result<(), Failed>
    requires open { IsOpenPort C.Cable O.Paper port.old }
    requires stable { IsTrue (is_stable_state (tap_of port.old)) }
    requires job { CanBeDone memory.old.variables.items memory.old.shifted job }
    ensures { (chosen : List ℕ) → DoesCapture C.Cable O.Paper
        (job_scan memory.old.shifted job (state_in chosen memory.old))
        (job_lands memory.old.shifted job (state_in chosen memory.old))
        port.old (state_in chosen memory.new) port.new result }
{
    shift_in(job.register, memory, port)?;
    land(memory, job);
    Ok(())
}

// Carries out instruction i of a turn by the general machine, and answers where the turn led if it ended.
#[inline(never)]
fn carry_out<C: Cable, O: Paper, L: Ledger>(
    code: &CodeLists,
    chosen: &[u32],
    i: usize,
    work: &mut Workspace,
    port: &mut PinCable<C, O>,
    steps: &mut Steps<L>,
) -> Result<Option<Went>, Trouble>
    requires inside { i < length code.now.instrs }
    requires open { IsOpenPort C.Cable O.Paper port.old }
    requires room { HasRoomFrom code.now i work.old }
    ensures does { IsDone C.Cable O.Paper
        (rest_of code.now i chosen.now work.old) (ticks_from code.now i chosen.now work.old) port.old steps.old result
        (after_it code.now i chosen.now work.new) (ticks_after_it code.now i chosen.now work.new) port.new steps.new }
    ensures clean { IfOk result (λ end. IsCleanAfter code.now i end work.new) }
    ensures room { KeepsRoom work.old work.new }
    ensures keeps { Keeps C.Cable O.Paper port.old port.new result }
{
    let instr = &code.instrs.as_slice()[i];
    count(instr, steps);
    match advance(code, chosen, i as u32, instr, work) {
        Moved::On => Ok(None),
        Moved::Acts(doing) => match perform(code, instr, &work.text, &work.memory, doing, port) {
            Ok(()) => Ok(None),
            Err(_) => Err(trouble_of(port)),
        },
        Moved::Scans(job) => {
            if !port.is_stable() {
                return Ok(Some(Went::Over(None)));
            }
            match capture(job, &mut work.memory, port) {
                Ok(()) => Ok(None),
                Err(_) => Err(trouble_of(port)),
            }
        }
        Moved::Ends(went) => Ok(Some(went)),
    }
}

// Carries out instruction i of a turn, if it is a common one and nothing stands in its way.
#[inline(always)]
fn try_at<L: Ledger>(
    code: &CodeLists,
    i: usize,
    work: &mut Workspace,
    steps: &mut Steps<L>,
) -> Tried
    requires inside { i < length code.now.instrs }
    requires room { HasRoomFrom code.now i work.old }
    ensures does { (chosen : List ℕ) (k : Chain) →
        rest_of code.now i chosen work.old k ≡ after_try code.now i chosen result work.new k }
    ensures ticks { (chosen : List ℕ) (k : Chain) →
        steps.new + ticks_after_try code.now i chosen result work.new k
        ≡ steps.old + ticks_from code.now i chosen work.old k }
    ensures clean { IsCleanTry code.now i result work.new }
    ensures room { KeepsRoom work.old work.new }
{
    let instr = &code.instrs.as_slice()[i];
    match try_step(code, i as u32, instr, work) {
        Tried::On => {
            count(instr, steps);
            Tried::On
        }
        Tried::To(place) => {
            count(instr, steps);
            Tried::To(place)
        }
        Tried::Not => Tried::Not,
    }
}

/// Where common instructions led.
#[derive(Clone, Copy)]
pub enum Reached {
    /// To an instruction of the same turn, which is not done.
    Within(usize),
    /// To the turn at this place.
    Turn(u32),
    /// To the end of the code, where no turn may lead.
    End,
}

// Carries out the common instructions from a place on, up to the first that is none, or that something stands in the
// way of. This is the loop in which a play spends its time.
#[inline(always)]
fn carry_out_common<L: Ledger>(
    code: &CodeLists,
    from: usize,
    work: &mut Workspace,
    steps: &mut Steps<L>,
) -> Reached
    requires { HasRoomFrom code.now from work.old }
    ensures does { (chosen : List ℕ) (k : Chain) →
        rest_of code.now from chosen work.old k ≡ after_reached code.now chosen result work.new k }
    ensures ticks { (chosen : List ℕ) (k : Chain) →
        steps.new + ticks_after_reached code.now chosen result work.new k
        ≡ steps.old + ticks_from code.now from chosen work.old k }
    ensures reached { IsReachedPlace code.now from result work.new }
    ensures room { KeepsRoom work.old work.new }
{
    for i in from..code.instrs.len() {
        match try_at(code, i, work, steps) {
            Tried::On => {}
            Tried::To(place) => return Reached::Turn(place),
            Tried::Not => return Reached::Within(i),
        }
    }
    Reached::End
}

/// The instructions from a place on, up to the end of the turn.
#[inline(always)]
pub fn rest_of_turn<C: Cable, O: Paper, L: Ledger>(
    code: &CodeLists,
    chosen: &[u32],
    from: usize,
    work: &mut Workspace,
    port: &mut PinCable<C, O>,
    steps: &mut Steps<L>,
) -> Result<Went, Trouble>
    requires open { IsOpenPort C.Cable O.Paper port.old }
    requires room { HasRoomFrom code.now from work.old }
    ensures does { IsDone C.Cable O.Paper
        (rest_of code.now from chosen.now work.old) (ticks_from code.now from chosen.now work.old)
        port.old steps.old result (λ went. led_on went (state_of chosen.now work.new)) (λ went. no_ticks)
        port.new steps.new }
    ensures clean { IfOk result (λ went. IsClean went work.new.operands.items) }
    ensures room { KeepsRoom work.old work.new }
    ensures keeps { Keeps C.Cable O.Paper port.old port.new result }
{
    let mut place = from;
    'parts: loop {
        match carry_out_common(code, place, work, steps) {
            Reached::Turn(to) => return Ok(Went::On(to)),
            Reached::End => return Ok(Went::Over(None)),
            Reached::Within(i) => match carry_out(code, chosen, i, work, port, steps) {
                Ok(None) => place = i + 1,
                Ok(Some(went)) => return Ok(went),
                Err(trouble) => return Err(trouble),
            },
        }
    }
}

/// The piece of the Turn at a place, if there is one.
#[inline(always)]
pub fn piece_at(instrs: &[Instr], i: usize) -> Option<u32>
    ensures { result ≡ piece_of (slice_get instrs.now i) }
{
    match instrs.get(i) {
        Some(Instr::Turn(piece)) => Some(*piece),
        _ => None,
    }
}

/// One turn, and the beginning of the next procedure where this one is over.
#[inline(always)]
pub fn turn<C: Cable, O: Paper, L: Ledger>(
    code: &CodeLists,
    chosen: &[u32],
    place: u32,
    work: &mut Workspace,
    port: &mut PinCable<C, O>,
    steps: &mut Steps<L>,
) -> Result<Went, Trouble>
    requires countable { length code.now.instrs < 2 ^ 32 }
    requires none { work.old.operands.items ≡ [] }
    requires open { IsOpenPort C.Cable O.Paper port.old }
    requires room { HasRoom code.now work.old }
    ensures does { IsDone C.Cable O.Paper
        (turn_at code.now place (state_of chosen.now work.old)) (ticks_at code.now place (state_of chosen.now work.old))
        port.old steps.old result
        (λ went. led_on went (state_of chosen.now work.new)) (λ went. no_ticks) port.new steps.new }
    ensures clean { IfOk result (λ went. IsClean went work.new.operands.items) }
    ensures room { KeepsRoom work.old work.new }
    ensures keeps { Keeps C.Cable O.Paper port.old port.new result }
{
    match piece_at(code.instrs.as_slice(), place as usize) {
        Some(piece) => {
            steps.tick();
            work.piece = piece;
            match rest_of_turn(code, chosen, place as usize + 1, work, port, steps) {
                Ok(went) => Ok(went),
                Err(trouble) => Err(trouble),
            }
        }
        None => Ok(Went::Over(None)),
    }
}
