//! What the instructions of the chain make of their operands.
ghost use Rattle.std.specs.Prelude.{◌≡◌, ℕ, IfOk};
ghost use Rattle.stapl_meaning.specs.Values.{Known};
ghost use Rattle.stapl_meaning.specs.States.{State};
ghost use Rattle.stapl_meaning.specs.Effects.{cycles_of, usec_of, hertz_of, waited_for, waited, moved_through, tuned};
ghost use Rattle.stapl_code.specs.Machine.{does};
ghost use Rattle.machine_memory.specs.Found.{IsGot};
ghost use Rattle.machine_memory.specs.Acts.{IsMade, Told, waited_deeds};

use machine_memory::effects::{Doing, Made, Wait};
use machine_memory::operate::Stop;
use machine_memory::parts::is_index;
use stapl_meaning::{RunFault, Value, WaitKind};
use tap_states::Tap;

// One more than the most clocks of one WAIT.
const CYCLE_LIMIT: u32 = 16_777_217;

fn cycles(n: i32) -> Result<u32, Stop>
    ensures { IsGot (λ (c : ℕ) g. g ≡ Known c) result (cycles_of n) }
{
    if !is_index(n, CYCLE_LIMIT) {
        return Err(Stop::Fault(RunFault::BadCount));
    }
    Ok(n.cast_unsigned())
}

fn usec(n: i32) -> Result<u32, Stop>
    ensures { IsGot (λ (c : ℕ) g. g ≡ Known c) result (usec_of n) }
{
    if n < 0 {
        return Err(Stop::Fault(RunFault::BadCount));
    }
    Ok(n.cast_unsigned())
}

fn hertz(n: i32) -> Result<u32, Stop>
    ensures { IsGot (λ (c : ℕ) g. g ≡ Known c) result (hertz_of n) }
{
    if n <= 0 {
        return Err(Stop::Fault(RunFault::BadCount));
    }
    Ok(n.cast_unsigned())
}

fn wait_cycles(at: Tap, last: Tap, values: &[Value]) -> Result<Wait, Stop>
    ensures waits { IsGot (λ w g. g ≡ Known (waited_deeds w)) result (waited_for WaitKind.Cycles at last values.now) }
    ensures at { IfOk result (λ w. w.at ≡ at) }
{
    match values {
        [Value::Int(n)] => Ok(Wait {
            at,
            cycles: Some(cycles(*n)?),
            usec: None,
            last,
        }),
        _ => Err(Stop::Wrong),
    }
}

fn wait_usec(at: Tap, last: Tap, values: &[Value]) -> Result<Wait, Stop>
    ensures waits { IsGot (λ w g. g ≡ Known (waited_deeds w)) result (waited_for WaitKind.Usec at last values.now) }
    ensures at { IfOk result (λ w. w.at ≡ at) }
{
    match values {
        [Value::Int(n)] => Ok(Wait {
            at,
            cycles: None,
            usec: Some(usec(*n)?),
            last,
        }),
        _ => Err(Stop::Wrong),
    }
}

fn wait_both(at: Tap, last: Tap, values: &[Value]) -> Result<Wait, Stop>
    ensures waits { IsGot (λ w g. g ≡ Known (waited_deeds w)) result (waited_for WaitKind.Both at last values.now) }
    ensures at { IfOk result (λ w. w.at ≡ at) }
{
    match values {
        [Value::Int(n), Value::Int(m)] => {
            let clocks = cycles(*n)?;
            let time = usec(*m)?;
            Ok(Wait {
                at,
                cycles: Some(clocks),
                usec: Some(time),
                last,
            })
        }
        _ => Err(Stop::Wrong),
    }
}

fn wait_of(kind: WaitKind, at: Tap, last: Tap, values: &[Value]) -> Result<Wait, Stop>
    ensures waits { IsGot (λ w g. g ≡ Known (waited_deeds w)) result (waited_for kind at last values.now) }
    ensures at { IfOk result (λ w. w.at ≡ at) }
{
    match kind {
        WaitKind::Cycles => wait_cycles(at, last, values),
        WaitKind::Usec => wait_usec(at, last, values),
        WaitKind::Both => wait_both(at, last, values),
    }
}

/// A wait, by its counts.
pub fn wait(at: Tap, kind: WaitKind, last: Tap, values: &[Value]) -> Result<Made, Stop>
    ensures { (told : Told) (s : State) → IsMade result told s s (does (waited kind at last values.now s)) }
{
    if !at.is_stable() {
        return Err(Stop::Wrong);
    }
    let wait = wait_of(kind, at, last, values)?;
    Ok(Made::Acts(Doing::Waits(wait)))
}

/// Moves through the states that are told, which take no operand.
pub fn go_through(values: &[Value]) -> Result<Made, Stop>
    ensures { (told : Told) (s : State) → IsMade result told s s (does (moved_through told.states values.now s)) }
{
    match values {
        [] => Ok(Made::Acts(Doing::Moves)),
        _ => Err(Stop::Wrong),
    }
}

/// The frequency of the clocks that follow.
pub fn tune(values: &[Value]) -> Result<Made, Stop>
    ensures { (told : Told) (s : State) → IsMade result told s s (does (tuned values.now s)) }
{
    match values {
        [] => Ok(Made::Acts(Doing::Tunes(0))),
        [Value::Int(n)] => Ok(Made::Acts(Doing::Tunes(hertz(*n)?))),
        _ => Err(Stop::Wrong),
    }
}
