//! The wave of a trace, put item by item.
ghost use Rattle.std.specs.Prelude.{◌≡◌, ◌≤◌, ◌<◌, ◌+◌, ◌*◌, ◌^◌, ◌++◌, ℕ, pos, false, codes, map, length, slice_index_or, IfOk, IfSome};
ghost use Rattle.trace_check.specs.Limits.{trace_limit};
ghost use Rattle.tool_io.specs.Lines.{IsWhole, HasPut};
ghost use Rattle.pin_lines.specs.PinLines.{is_bad_line, has_bad_line};
ghost use Rattle.wave_tool.specs.Items.{Clocked, Waited, most_usec, line_items, items_in};
ghost use Rattle.wave_tool.specs.Found.{waits_found, states_held, wave_held};
ghost use Rattle.wave_tool.specs.Waves.{shown_number, level_of, wire_change, state_level, state_wire, state_change, changes, are_same, time_line, moment, low_levels, high_levels, rest_levels, item_text, after_item, items_text, after_items, first_wave, end_text, head_text, wave_text};

use crate::items::wait_of;
use crate::possible::Possible;
use pin_lines::{tdi_of, tdo_of, tms_of};
use tap_states::Tap;
use tool_io::{Failed, Lines, Sink, put_number_line};
use trace_check::{digits_of, first_line};

/// The levels of the wires, as the dump has them, and the number of the state, or 16.
#[derive(Clone, Copy)]
pub struct Levels {
    tck: u8,
    tms: u8,
    tdi: u8,
    tdo: u8,
    state: u8,
}

/// How far a wave has come: the time, in microseconds, the levels then, and in which states the controllers may be.
#[derive(Clone, Copy)]
pub struct Progress {
    time: u64,
    levels: Levels,
    possible: Possible,
}

// The declarations of a dump, and the levels at time 0, before the first item.
const HEAD: &[u8] = b"$timescale 1 us $end
$scope module jtag $end
$var wire 1 ! TCK $end
$var wire 1 \" TMS $end
$var wire 1 # TDI $end
$var wire 1 $ TDO $end
$var wire 1 % TAP3 $end
$var wire 1 & TAP2 $end
$var wire 1 ' TAP1 $end
$var wire 1 ( TAP0 $end
$upscope $end
$enddefinitions $end
#0
$dumpvars
0!
x\"
x#
x$
x%
x&
x'
x(
$end
";

// The level of a wire.
fn level_of(bit: bool) -> u8
    ensures { result ≡ level_of bit }
{
    if bit { b'1' } else { b'0' }
}

// The number that is shown of a state, or 16 if it is not known.
fn shown_number(state: Option<Tap>) -> u8
    ensures { result ≡ shown_number state }
{
    match state {
        Some(tap) => tap.number(),
        None => 16,
    }
}

// Puts the line of a wire, if it changes.
fn put_wire<K: Sink>(lines: &mut Lines<K>, id: u8, old: u8, new: u8) -> Result<(), Failed>
    requires { IsWhole lines.old }
    ensures { HasPut K.Sink lines.old (wire_change id old new) lines.new result }
{
    if old == new {
        return Ok(());
    }
    lines.put(&[new, id, b'\n'])
}

// The level of the wire for the bit of a state that counts this many.
fn state_level(place: u8, n: u8) -> u8
    requires { 0 < place }
    ensures { result ≡ state_level place n }
{
    if n == 16 { b'x' } else { 48 + n / place % 2 }
}

// Puts the line of the wire for a bit of the state, if it changes.
fn put_state_wire<K: Sink>(
    lines: &mut Lines<K>,
    id: u8,
    place: u8,
    old: u8,
    new: u8,
) -> Result<(), Failed>
    requires whole { IsWhole lines.old }
    requires some { 0 < place }
    ensures { HasPut K.Sink lines.old (state_wire id place old new) lines.new result }
{
    put_wire(lines, id, state_level(place, old), state_level(place, new))
}

// Puts the lines of the wires of the state that change.
fn put_state<K: Sink>(lines: &mut Lines<K>, old: u8, new: u8) -> Result<(), Failed>
    requires { IsWhole lines.old }
    ensures { HasPut K.Sink lines.old (state_change old new) lines.new result }
{
    put_state_wire(lines, b'%', 8, old, new)?;
    put_state_wire(lines, b'&', 4, old, new)?;
    put_state_wire(lines, b'\'', 2, old, new)?;
    put_state_wire(lines, b'(', 1, old, new)?;
    Ok(())
}

// Puts the lines of all that changes.
fn put_changes<K: Sink>(lines: &mut Lines<K>, old: Levels, new: Levels) -> Result<(), Failed>
    requires { IsWhole lines.old }
    ensures { HasPut K.Sink lines.old (changes old new) lines.new result }
{
    put_wire(lines, b'!', old.tck, new.tck)?;
    put_wire(lines, b'"', old.tms, new.tms)?;
    put_wire(lines, b'#', old.tdi, new.tdi)?;
    put_wire(lines, b'$', old.tdo, new.tdo)?;
    put_state(lines, old.state, new.state)?;
    Ok(())
}

// Puts a time.
fn put_time<K: Sink>(lines: &mut Lines<K>, time: u64) -> Result<(), Failed>
    requires whole { IsWhole lines.old }
    requires small { time < 2 ^ 63 }
    ensures { HasPut K.Sink lines.old (time_line time) lines.new result }
{
    put_number_line(lines, b"#", time as i64)
}

// Puts a time, and the lines of all that changes then.
fn put_times<K: Sink>(
    lines: &mut Lines<K>,
    time: u64,
    old: Levels,
    new: Levels,
) -> Result<(), Failed>
    requires whole { IsWhole lines.old }
    requires small { time < 2 ^ 63 }
    ensures { HasPut K.Sink lines.old (time_line time ++ changes old new) lines.new result }
{
    put_time(lines, time)?;
    put_changes(lines, old, new)?;
    Ok(())
}

// Whether nothing changes.
fn are_same(old: Levels, new: Levels) -> bool
    ensures { result ≡ are_same old new }
{
    old.tck == new.tck
        && old.tms == new.tms
        && old.tdi == new.tdi
        && old.tdo == new.tdo
        && old.state == new.state
}

// Puts what changes at a time, if something does.
fn put_moment<K: Sink>(
    lines: &mut Lines<K>,
    time: u64,
    old: Levels,
    new: Levels,
) -> Result<(), Failed>
    requires whole { IsWhole lines.old }
    requires small { time < 2 ^ 63 }
    ensures { HasPut K.Sink lines.old (moment time old new) lines.new result }
{
    if are_same(old, new) {
        return Ok(());
    }
    put_times(lines, time, old, new)
}

// The levels in the first step of a clock, and in the second.
fn low_levels(old: Levels, digit: u8) -> Levels
    requires { 48 ≤ digit }
    ensures { result ≡ low_levels old digit }
{
    Levels {
        tck: b'0',
        tms: level_of(tms_of(digit)),
        tdi: level_of(tdi_of(digit)),
        tdo: level_of(tdo_of(digit)),
        state: old.state,
    }
}

fn high_levels(old: Levels, after: Possible, digit: u8) -> Levels
    requires { 48 ≤ digit }
    ensures { result ≡ high_levels old (states_held after) digit }
{
    Levels {
        tck: b'1',
        state: shown_number(after.settled()),
        ..low_levels(old, digit)
    }
}

fn rest_levels(old: Levels) -> Levels
    ensures { result ≡ rest_levels old }
{
    Levels { tck: b'0', ..old }
}

// The wave after a clock.
fn after_clock(wave: Progress, digit: u8) -> Progress
    requires digit { 48 ≤ digit }
    requires small { wave.time + 2 < 2 ^ 63 }
    ensures { wave_held result ≡ after_item (wave_held wave) (Clocked digit) }
{
    let possible = wave.possible.after(tms_of(digit));
    Progress {
        time: wave.time + 2,
        levels: high_levels(wave.levels, possible, digit),
        possible,
    }
}

// Puts a clock, and gives the wave after it.
fn put_clock<K: Sink>(lines: &mut Lines<K>, wave: Progress, digit: u8) -> Result<Progress, Failed>
    requires whole { IsWhole lines.old }
    requires digit { 48 ≤ digit }
    requires small { wave.time + 2 < 2 ^ 63 }
    ensures next { IfOk result (λ after. wave_held after ≡ after_item (wave_held wave) (Clocked digit)) }
    ensures put { HasPut K.Sink lines.old (item_text (wave_held wave) (Clocked digit)) lines.new result }
{
    let low = low_levels(wave.levels, digit);
    let after = after_clock(wave, digit);
    put_moment(lines, wave.time, wave.levels, low)?;
    put_moment(lines, wave.time + 1, low, after.levels)?;
    Ok(after)
}

// Puts the clocks of some digits, and gives the wave after them.
fn put_digits<K: Sink>(
    lines: &mut Lines<K>,
    wave: Progress,
    digits: &[u8],
) -> Result<Progress, Failed>
    requires whole { IsWhole lines.old }
    requires digits { (k : ℕ) → k < length digits.now → 48 ≤ slice_index_or digits.now k 48 }
    requires small { wave.time + 2 * length digits.now < 2 ^ 63 }
    ensures next { IfOk result (λ after. wave_held after ≡ after_items (wave_held wave) (map Clocked digits.now)) }
    ensures put { HasPut K.Sink lines.old (items_text (wave_held wave) (map Clocked digits.now)) lines.new result }
{
    let mut after = wave;
    let mut n = 0;
    'clocks: while n < digits.len() {
        after = put_clock(lines, after, digits[n])?;
        n += 1;
    }
    Ok(after)
}

// The wave after a wait.
fn after_wait(wave: Progress, usec: u64) -> Progress
    requires { wave.time + usec < 2 ^ 63 }
    ensures { wave_held result ≡ after_item (wave_held wave) (Waited usec) }
{
    Progress {
        time: wave.time + usec,
        levels: rest_levels(wave.levels),
        possible: wave.possible,
    }
}

// Puts a wait, if there is one, and gives the wave after it.
fn put_wait<K: Sink>(
    lines: &mut Lines<K>,
    wave: Progress,
    wait: Option<u64>,
) -> Result<Progress, Failed>
    requires whole { IsWhole lines.old }
    requires short { IfSome wait (λ usec. usec ≤ most_usec) }
    requires small { wave.time + most_usec < 2 ^ 63 }
    ensures next { IfOk result (λ after. wave_held after ≡ after_items (wave_held wave) (waits_found wait)) }
    ensures put { HasPut K.Sink lines.old (items_text (wave_held wave) (waits_found wait)) lines.new result }
{
    let Some(usec) = wait else {
        return Ok(wave);
    };
    let after = after_wait(wave, usec);
    put_moment(lines, wave.time, wave.levels, after.levels)?;
    Ok(after)
}

// Puts the clocks and the wait of a line, and gives the wave after them.
fn put_line<K: Sink>(lines: &mut Lines<K>, wave: Progress, line: &[u8]) -> Result<Progress, Failed>
    requires whole { IsWhole lines.old }
    requires good { is_bad_line line.now ≡ false }
    requires small { wave.time + (2 * length line.now + most_usec) < 2 ^ 63 }
    ensures next { IfOk result (λ after. wave_held after ≡ after_items (wave_held wave) (line_items line.now)) }
    ensures put { HasPut K.Sink lines.old (items_text (wave_held wave) (line_items line.now)) lines.new result }
{
    let clocked = put_digits(lines, wave, digits_of(line))?;
    put_wait(lines, clocked, wait_of(line))
}

// Puts the clocks and the waits of a text, and gives the wave after them.
fn put_items<K: Sink>(lines: &mut Lines<K>, text: &[u8]) -> Result<Progress, Failed>
    requires whole { IsWhole lines.old }
    requires few { length text.now ≤ trace_limit }
    requires good { has_bad_line text.now ≡ false }
    ensures next { IfOk result (λ after. wave_held after ≡ after_items first_wave (items_in text.now)) }
    ensures small { IfOk result (λ after. after.time < 2 ^ 63) }
    ensures put { HasPut K.Sink lines.old (items_text first_wave (items_in text.now)) lines.new result }
{
    let mut wave = first_wave();
    let mut at = 0;
    'lines: while at < text.len() {
        let (line, len) = first_line(&text[at..]);
        wave = put_line(lines, wave, line)?;
        at += len;
    }
    Ok(wave)
}

// The wave before the first item.
fn first_wave() -> Progress
    ensures { wave_held result ≡ first_wave }
{
    Progress {
        time: 0,
        levels: Levels {
            tck: b'0',
            tms: b'x',
            tdi: b'x',
            tdo: b'x',
            state: 16,
        },
        possible: Possible::all(),
    }
}

// Puts the end of a dump.
fn put_end<K: Sink>(lines: &mut Lines<K>, wave: Progress) -> Result<(), Failed>
    requires whole { IsWhole lines.old }
    requires small { wave.time < 2 ^ 63 }
    ensures { HasPut K.Sink lines.old (end_text (wave_held wave)) lines.new result }
{
    put_times(lines, wave.time, wave.levels, rest_levels(wave.levels))
}

/// Puts the clocks and the waits of a text as a Value Change Dump with four states (IEEE 1364). No line of clocks in
/// the text is bad.
///
/// A clock takes two steps of a microsecond each: TCK goes to 0 with TMS, TDI and TDO of the clock, and then to 1, with
/// the state of the controllers after it, which is unknown until each of the sixteen states leads to one. A wait takes
/// its microseconds. Only what changes is written. It takes no memory, and time linear in the length of the text.
///
/// `Failed` as of the sink.
pub fn put_wave<K: Sink>(lines: &mut Lines<K>, text: &[u8]) -> Result<(), Failed>
    requires whole { IsWhole lines.old }
    requires few { length text.now ≤ trace_limit }
    requires good { has_bad_line text.now ≡ false }
    ensures { HasPut K.Sink lines.old (wave_text (items_in text.now)) lines.new result }
{
    lines.put(HEAD)?;
    let wave = put_items(lines, text)?;
    put_end(lines, wave)?;
    Ok(())
}
