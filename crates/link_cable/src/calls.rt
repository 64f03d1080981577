//! Bytes to a wire and answers from it, until all are through.
ghost use Rattle.std.specs.Prelude.{◌≡◌, ◌≢◌, ◌<◌, ◌≤◌, ◌^◌, ◌==◌, Bool, true, length, IfSome, IfNone, IfOk, IsOk, OnOk};
ghost use Rattle.base.specs.Bits.{low_bits};
ghost use Rattle.dev_card.specs.Blocks.{block_inputs};
ghost use Rattle.dev_card.specs.Clocks.{with_zero};
ghost use Rattle.link_server.specs.Runs.{digit_of};
ghost use Rattle.link_cable.specs.Wires.{told_sent, AllCarried, HasRoom, AnswerWaits, HasGiven, OneCarried, ClockOver, ShiftOver, IsGoodWire};
ghost use Rattle.link_cable.specs.WireCalls.{KeepsWire};

use crate::wire::Wire;
use link_server::{clock_bytes, is_last, raise, with_bit};
use tool_io::Failed;

// Sends all of the bytes. A send that takes none of them is a fault.
fn send_all<W: Wire>(wire: &mut W, bytes: &[u8], faults: &mut u64) -> Result<(), Failed>
    requires { W.is_ready wire.old ≡ true }
    ensures sent { OnOk result (W.told wire.new ≡ told_sent (W.told wire.old) bytes.now) }
    ensures went { AllCarried W.carried wire.old bytes.now result wire.new }
    ensures room { HasRoom (W.told wire.old) (W.is_steady wire.old) (length bytes.now) → IsOk result }
    ensures steady { OnOk result (W.is_steady wire.old ≡ true → W.is_steady wire.new ≡ true) }
    ensures kept { KeepsWire W.Wire wire.old faults.old wire.new faults.new result }
{
    let mut rest = bytes;
    'turns: while !rest.is_empty() {
        let n = wire.send(rest)?;
        if n == 0 {
            raise(faults);
            return Err(Failed);
        }
        rest = &rest[n as usize..];
    }
    Ok(())
}

// Receives one answer. To receive none is a fault.
fn receive_one<W: Wire>(wire: &mut W, faults: &mut u64) -> Result<u8, Failed>
    requires { W.is_ready wire.old ≡ true }
    ensures given { IfOk result (λ answer. HasGiven (W.told wire.old) answer (W.told wire.new)) }
    ensures came { OneCarried W.carried wire.old result wire.new }
    ensures waits { AnswerWaits (W.told wire.old) (W.is_steady wire.old) → IsOk result }
    ensures steady { OnOk result (W.is_steady wire.old ≡ true → W.is_steady wire.new ≡ true) }
    ensures kept { KeepsWire W.Wire wire.old faults.old wire.new faults.new result }
{
    let mut answer = [0u8; 1];
    let n = wire.receive(&mut answer)?;
    if n == 0 {
        raise(faults);
        return Err(Failed);
    }
    Ok(answer[0])
}

// The bit of a digit.
fn bit_of(answer: u8) -> Option<bool>
    ensures some { IfSome result (λ bit. answer ≡ digit_of bit) }
    ensures none { IfNone result ((bit : Bool) → answer ≢ digit_of bit) }
{
    match answer {
        b'0' => Some(false),
        b'1' => Some(true),
        _ => None,
    }
}

// One clock over a wire. An answer that is no digit of a bit is a fault.
pub(crate) fn clock_wire<W: Wire>(
    wire: &mut W,
    tms: bool,
    tdi: bool,
    faults: &mut u64,
) -> Result<bool, Failed>
    requires { W.is_ready wire.old ≡ true }
    ensures clocked { ClockOver W.told W.carried wire.old tms tdi result wire.new }
    ensures good { IsGoodWire (W.told wire.old) (W.is_steady wire.old) →
        IsOk result × IsGoodWire (W.told wire.new) (W.is_steady wire.new) }
    ensures kept { KeepsWire W.Wire wire.old faults.old wire.new faults.new result }
{
    let bytes = clock_bytes(tms, tdi);
    send_all(wire, &bytes, faults)?;
    let answer = receive_one(wire, faults)?;
    match bit_of(answer) {
        Some(bit) => Ok(bit),
        None => {
            raise(faults);
            Err(Failed)
        }
    }
}

// n clocks over a wire, with the lowest bits of a number, and TMS 1 at the last of them if it is so marked.
pub(crate) fn shift_wire<W: Wire>(
    wire: &mut W,
    tdi: u64,
    n: u32,
    last: bool,
    faults: &mut u64,
) -> Result<u64, Failed>
    requires ready { W.is_ready wire.old ≡ true }
    requires most { n ≤ 64 }
    ensures shifted { ShiftOver W.told W.carried wire.old (block_inputs tdi n last) result wire.new }
    ensures small { IfOk result (λ tdo. tdo < 2 ^ n) }
    ensures good { IsGoodWire (W.told wire.old) (W.is_steady wire.old) →
        IsOk result × IsGoodWire (W.told wire.new) (W.is_steady wire.new) }
    ensures kept { KeepsWire W.Wire wire.old faults.old wire.new faults.new result }
{
    if n == 0 {
        return Ok(0);
    }
    let bit = clock_wire(wire, is_last(last, n), tdi % 2 == 1, faults)?;
    let rest = shift_wire(wire, tdi / 2, n - 1, last, faults)?;
    Ok(with_bit(rest, bit, n - 1))
}

// The same as `shift_wire`, with the lowest bits of a number as TMS, and with TDI 0.
pub(crate) fn move_wire<W: Wire>(
    wire: &mut W,
    tms: u64,
    n: u32,
    faults: &mut u64,
) -> Result<u64, Failed>
    requires ready { W.is_ready wire.old ≡ true }
    requires most { n ≤ 64 }
    ensures moved { ShiftOver W.told W.carried wire.old (with_zero (low_bits n tms)) result wire.new }
    ensures small { IfOk result (λ tdo. tdo < 2 ^ n) }
    ensures good { IsGoodWire (W.told wire.old) (W.is_steady wire.old) →
        IsOk result × IsGoodWire (W.told wire.new) (W.is_steady wire.new) }
    ensures kept { KeepsWire W.Wire wire.old faults.old wire.new faults.new result }
{
    if n == 0 {
        return Ok(0);
    }
    let bit = clock_wire(wire, tms % 2 == 1, false, faults)?;
    let rest = move_wire(wire, tms / 2, n - 1, faults)?;
    Ok(with_bit(rest, bit, n - 1))
}
