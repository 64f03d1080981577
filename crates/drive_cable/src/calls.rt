//! Bytes to a peer and answers from it, until all are through.
ghost use Rattle.std.specs.Prelude.{◌≡◌, ◌*◌, ◌≤◌, ◌<◌, ◌^◌, ◌==◌, [], length, replicate, true};
ghost use Rattle.tool_io.specs.Causes.{HasCause};
ghost use Rattle.base.specs.Bits.{low_bits, number_of};
ghost use Rattle.dev_card.specs.Blocks.{block_inputs};
ghost use Rattle.dev_card.specs.Clocks.{with_zero};
ghost use Rattle.link_server.specs.Clients.{bytes_of_inputs, bytes_of_wait};
ghost use Rattle.drive_cable.specs.Peers.{digits_of};
ghost use Rattle.drive_cable.specs.PeerCalls.{HasCarried, HasClocked, HasAskedNumber, HasClockedBlock};

use crate::peer::Peer;
use link_server::{clock_bytes, is_last, with_bit};
use tool_io::Failed;

/// The most clocks of a block, and the bytes of as many.
const MOST_CLOCKS: usize = 64;

const MOST_BYTES: usize = 192;

/// Sends all of the bytes.
///
/// `Failed` as of the peer; a front of them was sent then.
pub fn send_all<P: Peer>(peer: &mut P, bytes: &[u8]) -> Result<(), Failed>
    ensures sent { HasCarried P.Peer peer.old bytes.now [] peer.new result }
    ensures cause { HasCause P.faults P.is_last peer.old peer.new result }
{
    let mut rest = bytes;
    'turns: while !rest.is_empty() {
        let n = peer.send(rest)?;
        rest = &rest[n as usize..];
    }
    Ok(())
}

// Fills the slice with bits.
fn receive_all<P: Peer>(peer: &mut P, into: &mut [bool]) -> Result<(), Failed>
    ensures length { length into.new ≡ length into.old }
    ensures received { HasCarried P.Peer peer.old [] (digits_of into.new) peer.new result }
    ensures cause { HasCause P.faults P.is_last peer.old peer.new result }
{
    if into.is_empty() {
        return Ok(());
    }
    let n = peer.receive(into)?;
    receive_all(peer, &mut into[n as usize..])
}

// Sends all of the bytes at once, and then fills the slice with the bits that are answered.
fn ask<P: Peer>(peer: &mut P, bytes: &[u8], into: &mut [bool]) -> Result<(), Failed>
    ensures length { length into.new ≡ length into.old }
    ensures asked { HasCarried P.Peer peer.old bytes.now (digits_of into.new) peer.new result }
    ensures cause { HasCause P.faults P.is_last peer.old peer.new result }
{
    send_all(peer, bytes)?;
    peer.flush()?;
    receive_all(peer, into)
}

// One clock over a peer.
pub(crate) fn clock_peer<P: Peer>(peer: &mut P, tms: bool, tdi: bool) -> Result<bool, Failed>
    ensures clocked { HasClocked P.Peer peer.old (record { tms = tms; tdi = tdi }) peer.new result }
    ensures cause { HasCause P.faults P.is_last peer.old peer.new result }
{
    let mut bit = [false; 1];
    ask(peer, &clock_bytes(tms, tdi), &mut bit)?;
    Ok(bit[0])
}

// Puts the bytes of n clocks, with the lowest bits of a number, and TMS 1 at the last of them if it is so marked.
fn put_clocks(into: &mut [u8], tdi: u64, n: u32, last: bool)
    requires { length into.old ≡ 3 * n }
    ensures { into.new ≡ bytes_of_inputs (block_inputs tdi n last) }
{
    if n == 0 {
        return;
    }
    let bytes = clock_bytes(is_last(last, n), tdi % 2 == 1);
    into[..3].copy_from_slice(&bytes);
    put_clocks(&mut into[3..], tdi / 2, n - 1, last);
}

// The number of at most 64 bits, the first of them the lowest.
fn number_in(bits: &[bool]) -> u64
    requires { length bits.now ≤ 64 }
    ensures number { result ≡ number_of bits.now }
    ensures small { result < 2 ^ length bits.now }
{
    if bits.is_empty() {
        return 0;
    }
    let rest = number_in(&bits[1..]);
    with_bit(rest, bits[0], bits.len() as u32 - 1)
}

// Sends all of the bytes at once, and then receives n bits: their number, the first of them the lowest.
fn ask_number<P: Peer>(peer: &mut P, bytes: &[u8], n: u32) -> Result<u64, Failed>
    requires { n ≤ 64 }
    ensures asked { HasAskedNumber P.Peer peer.old bytes.now n peer.new result }
    ensures cause { HasCause P.faults P.is_last peer.old peer.new result }
{
    let mut bits = [false; MOST_CLOCKS];
    let count = n as usize;
    ask(peer, bytes, &mut bits[..count])?;
    Ok(number_in(&bits[..count]))
}

// A block of n clocks over a peer: the bytes of all are sent, and then their answers are received.
pub(crate) fn shift_peer<P: Peer>(peer: &mut P, tdi: u64, n: u32, last: bool) -> Result<u64, Failed>
    requires { n ≤ 64 }
    ensures shifted { HasClockedBlock P.Peer peer.old (block_inputs tdi n last) peer.new result }
    ensures cause { HasCause P.faults P.is_last peer.old peer.new result }
{
    let mut bytes = [0u8; MOST_BYTES];
    let count = 3 * n as usize;
    put_clocks(&mut bytes[..count], tdi, n, last);
    ask_number(peer, &bytes[..count], n)
}

// Puts the bytes of n clocks, with the lowest bits of a number as TMS, and with TDI 0.
fn put_moves(into: &mut [u8], tms: u64, n: u32)
    requires { length into.old ≡ 3 * n }
    ensures { into.new ≡ bytes_of_inputs (with_zero (low_bits n tms)) }
{
    if n == 0 {
        return;
    }
    let bytes = clock_bytes(tms % 2 == 1, false);
    into[..3].copy_from_slice(&bytes);
    put_moves(&mut into[3..], tms / 2, n - 1);
}

// The same as `shift_peer`, with the lowest bits of a number as TMS, and with TDI 0.
pub(crate) fn move_peer<P: Peer>(peer: &mut P, tms: u64, n: u32) -> Result<u64, Failed>
    requires { n ≤ 64 }
    ensures moved { HasClockedBlock P.Peer peer.old (with_zero (low_bits n tms)) peer.new result }
    ensures cause { HasCause P.faults P.is_last peer.old peer.new result }
{
    let mut bytes = [0u8; MOST_BYTES];
    let count = 3 * n as usize;
    put_moves(&mut bytes[..count], tms, n);
    ask_number(peer, &bytes[..count], n)
}

// Sends a byte so many times.
fn send_many<P: Peer>(peer: &mut P, byte: u8, count: u32) -> Result<(), Failed>
    ensures sent { HasCarried P.Peer peer.old (replicate count byte) [] peer.new result }
    ensures cause { HasCause P.faults P.is_last peer.old peer.new result }
{
    let bytes = [byte; MOST_BYTES];
    let mut rest = count;
    'turns: while rest > 0 {
        let n = rest.min(MOST_BYTES as u32);
        send_all(peer, &bytes[..n as usize])?;
        rest -= n;
    }
    Ok(())
}

// A wait over a peer, told by a byte for each millisecond, and one for each microsecond more.
pub(crate) fn wait_peer<P: Peer>(peer: &mut P, usec: u32) -> Result<(), Failed>
    ensures sent { HasCarried P.Peer peer.old (bytes_of_wait true usec) [] peer.new result }
    ensures cause { HasCause P.faults P.is_last peer.old peer.new result }
{
    send_many(peer, b'Z', usec / 1000)?;
    send_many(peer, b'z', usec % 1000)?;
    peer.flush()
}
