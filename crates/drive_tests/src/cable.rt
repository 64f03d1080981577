// A cable over a peer in memory, which takes and answers in parts, fails, or answers what is no digit, and over files.
ghost use Rattle.std.specs.Prelude.{◌≤◌};

use drive_cable::{DriveCable, FilePeer, MemPeer, Peer};
use scan_paths::Cable;
use std::alloc::{AllocError, Global};
use std::fs;
use std::test::Fail;
use tool_io::{Failed, MemSink};

// A peer with these answers, of which a send takes and a receive answers at most `bite`, and whose call of this number
// fails.
fn peer_with(alloc: Global, answers: &[u8], bite: u32, failing: u32) -> Result<MemPeer, AllocError>
    requires { 1 ≤ bite }
{
    let sink = MemSink::new(alloc, 1000, bite, Vec::new(alloc))?;
    let failing = vec![in alloc; failing]?;
    Ok(MemPeer::new(sink, answers.to_vec(alloc)?, bite, failing))
}

// A block of three clocks with the bits 0, 1 and 1, of which the last one leaves the shift.
fn shift<P: Peer>(peer: &mut P) -> Result<u64, Failed> {
    let mut cable = DriveCable::over(peer, false);
    cable.shift_block(6, 3, true)
}

// A clock, a wait of 2,003 microseconds and a clock, with or without the bytes of waits.
fn wait_between<P: Peer>(peer: &mut P, sleeps: bool) -> Result<(bool, bool), Failed> {
    let mut cable = DriveCable::over(peer, sleeps);
    let first = cable.clock(true, false)?;
    cable.hertz(1000)?;
    cable.usec(2003)?;
    let second = cable.clock(false, true)?;
    Ok((first, second))
}

#[test]
fn sends_and_receives_in_parts(rt: HostRuntime) -> Result<(), Fail> {
    for bite in [1, 2, 4, 9, 100] {
        let mut peer = peer_with(rt.alloc(), b"0111", bite, 0)?;
        assert!(rt; shift(&mut peer) == Ok(6), "{bite}");
        assert!(rt; peer.sent() == b"0R41R53R7".as_slice(), "{bite}");
    }
    Ok(())
}

#[test]
fn tells_waits_if_they_are_wanted(rt: HostRuntime) -> Result<(), Fail> {
    let mut quick = peer_with(rt.alloc(), b"01", 100, 0)?;
    assert!(rt; wait_between(&mut quick, false) == Ok((false, true)));
    assert!(rt; quick.sent() == b"2R61R5".as_slice());
    let mut slow = peer_with(rt.alloc(), b"10", 100, 0)?;
    assert!(rt; wait_between(&mut slow, true) == Ok((true, false)));
    assert!(rt; slow.sent() == b"2R6ZZzzz1R5".as_slice());
    Ok(())
}

#[test]
fn fails_with_each_call_of_the_peer(rt: HostRuntime) -> Result<(), Fail> {
    // Nine bytes are three sends of at most four; then come a flush and a receive.
    let cases = [
        (1, Err(Failed), 0),
        (2, Err(Failed), 4),
        (3, Err(Failed), 8),
        (4, Err(Failed), 9),
        (5, Err(Failed), 9),
        (6, Ok(6), 9),
    ];
    for (failing, want, count) in cases {
        let mut peer = peer_with(rt.alloc(), b"011", 4, failing)?;
        assert!(rt; shift(&mut peer) == want, "{failing}");
        assert!(rt; peer.sent().len() == count, "{failing}");
    }
    Ok(())
}

#[test]
fn refuses_what_is_no_digit(rt: HostRuntime) -> Result<(), Fail> {
    for answers in [b"".as_slice(), b"01", b"01x", b"x11", b"0 1", b"2"] {
        let mut peer = peer_with(rt.alloc(), answers, 2, 0)?;
        assert!(rt; shift(&mut peer) == Err(Failed));
        assert!(rt; peer.sent() == b"0R41R53R7".as_slice());
    }
    Ok(())
}

// The same block over a pair of files of the system, with these answers.
fn shift_over_files(rt: &HostRuntime, answers: &[u8]) -> Result<Result<u64, Failed>, Fail> {
    fs::write(rt, "answers.bin", answers)?;
    let mut peer = FilePeer::new(rt);
    peer.open("answers.bin", "bytes.bin")?;
    Ok(shift(&mut peer))
}

#[test]
fn drives_a_pair_of_files(rt: HostRuntime) -> Result<(), Fail> {
    assert!(rt; shift(&mut FilePeer::new(&rt)) == Err(Failed));
    assert!(rt; shift_over_files(&rt, b"101")? == Ok(5));
    let sent = fs::read(&rt, "bytes.bin")?;
    assert!(rt; sent.as_slice() == b"0R41R53R7".as_slice());
    assert!(rt; shift_over_files(&rt, b"10")? == Err(Failed));
    assert!(rt; shift_over_files(&rt, b"10\n")? == Err(Failed));
    fs::remove_file(&rt, "answers.bin")?;
    fs::remove_file(&rt, "bytes.bin")?;
    Ok(())
}
