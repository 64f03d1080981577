//! A peer in memory.
ghost use Rattle.std.specs.Prelude.{◌≡◌, ◌<◌, ◌≤◌, [], length, Some};
ghost use Rattle.tool_io.specs.Causes.{HasCause};
ghost use Rattle.drive_cable.specs.Peers.{PeerCarried, SendAnswer, ReceiveAnswer};

use crate::digits::put_bits;
use crate::peer::Peer;
use link_server::raise;
use tool_io::{Failed, MemSink, Sink};

/// A peer in memory: its bytes go to a sink in memory, and its answers are listed. It tells both.
///
/// Calls of all sorts are numbered together, from 1, and the number stays at 4,294,967,295 once it is reached. A call
/// whose number is listed fails, and does nothing else. A send takes what the sink takes, and fails if that fails. A
/// receive gives the bits of the digits that stand first among the answers left, at most `bite` of them, and fails if
/// no digit stands there. A call that fails raises the count of faults by one, up to the last value of 64 bits.
#[derive(Drop)]
pub struct MemPeer {
    bytes: MemSink,
    answers: Vec<u8>,
    given: usize,
    bite: u32,
    failing: Vec<u32>,
    number: u32,
    faults: u64,
    ghost within: { given ≤ length answers.items },
    ghost some: { 1 ≤ bite },
}

impl MemPeer {
    ghost use Rattle.drive_cable.specs.MemPeers.{mem_sent, mem_left, mem_faults, IsMemLast, IsNewPeer, CallsExactly};

    /// A peer over this sink with these answers, of which a receive gives at most `bite`, at least 1. `failing` has the
    /// numbers of the calls that fail.
    pub fn new(bytes: MemSink, answers: Vec<u8>, bite: u32, failing: Vec<u32>) -> MemPeer
        requires { 1 ≤ bite }
        ensures { IsNewPeer result bytes answers.items bite failing.items }
    {
        MemPeer {
            bytes,
            answers,
            given: 0,
            bite,
            failing,
            number: 0,
            faults: 0,
        }
    }

    /// All bytes that were sent, in order.
    pub fn sent(&self) -> &[u8]
        ensures { mem_sent self.now ≡ Some result.now }
    {
        self.bytes.written()
    }

    // Numbers a call, which fails if its number is listed.
    fn begin(&mut self) -> Result<(), Failed>
        ensures left { mem_left self.new ≡ mem_left self.old }
        ensures cause { HasCause mem_faults IsMemLast self.old self.new result }
        ensures bytes { self.new.bytes ≡ self.old.bytes }
        ensures exact { CallsExactly self.old result self.new }
    {
        self.number = self.number.saturating_add(1);
        if self.failing.contains(&self.number) {
            raise(&mut self.faults);
            return Err(Failed);
        }
        Ok(())
    }
}

impl Peer for MemPeer {
    ghost use Rattle.drive_cable.specs.MemPeers.{mem_sent, mem_left, mem_faults, IsMemLast, CallsExactly, SendsExactly, GivesExactly};

    ghost sent = { mem_sent };

    ghost left = { mem_left };

    ghost faults = { mem_faults };

    ghost is_last = { IsMemLast };

    fn open(&mut self, receive: &str, send: &str) -> Result<(), Failed>
        ensures still { PeerCarried mem_sent mem_left self.old [] [] self.new }
        ensures cause { HasCause mem_faults IsMemLast self.old self.new result }
        ensures exact { CallsExactly self.old result self.new }
    {
        let _receive = receive;
        let _send = send;
        self.begin()
    }

    fn send(&mut self, bytes: &[u8]) -> Result<u32, Failed>
        ensures sent { SendAnswer mem_sent mem_left self.old bytes.now self.new result }
        ensures cause { HasCause mem_faults IsMemLast self.old self.new result }
        ensures exact { SendsExactly self.old bytes.now result self.new }
    {
        self.begin()?;
        match self.bytes.write(bytes) {
            Ok(n) => Ok(n),
            Err(e) => {
                raise(&mut self.faults);
                Err(e)
            }
        }
    }

    fn flush(&mut self) -> Result<(), Failed>
        ensures still { PeerCarried mem_sent mem_left self.old [] [] self.new }
        ensures cause { HasCause mem_faults IsMemLast self.old self.new result }
        ensures exact { CallsExactly self.old result self.new }
    {
        self.begin()
    }

    fn receive(&mut self, into: &mut [bool]) -> Result<u32, Failed>
        requires some { 0 < length into.old }
        ensures length { length into.new ≡ length into.old }
        ensures received { ReceiveAnswer mem_sent mem_left self.old into.new self.new result }
        ensures cause { HasCause mem_faults IsMemLast self.old self.new result }
        ensures exact { GivesExactly self.old (length into.old) result self.new }
    {
        self.begin()?;
        let most = into.len().min(self.bite as usize);
        let n = put_bits(&self.answers[self.given..], &mut into[..most]);
        if n == 0 {
            raise(&mut self.faults);
            return Err(Failed);
        }
        self.given += n;
        Ok(n as u32)
    }
}
