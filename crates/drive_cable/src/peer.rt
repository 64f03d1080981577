//! What answers the bytes.
ghost use Rattle.std.specs.Prelude.{◌≡◌, ◌<◌, ℕ, List, [], Option, length};
ghost use Rattle.tool_io.specs.Causes.{HasCause};
ghost use Rattle.drive_cable.specs.Peers.{PeerCarried, SendAnswer, ReceiveAnswer};

use tool_io::Failed;

/// What answers the bytes of the protocol remote bitbang: a simulation, an adapter, or another link.
///
/// A peer tells contracts the bytes that were sent to it and the answers that it has left, as one in memory does, or
/// tells neither, as a pair of files. It has a count of faults, which never falls. Nothing is promised of what it
/// answers.
pub trait Peer {
    /// All bytes that were sent, where it tells them.
    ghost sent: { Self → Option (List ℕ) };

    /// The answers that no call has received yet, where it tells them.
    ghost left: { Self → Option (List ℕ) };

    /// How often calls have failed.
    ghost faults: { Self → ℕ };

    /// The count stands at its last value.
    ghost is_last: { Self → Type 0 };

    /// Opens the ways from it and to it, in this order, and carries nothing.
    ///
    /// `Failed` if one of them cannot be had. It comes only if the count rose, or stands at its last value, here and at
    /// the other calls.
    fn open(&mut self, receive: &str, send: &str) -> Result<(), Failed>
        ensures still { PeerCarried sent left self.old [] [] self.new }
        ensures cause { HasCause faults is_last self.old self.new result };

    /// Sends a front of the bytes, and answers how many those are: at least one where there are any.
    ///
    /// `Failed` if they could not be sent; a front of them, perhaps none, was sent then.
    fn send(&mut self, bytes: &[u8]) -> Result<u32, Failed>
        ensures sent { SendAnswer sent left self.old bytes.now self.new result }
        ensures cause { HasCause faults is_last self.old self.new result };

    /// Sends on what was sent, and nothing else. `Failed` if that could not be done.
    fn flush(&mut self) -> Result<(), Failed>
        ensures still { PeerCarried sent left self.old [] [] self.new }
        ensures cause { HasCause faults is_last self.old self.new result };

    /// Receives the next bits into a front of the slice, which has a place, and answers how many those are: at least
    /// one. A bit is answered as the digit 0 or 1.
    ///
    /// `Failed` if no answer comes any more, or the next one is another byte. Then nothing is received.
    fn receive(&mut self, into: &mut [bool]) -> Result<u32, Failed>
        requires some { 0 < length into.old }
        ensures length { length into.new ≡ length into.old }
        ensures received { ReceiveAnswer sent left self.old into.new self.new result }
        ensures cause { HasCause faults is_last self.old self.new result };
}
