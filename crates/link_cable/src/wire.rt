//! The wire to a link.
ghost use Rattle.std.specs.Prelude.{◌≡◌, ◌<◌, ℕ, List, [], ◌++◌, Bool, true, length, Option, Some, IfOk, IsOk, OnOk};
ghost use Rattle.dev_card.specs.Sound.{AllSound};
ghost use Rattle.link_cable.specs.Wires.{WireState, SendAnswer, SendCarries, HasReceived, ReceiveCarries, KeepsLink, HasRoom, IsWireKept};

use tool_io::Failed;

/// A wire to a link: bytes go one way, and answers come the other way.
///
/// A wire tells the link, its board and the waiting answers to contracts, as one in memory does, or tells nothing, as one
/// to another process. `Ok` of a call leaves a told wire told, and an untold one untold. It has a count of faults, which
/// never falls. A steady wire refuses only what it has no room for, and `Ok` of a call leaves it steady.
///
/// What a wire stands over may be lent, so that it cannot test it: `is_ready` says that it is as the wire needs it. Each
/// call wants that, and keeps it.
pub trait Wire {
    /// The link with its board, and the waiting answers, where the wire tells them.
    ghost told: { Self → Option WireState };

    /// These bytes were taken and these answers were given between one state of the wire and another.
    ghost carried: { Self → List ℕ → List ℕ → Self → Type 0 };

    /// It refuses no call for which it has room.
    ghost is_steady: { Self → Bool };

    /// What it stands over is as it needs it.
    ghost is_ready: { Self → Bool };

    /// How often calls have failed.
    ghost faults: { Self → ℕ };

    /// The count stands at its last value.
    ghost is_last: { Self → Type 0 };

    /// Sends a front of the bytes, and answers how many those are.
    ///
    /// `Failed` exactly if the count rose, or only if it stands at its last value; a front of the bytes may have been taken
    /// then. A steady wire refuses only if waiting answers and bytes are together more than 64.
    fn send(&mut self, bytes: &[u8]) -> Result<u32, Failed>
        requires { is_ready self.old ≡ true }
        ensures sent { SendAnswer (told self.old) bytes.now result (told self.new) }
        ensures went { SendCarries carried self.old bytes.now result self.new }
        ensures room { HasRoom (told self.old) (is_steady self.old) (length bytes.now) → IsOk result }
        ensures steady { OnOk result (is_steady self.old ≡ true → is_steady self.new ≡ true) }
        ensures kept { IsWireKept is_ready faults is_last self.old self.new result };

    /// Receives a front of the waiting answers, the oldest first, and answers how many those are.
    ///
    /// `Failed` exactly if the count rose, or only if it stands at its last value; nothing was received then. A steady
    /// wire never refuses. Link and board stay as they are, whatever it answers.
    fn receive(&mut self, into: &mut [u8]) -> Result<u32, Failed>
        requires ready { is_ready self.old ≡ true }
        requires some { 0 < length into.old }
        ensures length { length into.new ≡ length into.old }
        ensures received { IfOk result (λ n. HasReceived (told self.old) n into.new (told self.new)) }
        ensures came { ReceiveCarries carried self.old into.new result self.new }
        ensures link { KeepsLink (told self.old) (told self.new) }
        ensures never { is_steady self.old ≡ true → IsOk result }
        ensures steady { OnOk result (is_steady self.old ≡ true → is_steady self.new ≡ true) }
        ensures kept { IsWireKept is_ready faults is_last self.old self.new result };

    /// A told board has sound cards.
    ghost sound: { (w : Self) (s : WireState) → told w ≡ Some s → AllSound s.at.board };

    /// A wire that is ready has a board with at least one card.
    ghost some: { (w : Self) (s : WireState) → is_ready w ≡ true → told w ≡ Some s → 0 < length s.at.board };

    /// Nothing is carried between a state and itself.
    ghost none_carried: { (w : Self) → carried w [] [] w };

    /// What was carried by one call after another, joined.
    ghost both_carried: { (a b c : Self) (bytes more answers others : List ℕ) → carried a bytes answers b →
        carried b more others c → carried a (bytes ++ more) (answers ++ others) c };
}
