//! The top call.
ghost use Rattle.std.specs.Prelude.{◌≡◌, map, string_bytes};
ghost use Rattle.tool_io.specs.Causes.{HasCause};
ghost use Rattle.tool_frame.specs.Files.{OfFiles, KeepsShelf};
ghost use Rattle.tool_frame.specs.Frame.{KeepsCount};
ghost use Rattle.play_tool.specs.ReadContents.{ArePlayFiles, IsPlayFile};
ghost use Rattle.drive_tool.specs.Statuses.{IsFault};
ghost use Rattle.drive_tool.specs.Plans.{Plan, RequestPlan, WordsPlan};
ghost use Rattle.drive_tool.specs.Steps.{IsStepOf, CanBeDone};
ghost use Rattle.drive_tool.specs.Answers.{outside, IsPlanned, IsAnswered, IsCut, IsTorn, IsStill, DoesPlan, ComesTo, KeepsPeer, NamesFiles, OfWords, IsReachedBy, HasFailedRead, HasFailed, KeepsOutside};

use crate::DriveStatus;
use crate::driving::drive;
use crate::preparing::{Step, prepare_play};
use crate::refusals::Refusal;
use crate::words::{Asked, Wire, read_asked};
use drive_cable::Peer;
use play_words::WordsRefused;
use std::alloc::Global;
use tool_frame::NoAnswer;
use tool_io::{Failed, Shelf, Sink};

// Does what words and files came to: it writes a refusal, or plays what is ready. There is no status if the wire failed.
fn do_step<P: Peer, K: Sink>(
    step: Step,
    wire: Wire<'_>,
    peer: &mut P,
    out: &mut K,
) -> Result<Option<DriveStatus>, Failed>
    requires { CanBeDone step }
    ensures done { (plan : Plan) → IsStepOf plan step → DoesPlan P.Peer K.Sink (outside peer.old out.old)
        (outside peer.new out.new) wire.entry.sleeps plan result }
    ensures sink { HasCause K.faults K.is_last out.old out.new result }
    ensures peer { KeepsPeer P.Peer peer.old peer.new result }
{
    match step {
        Step::Refused(refusal) => {
            refusal.write(out)?;
            Ok(Some(refusal.status()))
        }
        Step::Ready(mut ready) => drive(&mut ready, wire, peer, out),
    }
}

// Answers words that ask for a play over a wire.
fn answer_asked<S: Shelf, P: Peer, K: Sink>(
    alloc: Global,
    asked: &Asked<'_>,
    shelf: &mut S,
    peer: &mut P,
    out: &mut K,
) -> Result<Option<DriveStatus>, NoAnswer>
    ensures did { OfFiles (ArePlayFiles asked.now.play) (S.told shelf.old) (λ contents. ComesTo P.Peer K.Sink
        (outside peer.old out.old) (outside peer.new out.new)
        (λ sleeps plan. (asked.now.wire.sleeps ≡ sleeps) × RequestPlan asked.now.play.request contents plan) result) }
    ensures shelf { KeepsShelf S.Shelf (ArePlayFiles asked.now.play) (IsPlayFile (S.told shelf.old) asked.now.play)
        shelf.old shelf.new result }
    ensures sink { KeepsCount K.Sink out.old out.new result }
    ensures peer { KeepsPeer P.Peer peer.old peer.new result }
{
    let step = prepare_play(alloc, &asked.play, shelf)?;
    let status = do_step(step, asked.wire, peer, out)?;
    Ok(status)
}

// Does what the words ask. There is no status if the wire failed.
fn run<S: Shelf, P: Peer, K: Sink>(
    alloc: Global,
    words: &[String],
    shelf: &mut S,
    peer: &mut P,
    out: &mut K,
) -> Result<Option<DriveStatus>, NoAnswer>
    ensures did { OfWords (S.told shelf.old) (map string_bytes words.now) (λ contents. ComesTo P.Peer K.Sink
        (outside peer.old out.old) (outside peer.new out.new) (WordsPlan (map string_bytes words.now) contents)
        result) }
    ensures shelf { KeepsShelf S.Shelf (NamesFiles (map string_bytes words.now))
        (IsReachedBy (S.told shelf.old) (map string_bytes words.now)) shelf.old shelf.new result }
    ensures sink { KeepsCount K.Sink out.old out.new result }
    ensures peer { KeepsPeer P.Peer peer.old peer.new result }
{
    match read_asked(alloc, words) {
        Ok(asked) => answer_asked(alloc, &asked, shelf, peer, out),
        Err(WordsRefused::Usage(n)) => {
            let refusal = Refusal::Usage(n);
            refusal.write(out)?;
            Ok(Some(refusal.status()))
        }
        Err(WordsRefused::Memory) => Err(NoAnswer::Memory),
    }
}

/// Plays the action of a program over a peer that answers the bytes of the protocol remote bitbang. The words are
/// `send=PATH` and `receive=PATH`, in this order, perhaps `sleep=yes` or `sleep=no`, and then those of a play by the
/// tool, in any order, but `report=`.
///
/// It reads the board, and then the program, chooses the procedures, and takes all memory. Then the wire is opened: the
/// way from the peer, and then the way to it. The program is played, its text is written, and a `Q` ends the session.
/// It is sent only after a play that came to an ending.
pub fn run_drive<S: Shelf, P: Peer, K: Sink>(
    alloc: Global,
    words: &[String],
    shelf: &mut S,
    peer: &mut P,
    out: &mut K,
) -> DriveStatus
    // Every status but those of faults and of want of memory is that of the words and the contents of their files, as
    // they were read in this call. A refusal writes its line, and nothing happens to the peer. A play was driven to its
    // ending: the bytes of exactly its clocks and waits were sent, and then a Q; it is the play that the statements mean
    // on exactly what was received; and its text is written. With a store that tells its files the contents are what it
    // holds.
    ensures answer { (IsFault result → ⊥) → OfWords (S.told shelf.old) (map string_bytes words.now) (λ contents.
        IsPlanned (WordsPlan (map string_bytes words.now) contents) (λ sleeps plan. IsAnswered P.Peer K.Sink
        (outside peer.old out.old) (outside peer.new out.new) sleeps result plan)) }

    // The wire fails only where the peer's count rose. Then the play was driven in part, or only the Q may be missing,
    // or nothing was sent, received or written.
    ensures wire { result ≡ DriveStatus.WireFault → HasFailed P.faults P.is_last peer.old peer.new
        (OfWords (S.told shelf.old) (map string_bytes words.now) (λ contents.
        IsPlanned (WordsPlan (map string_bytes words.now) contents)
        (IsCut P.Peer K.Sink (outside peer.old out.old) (outside peer.new out.new)))) }

    // A write fault comes only where the sink's count rose. Then a front of a refusal is written; or the play was driven
    // in part, or to its ending but for the Q, and a front of its text is written.
    ensures write { result ≡ DriveStatus.WriteFault → HasFailed K.faults K.is_last out.old out.new
        (OfWords (S.told shelf.old) (map string_bytes words.now) (λ contents.
        IsPlanned (WordsPlan (map string_bytes words.now) contents)
        (IsTorn P.Peer K.Sink (outside peer.old out.old) (outside peer.new out.new)))) }

    // A read fault comes only where the count of a file that the words name rose, of the program only if no told board
    // is refused. Then nothing is written, sent or received; nor is it after want of memory.
    ensures read { result ≡ DriveStatus.ReadFault → HasFailedRead S.Shelf
        (IsReachedBy (S.told shelf.old) (map string_bytes words.now)) shelf.old shelf.new
        (IsStill P.Peer K.Sink (outside peer.old out.old) (outside peer.new out.new)) }
    ensures memory { result ≡ DriveStatus.Memory →
        IsStill P.Peer K.Sink (outside peer.old out.old) (outside peer.new out.new) }

    // Whatever is answered, only the board and the program that the words name are opened, each at most once, and the
    // board first. The files stay, and no count falls.
    ensures kept { KeepsOutside S.Shelf (NamesFiles (map string_bytes words.now)) P.Peer K.Sink shelf.old shelf.new
        (outside peer.old out.old) (outside peer.new out.new) }
{
    match run(alloc, words, shelf, peer, out) {
        Ok(Some(status)) => status,
        Ok(None) => DriveStatus::WireFault,
        Err(NoAnswer::Read) => DriveStatus::ReadFault,
        Err(NoAnswer::Write) => DriveStatus::WriteFault,
        Err(NoAnswer::Memory) => DriveStatus::Memory,
    }
}
