//! The play of what is ready over a peer, and its text.
ghost use Rattle.std.specs.Prelude.{◌≡◌, ◌<◌, ℕ, List, [], OnErr};
ghost use Rattle.tool_io.specs.Causes.{NeverFalls};
ghost use Rattle.tool_io.specs.Lines.{IsWhole, gathered, IsOverSame as IsSameSink, SinkNeverFalls, SinkHasRisen};
ghost use Rattle.tool_io.specs.declared.lines.Lines.{Lines as Gathered};
ghost use Rattle.written_cable.specs.Papers.{PutsFront, shown_of};
ghost use Rattle.scan_paths.specs.Cables.{whole};
ghost use Rattle.drive_cable.specs.DriveCables.{IsOverSame, peer_of, sends_waits, drive_breakage};
ghost use Rattle.drive_tool.specs.Steps.{ready_play, IsPlayable};
ghost use Rattle.drive_tool.specs.PeerPlays.{PlaysAtPeer, IsPutInPart, WritesAtPeer};

use crate::preparing::Ready;
use base::Steps;
use code_plays::put_ending;
use drive_cable::{DriveCable, Peer};
use stapl_meaning::Ending;
use stapl_player::play;
use std::marker::Brand;
use std::sync::ledger::{Blank, Ledger};
use tool_io::{Failed, Lines, Sink};
use written_cable::Trouble;

// Plays over a cable, and puts the lines of the events. The steps are counted in a ledger that nobody asks, for which
// the caller makes the blank: so the proof of the caller picks the ledger.
fn play_on_cable<P: Peer, K: Sink, L: Ledger>(
    ready: &mut Ready,
    cable: &mut DriveCable<P>,
    lines: &mut Lines<K>,
    blank: Blank,
) -> Result<Ending, Trouble>
    requires name { blank.name ≡ L.name }
    requires parts { blank.parts ≡ L.parts }
    requires some { 0 < L.parts }
    requires playable { IsPlayable ready.old }
    requires whole_cable { drive_breakage cable.old ≡ whole }
    requires whole { IsWhole lines.old }
    ensures played { PlaysAtPeer P.Peer K.Sink (sends_waits cable.old) ready.old.pins (ready_play ready.old)
        (peer_of cable.old) lines.old result (peer_of cable.new) lines.new }
    ensures kept { NeverFalls P.faults P.is_last (peer_of cable.old) (peer_of cable.new) }
    ensures same_peer { IsOverSame cable.old cable.new }
{
    let mut steps = Steps::<L>::none(blank);
    let (pins, turns) = (ready.pins, ready.turns);
    play(
        &mut ready.machine,
        &ready.code,
        &ready.chosen,
        &ready.base,
        cable,
        lines,
        pins,
        turns,
        &mut steps,
    )
}

// The same over a peer, to which a cable stands that ends here.
fn play_at_peer<P: Peer, K: Sink>(
    ready: &mut Ready,
    sleeps: bool,
    peer: &mut P,
    lines: &mut Lines<K>,
) -> Result<Ending, Trouble>
    requires playable { IsPlayable ready.old }
    requires whole { IsWhole lines.old }
    ensures played { PlaysAtPeer P.Peer K.Sink sleeps ready.old.pins (ready_play ready.old) peer.old lines.old
        result peer.new lines.new }
    ensures kept { NeverFalls P.faults P.is_last peer.old peer.new }
{
    let mut cable = DriveCable::over(peer, sleeps);
    let blank = Blank::new(1);
    play_on_cable::<P, K, Brand>(ready, &mut cable, lines, blank)
}

// Writes the lines that wait after the wire failed, if no call on them has failed.
fn write_rest<K: Sink>(lines: &mut Lines<K>) -> Result<(), Failed>
    // What was a front of some bytes still is one.
    ensures front { (before : Gathered K) (bytes : List ℕ) → PutsFront (shown_of K.written) before bytes lines.old →
        IsPutInPart K.Sink before bytes lines.new }
    ensures same_sink { IsSameSink lines.old lines.new }
    ensures kept { SinkNeverFalls K.Sink lines.old lines.new }
    ensures rose { OnErr result (SinkHasRisen K.Sink lines.old lines.new) }
{
    if lines.is_whole() {
        lines.finish()?;
    }
    Ok(())
}

/// Plays what is ready over a peer, and writes the text, with the line of the ending. There is no ending if the wire
/// failed: then what was put before is written.
///
/// `Failed` as of the sink.
pub(crate) fn write_play<P: Peer, K: Sink>(
    ready: &mut Ready,
    sleeps: bool,
    peer: &mut P,
    lines: &mut Lines<K>,
) -> Result<Option<Ending>, Failed>
    requires playable { IsPlayable ready.old }
    requires whole { IsWhole lines.old }
    requires empty { gathered lines.old ≡ [] }
    ensures written { WritesAtPeer P.Peer K.Sink sleeps ready.old.pins (ready_play ready.old) peer.old lines.old
        result peer.new lines.new }
    ensures kept { NeverFalls P.faults P.is_last peer.old peer.new }
{
    match play_at_peer(ready, sleeps, peer, lines) {
        Ok(ending) => {
            put_ending(lines, ending)?;
            lines.finish()?;
            Ok(Some(ending))
        }
        Err(Trouble::CableFault) => {
            write_rest(lines)?;
            Ok(None)
        }
        Err(Trouble::WriteFault) => Err(Failed),
    }
}
