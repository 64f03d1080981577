//! A session: the wire is opened, a play is played over it, and the session ends.
ghost use Rattle.std.specs.Prelude.{◌≡◌, [], codes, IfSome, IfNone};
ghost use Rattle.tool_io.specs.Causes.{HasCause, HasRisen, NeverFalls};
ghost use Rattle.tool_io.specs.Lines.{IsWhole, gathered, sink_of, IsOverSame};
ghost use Rattle.drive_cable.specs.Peers.{PeerCarried};
ghost use Rattle.drive_cable.specs.PeerCalls.{BrokeOff, HasCarried};
ghost use Rattle.drive_tool.specs.Statuses.{done_with};
ghost use Rattle.drive_tool.specs.Steps.{ready_play, IsPlayable};
ghost use Rattle.drive_tool.specs.Plans as plans;
ghost use Rattle.drive_tool.specs.Answers.{outside, DoesPlan, KeepsPeer};

use crate::DriveStatus;
use crate::playing::write_play;
use crate::preparing::Ready;
use crate::words::Wire;
use drive_cable::{Peer, send_all};
use stapl_meaning::Ending;
use tool_io::{Failed, Lines, Sink};

// Ends the session at the peer.
fn quit<P: Peer>(peer: &mut P) -> Result<(), Failed>
    ensures sent { HasCarried P.Peer peer.old (codes "Q") [] peer.new result }
    ensures cause { HasCause P.faults P.is_last peer.old peer.new result }
{
    send_all(peer, b"Q")?;
    peer.flush()
}

// Ends the session after a play that ended so, and gives the status, if the wire does not fail.
fn end_session<P: Peer>(peer: &mut P, ending: Ending) -> Option<DriveStatus>
    ensures status { IfSome result (λ status. status ≡ done_with ending) }
    ensures sent { IfSome result (λ status. PeerCarried P.sent P.left peer.old (codes "Q") [] peer.new) }
    ensures broke { IfNone result (BrokeOff P.Peer peer.old (codes "Q") peer.new) }
    ensures rose { IfNone result (HasRisen P.faults P.is_last peer.old peer.new) }
    ensures kept { NeverFalls P.faults P.is_last peer.old peer.new }
{
    match quit(peer) {
        Ok(()) => Some(DriveStatus::of(ending)),
        Err(_) => None,
    }
}

// Plays what is ready over a peer whose wire is open, writes the text, and ends the session.
fn play_session<P: Peer, K: Sink>(
    ready: &mut Ready,
    sleeps: bool,
    peer: &mut P,
    lines: &mut Lines<K>,
) -> Result<Option<DriveStatus>, Failed>
    requires playable { IsPlayable ready.old }
    requires whole { IsWhole lines.old }
    requires empty { gathered lines.old ≡ [] }
    ensures driven { DoesPlan P.Peer K.Sink (outside peer.old (sink_of lines.old))
        (outside peer.new (sink_of lines.new)) sleeps (plans.drive ready.old.pins (ready_play ready.old)) result }
    ensures sink { HasCause K.faults K.is_last (sink_of lines.old) (sink_of lines.new) result }
    ensures same_sink { IsOverSame lines.old lines.new }
    ensures peer { KeepsPeer P.Peer peer.old peer.new result }
{
    let played = write_play(ready, sleeps, peer, lines)?;
    match played {
        Some(ending) => Ok(end_session(peer, ending)),
        None => Ok(None),
    }
}

// The same, with lines to a sink.
fn play_open<P: Peer, K: Sink>(
    ready: &mut Ready,
    sleeps: bool,
    peer: &mut P,
    out: &mut K,
) -> Result<Option<DriveStatus>, Failed>
    requires { IsPlayable ready.old }
    ensures driven { DoesPlan P.Peer K.Sink (outside peer.old out.old) (outside peer.new out.new) sleeps
        (plans.drive ready.old.pins (ready_play ready.old)) result }
    ensures sink { HasCause K.faults K.is_last out.old out.new result }
    ensures peer { KeepsPeer P.Peer peer.old peer.new result }
{
    let mut lines = Lines::new(out);
    play_session(ready, sleeps, peer, &mut lines)
}

/// Opens the wire, plays what is ready over it, and ends the session after the text is written. There is no status if
/// the wire failed.
///
/// `Failed` as of the sink.
pub(crate) fn drive<P: Peer, K: Sink>(
    ready: &mut Ready,
    wire: Wire<'_>,
    peer: &mut P,
    out: &mut K,
) -> Result<Option<DriveStatus>, Failed>
    requires { IsPlayable ready.old }
    ensures driven { DoesPlan P.Peer K.Sink (outside peer.old out.old) (outside peer.new out.new) wire.entry.sleeps
        (plans.drive ready.old.pins (ready_play ready.old)) result }
    ensures sink { HasCause K.faults K.is_last out.old out.new result }
    ensures peer { KeepsPeer P.Peer peer.old peer.new result }
{
    match peer.open(wire.receive, wire.send) {
        Ok(()) => play_open(ready, wire.sleeps, peer, out),
        Err(_) => Ok(None),
    }
}
