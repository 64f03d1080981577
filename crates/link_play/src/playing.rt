//! Plays over cables of which the board is told, and over a wire to a link.
ghost use Rattle.std.specs.Prelude.{List, IsOk, IfOk};
ghost use Rattle.tool_io.specs.Lines.{SinkHasRisen};
ghost use Rattle.dev_card.specs.Card.{Card};
ghost use Rattle.dev_card.specs.FarEnds.{Told};
ghost use Rattle.scan_paths.specs.Scans.{lengths_of};
ghost use Rattle.written_cable.specs.Papers.{shown_of};
ghost use Rattle.stapl_player.specs.Plays.{whole_play, CanPlay};
ghost use Rattle.link_play.specs.LinkedPlays.{HasRunOf, GoesAsTold, IsWholePlay, IsGoodOver};

use base::Steps;
use link_cable::{LinkCable, Wire};
use scan_paths::{BasePads, Cable};
use stapl_machine::Machine;
use stapl_meaning::Ending;
use stapl_player::play;
use std::sync::ledger::Ledger;
use tool_io::{Lines, Sink};
use valid_codes::Code;
use written_cable::Trouble;

/// The play of `stapl_player`, with what it answers and puts on a board, so that plays over two cables can be compared:
/// over any cable that tells this board, ending and text are those of the run on the board.
pub fn play_told<C: Cable, K: Sink, L: Ledger>(
    machine: &mut Machine,
    code: &Code,
    chosen: &[u32],
    base: &BasePads,
    cable: &mut C,
    out: &mut Lines<K>,
    pins: bool,
    turns: u32,
    steps: &mut Steps<L>,
) -> Result<Ending, Trouble>
    requires { CanPlay C.Cable code.now chosen.now machine.old cable.old out.old }

    // It is Ok, if neither count rises. Over a cable that tells its board, ending and text are those of the run on it.
    ensures told { GoesAsTold C.Cable K.Sink pins code.now chosen.now turns (lengths_of base.now)
        cable.old out.old result cable.new out.new }

    // The rest is that of the play.
    ensures play { IsWholePlay C.Cable K.Sink pins code.now chosen.now turns (lengths_of base.now)
        cable.old out.old steps.old result cable.new out.new steps.new machine.new }
{
    match play(machine, code, chosen, base, cable, out, pins, turns, steps) {
        Ok(ending) => Ok(ending),
        Err(trouble) => Err(trouble),
    }
}

/// The play of `stapl_player` over a wire to a link, with its conditions and its answers. Over a wire that tells and is
/// steady, with an open session and no waiting answer, it is the play on the chain at the other end. Over any wire exactly
/// the bytes of the play's signals are carried, and the answers to them.
///
/// `CableFault` comes only if the count of the wire or that of the cable rose, or stands at its last value, and
/// `WriteFault` only if that of the sink did. It takes no memory.
pub fn play_linked<W: Wire, K: Sink, L: Ledger>(
    machine: &mut Machine,
    code: &Code,
    chosen: &[u32],
    base: &BasePads,
    cable: &mut LinkCable<W>,
    out: &mut Lines<K>,
    pins: bool,
    turns: u32,
    steps: &mut Steps<L>,
) -> Result<Ending, Trouble>
    requires { CanPlay ⟦<LinkCable<'static, W> as Cable>⟧ code.now chosen.now machine.old cable.old out.old }

    // Over a good wire to a link with this board, ending and text are those of the run on it, as those of a play over a
    // chain with this board are, if the count of the sink does not rise.
    ensures as_chain { (cs : List Card) → IsGoodOver W.Wire cs cable.old →
        (SinkHasRisen K.Sink out.old out.new → ⊥) → IsOk result × IfOk result (λ ending. HasRunOf (shown_of K.written)
        pins (whole_play code.now chosen.now turns (lengths_of base.now) (Told cs)) out.old ending out.new) }

    // The rest is that of the play.
    ensures play { IsWholePlay ⟦<LinkCable<'static, W> as Cable>⟧ K.Sink pins code.now chosen.now turns
        (lengths_of base.now) cable.old out.old steps.old result cable.new out.new steps.new machine.new }
{
    match play_told(machine, code, chosen, base, cable, out, pins, turns, steps) {
        Ok(ending) => Ok(ending),
        Err(trouble) => Err(trouble),
    }
}
