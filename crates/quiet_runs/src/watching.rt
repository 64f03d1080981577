//! The play of a code over a watch.
ghost use Rattle.std.specs.Prelude.{◌≡◌, ◌<◌, IfOk};
ghost use Rattle.scan_paths.specs.Scans.{lengths_of};
ghost use Rattle.stapl_player.specs.Plays.{whole_play};
ghost use Rattle.quiet_watch.specs.Watches.{marks};
ghost use Rattle.quiet_watch.specs.WatchedDevices.{IsSameWatch};
ghost use Rattle.quiet_runs.specs.WatchedPlays.{CanWatch, HasWatchedPlay};

use crate::marks::marks;
use crate::silence::Silence;
use base::Steps;
use dev_card::Device;
use quiet_watch::Watch;
use scan_paths::BasePads;
use stapl_machine::Machine;
use stapl_meaning::Ending;
use stapl_player::play;
use std::marker::Brand;
use std::sync::ledger::{Blank, Ledger};
use tool_io::{Lines, Sink};
use valid_codes::Code;
use written_cable::Trouble;

// The play over any sink.
fn play_to<D: Device, K: Sink, L: Ledger>(
    machine: &mut Machine,
    code: &Code,
    chosen: &[u32],
    base: &BasePads,
    watch: &mut Watch<D>,
    sink: &mut K,
    turns: u32,
    blank: Blank,
) -> Result<Ending, Trouble>
    requires name { blank.name ≡ L.name }
    requires parts { blank.parts ≡ L.parts }
    requires some { 0 < L.parts }
    requires ready { CanWatch D.fitted D.kind_of code.now chosen.now machine.old watch.old }
    ensures same { IsSameWatch D.fitted D.kind_of watch.old watch.new }
    ensures played { IfOk result (λ ending. HasWatchedPlay D.fitted D.kind_of
        (whole_play code.now chosen.now turns (lengths_of base.now)) watch.old ending watch.new) }
{
    let mut steps = Steps::<L>::none(blank);
    let mut lines = Lines::new(sink);
    match play(
        machine, code, chosen, base, watch, &mut lines, false, turns, &mut steps,
    ) {
        Ok(ending) => Ok(ending),
        Err(trouble) => Err(trouble),
    }
}

// The play over a sink that keeps nothing.
fn play_silently<D: Device, L: Ledger>(
    machine: &mut Machine,
    code: &Code,
    chosen: &[u32],
    watch: &mut Watch<D>,
    turns: u32,
    blank: Blank,
) -> Result<Ending, Trouble>
    requires name { blank.name ≡ L.name }
    requires parts { blank.parts ≡ L.parts }
    requires some { 0 < L.parts }
    requires ready { CanWatch D.fitted D.kind_of code.now chosen.now machine.old watch.old }
    ensures same { IsSameWatch D.fitted D.kind_of watch.old watch.new }
    ensures played { IfOk result (λ ending. HasWatchedPlay D.fitted D.kind_of
        (whole_play code.now chosen.now turns marks) watch.old ending watch.new) }
{
    let mut silence = Silence;
    let base = marks();
    play_to::<D, Silence, L>(
        machine,
        code,
        chosen,
        &base,
        watch,
        &mut silence,
        turns,
        blank,
    )
}

/// Plays the chosen procedures of a code over a watch, for at most so many turns, and answers how the play ended. Its
/// text is not kept, and its steps are counted in a ledger that nobody asks.
pub(crate) fn watch_play<D: Device>(
    machine: &mut Machine,
    code: &Code,
    chosen: &[u32],
    watch: &mut Watch<D>,
    turns: u32,
) -> Result<Ending, Trouble>
    requires { CanWatch D.fitted D.kind_of code.now chosen.now machine.old watch.old }
    ensures same { IsSameWatch D.fitted D.kind_of watch.old watch.new }
    ensures played { IfOk result (λ ending. HasWatchedPlay D.fitted D.kind_of
        (whole_play code.now chosen.now turns marks) watch.old ending watch.new) }
{
    let blank = Blank::new(1);
    play_silently::<D, Brand>(machine, code, chosen, watch, turns, blank)
}
