//! The lines of the runs of a turn.
ghost use Rattle.std.specs.Prelude.{◌≡◌, ◌≤◌, ◌<◌, ◌+◌, ◌^◌, List, Bool, length};
ghost use Rattle.tool_io.specs.Lines.{IsWhole, HasPut};
ghost use Rattle.scan_paths.specs.Scans.{lengths_of};
ghost use Rattle.scan_accounts.specs.Accounts.{said_run};
ghost use Rattle.account_lines.specs.RunLines.{turn_run_line};
ghost use Rattle.run_cable.specs.KeptRuns.{run_at};
ghost use Rattle.run_cable.specs.EndedRuns.{AreInside, runs_in};
ghost use Rattle.account_plays.specs.RunTexts.{IsTrimmed, IsSaidAt, runs_text};

use account_lines::{TurnPlace, put_run};
use run_cable::{EndedRuns, RunPlace};
use scan_paths::BasePads;
use tool_io::{Failed, Lines, Sink};

// A place without so many bits at its beginning and at its end.
fn trimmed(at: RunPlace, before: u32, after: u32) -> RunPlace
    requires { at.low + at.count < 2 ^ 32 }
    ensures { IsTrimmed at before after result }
{
    let front = before.min(at.count);
    RunPlace {
        ir: at.ir,
        low: at.low + front,
        count: (at.count - front).saturating_sub(after),
    }
}

// Where the bits of a run stand that are said: without the base padding if the turn scans.
fn said_place(base: &BasePads, scans: bool, at: RunPlace) -> RunPlace
    requires { at.low + at.count < 2 ^ 32 }
    ensures { IsSaidAt (lengths_of base.now) scans at result }
{
    if !scans {
        return at;
    }
    if at.ir {
        trimmed(at, base.pre_ir, base.post_ir)
    } else {
        trimmed(at, base.pre_dr, base.post_dr)
    }
}

// Puts the line of a run of a turn.
fn put_said<K: Sink>(
    out: &mut Lines<K>,
    turn: TurnPlace,
    base: &BasePads,
    runs: &EndedRuns<'_>,
    at: RunPlace,
) -> Result<(), Failed>
    requires whole { IsWhole out.old }
    requires inside { at.low + at.count ≤ length runs.now.bits_in.now }
    requires as_many { length runs.now.bits_out.now ≡ length runs.now.bits_in.now }
    ensures { HasPut K.Sink out.old
        (turn_run_line turn (said_run (lengths_of base.now) turn.scans
        (run_at runs.now.bits_in.now runs.now.bits_out.now at))) out.new result }
{
    let _most = runs.bits_in.len();
    let said = said_place(base, turn.scans, at);
    put_run(out, turn, said, runs.bits_in, runs.bits_out)
}

/// Puts the lines of the runs of a turn, in order: of a turn that scans without base padding.
///
/// `Failed` as of the sink.
pub(crate) fn put_runs<K: Sink>(
    out: &mut Lines<K>,
    turn: TurnPlace,
    base: &BasePads,
    runs: &EndedRuns<'_>,
) -> Result<(), Failed>
    requires whole { IsWhole out.old }
    requires inside { AreInside runs.now }
    ensures { HasPut K.Sink out.old (runs_text turn (lengths_of base.now) (runs_in runs.now)) out.new result }
{
    for at in runs.places {
        put_said(out, turn, base, runs, *at)?;
    }
    Ok(())
}
