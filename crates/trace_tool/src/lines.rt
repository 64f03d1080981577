//! The lines that this tool alone writes.
ghost use Rattle.std.specs.Prelude.{◌≡◌, ◌++◌, map, IsSomeAnd};
ghost use Rattle.tool_io.specs.Lines.{IsWhole, HasPut};
ghost use Rattle.dev_card.specs.PaddedScan.{descriptions_of};
ghost use Rattle.chain_sim.specs.Places.{cards_at};
ghost use Rattle.chain_sim.specs.Reports.{report_in};
ghost use Rattle.trace_tool.specs.Texts.{good_line, differs_line, bad_line_text, too_long_line};

use chain_sim::put_report;
use dev_card::{Desc, Device};
use tool_io::{Failed, Lines, Sink, put_count, put_count_line};

/// Puts how many clocks a good trace has, and the report of a board.
///
/// `Failed` as of the sink.
pub(crate) fn put_good<D: Device, K: Sink>(
    lines: &mut Lines<K>,
    n: u32,
    rack: &[D],
    places: &[u32],
    descs: &[Desc],
) -> Result<(), Failed>
    requires whole { IsWhole lines.old }
    requires board { IsSomeAnd (cards_at (map D.fitted rack.now) places.now) (λ cs. descriptions_of cs ≡ descs.now) }
    ensures { HasPut K.Sink lines.old (good_line n ++ report_in (cards_at (map D.fitted rack.now) places.now))
        lines.new result }
{
    put_count_line(lines, b"trace good clocks ", n)?;
    put_report(lines, rack, places, descs)?;
    Ok(())
}

/// Puts the first clock, counted from 1, that a board answers otherwise.
///
/// `Failed` as of the sink.
pub(crate) fn put_differs<K: Sink>(lines: &mut Lines<K>, i: u32) -> Result<(), Failed>
    requires { IsWhole lines.old }
    ensures { HasPut K.Sink lines.old (differs_line i) lines.new result }
{
    put_count_line(lines, b"trace differs clock ", i)
}

/// Puts the first bad line, counted from 1.
///
/// `Failed` as of the sink.
pub fn put_bad_line<K: Sink>(lines: &mut Lines<K>, n: u32) -> Result<(), Failed>
    requires { IsWhole lines.old }
    ensures { HasPut K.Sink lines.old (bad_line_text n) lines.new result }
{
    put_count(lines, b"R trace ", n)?;
    lines.put(b" BadLine\n")?;
    Ok(())
}

/// Puts that a trace is too long.
///
/// `Failed` as of the sink.
pub fn put_too_long<K: Sink>(lines: &mut Lines<K>) -> Result<(), Failed>
    requires { IsWhole lines.old }
    ensures { HasPut K.Sink lines.old too_long_line lines.new result }
{
    lines.put(b"R trace TooLong\n")
}
