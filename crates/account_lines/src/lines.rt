//! The lines of runs of clocks, and of sums.
ghost use Rattle.std.specs.Prelude.{◌≡◌, ◌<◌, ◌≤◌, ◌+◌, ◌^◌, ◌∷◌, ◌++◌, [], Bool, List, length, codes, pos};
ghost use Rattle.bit_list.specs.Hexadecimal.{all_hex_digits};
ghost use Rattle.tool_io.specs.Lines.{IsWhole, HasPut};
ghost use Rattle.tool_io.specs.Texts.{labelled, number_line};
ghost use Rattle.bit_list.specs.Ranges.{taken};
ghost use Rattle.scan_accounts.specs.AccountTexts.{passage_name, sums_line};
ghost use Rattle.run_cable.specs.KeptRuns.{run_at};
ghost use Rattle.account_lines.specs.RunLines.{turn_run_line, account_in};

use bit_list::Bits;
use machine_memory::parts::Span;
use run_cable::RunPlace;
use tool_io::{Failed, Lines, Sink, put_count, put_size};
use written_cable::put_digits;

/// The piece of a turn, counted from 1, the line of the text in which it begins, and whether its statement scans.
#[derive(Clone, Copy)]
pub struct TurnPlace {
    pub piece: u32,
    pub line: u32,
    pub scans: bool,
}

/// The sums of a play: turns, clocks, microseconds, and scans of both kinds of registers.
#[derive(Clone, Copy)]
pub struct Sums {
    pub turns: u32,
    pub clocks: usize,
    pub usec: usize,
    pub ir_scans: usize,
    pub dr_scans: usize,
}

// What a run is called.
fn name(scan: bool, ir: bool) -> &'static [u8]
    ensures { result.now ≡ passage_name scan ir }
{
    match (scan, ir) {
        (true, true) => b"IRSCAN",
        (true, false) => b"DRSCAN",
        (false, true) => b"WALK IR",
        (false, false) => b"WALK DR",
    }
}

// Puts the digits of the bits at a place.
fn put_bits<K: Sink>(out: &mut Lines<K>, bits: &Bits, at: RunPlace) -> Result<(), Failed>
    requires whole { IsWhole out.old }
    requires inside { at.low + at.count ≤ length bits.now }
    requires few { at.low + at.count + 3 < 2 ^ 32 }
    ensures { HasPut K.Sink out.old (all_hex_digits (taken at.low at.count bits.now)) out.new result }
{
    let span = Span {
        low: at.low,
        count: at.count,
        falls: false,
    };
    put_digits(out, bits, span)
}

// Puts the front of the line of a run, up to how many bits it has.
fn put_front<K: Sink>(out: &mut Lines<K>, turn: TurnPlace, at: RunPlace) -> Result<(), Failed>
    requires { IsWhole out.old }
    ensures { HasPut K.Sink out.old (labelled (codes "S ") (pos turn.piece) ++ labelled (codes " line ") (pos turn.line)
        ++ codes " " ++ passage_name turn.scans at.ir ++ labelled (codes " ") (pos at.count)) out.new result }
{
    put_count(out, b"S ", turn.piece)?;
    put_count(out, b" line ", turn.line)?;
    out.put(b" ")?;
    out.put(name(turn.scans, at.ir))?;
    put_count(out, b" ", at.count)?;
    Ok(())
}

/// Puts the line of a run of the turn of a piece, whose bits stand at a place of two lists, TDI and TDO.
///
/// `Failed` as of the sink.
pub fn put_run<K: Sink>(
    out: &mut Lines<K>,
    turn: TurnPlace,
    at: RunPlace,
    bits_in: &Bits,
    bits_out: &Bits,
) -> Result<(), Failed>
    requires whole { IsWhole out.old }
    requires inside { at.low + at.count ≤ length bits_in.now }
    requires inside_out { at.low + at.count ≤ length bits_out.now }
    requires few { at.low + at.count + 3 < 2 ^ 32 }
    ensures { HasPut K.Sink out.old (turn_run_line turn (run_at bits_in.now bits_out.now at)) out.new result }
{
    put_front(out, turn, at)?;
    out.put(b" in ")?;
    put_bits(out, bits_in, at)?;
    out.put(b" out ")?;
    put_bits(out, bits_out, at)?;
    out.put(b"\n")?;
    Ok(())
}

// Puts a label, a size and a line feed.
fn put_size_line<K: Sink>(out: &mut Lines<K>, label: &[u8], n: usize) -> Result<(), Failed>
    requires whole { IsWhole out.old }
    requires small { n < 2 ^ 63 }
    ensures { HasPut K.Sink out.old (number_line label.now (pos n)) out.new result }
{
    put_size(out, label, n)?;
    out.put(b"\n")?;
    Ok(())
}

/// Puts the line of the sums.
///
/// `Failed` as of the sink.
pub fn put_sums<K: Sink>(out: &mut Lines<K>, sums: Sums) -> Result<(), Failed>
    requires whole { IsWhole out.old }
    requires clocks { sums.clocks < 2 ^ 63 }
    requires usec { sums.usec < 2 ^ 63 }
    requires ir_scans { sums.ir_scans < 2 ^ 63 }
    requires dr_scans { sums.dr_scans < 2 ^ 63 }
    ensures { HasPut K.Sink out.old (sums_line (account_in sums)) out.new result }
{
    put_count(out, b"S turns ", sums.turns)?;
    put_size(out, b" clocks ", sums.clocks)?;
    put_size(out, b" usec ", sums.usec)?;
    put_size(out, b" irscans ", sums.ir_scans)?;
    put_size_line(out, b" drscans ", sums.dr_scans)?;
    Ok(())
}
