//! The shift clocks of a scan, part by part.
ghost use Rattle.std.specs.Prelude.{◌≡◌, ◌≤◌, ◌<◌, ◌+◌, ◌&&◌, ◌==◌, true, length, take, drop, replicate};
ghost use Rattle.dev_card.specs.Padding.{padded};
ghost use Rattle.dev_card.specs.Clocks.{part_inputs};
ghost use Rattle.scan_paths.specs.Cables.{whole};
ghost use Rattle.scan_paths.specs.CableCalls.{KeepsCable, MakesClocks, SeesClocks};
ghost use Rattle.scan_paths.specs.Scans.{AreInside, planned_pre, paddings_of};

use crate::cable::Cable;
use crate::pads::Pads;
use crate::scans::ScanPlan;
use bit_list::Bits;
use tool_io::Failed;

/// The most clocks of one call of the cable.
pub const BLOCK: u32 = 64;

/// Shifts all bits of a scan, with TMS 1 at the last one alone, and captures TDO at the places of its data.
pub fn shift_padded<C: Cable>(
    cable: &mut C,
    plan: ScanPlan,
    bits: &Bits,
    captured: &mut Bits,
    pads: &Pads,
) -> Result<(), Failed>
    requires whole { C.breakage cable.old ≡ whole }
    requires some { 1 ≤ plan.len }
    requires inside { plan.len ≤ length bits.now }
    requires room { plan.len ≤ length captured.old }
    requires pads { AreInside pads.now }
    ensures made { SeesClocks C.Cable cable.old
        (part_inputs true (padded (paddings_of plan pads.now) (take plan.len bits.now)))
        (planned_pre plan + pads.now.pre) (take plan.len captured.new) cable.new result }
    ensures rest { drop plan.len captured.new ≡ drop plan.len captured.old }
    ensures length { length captured.new ≡ length captured.old }
    ensures kept { KeepsCable C.Cable cable.old cable.new result }
{
    let before = plan.base.pre(plan.ir);
    let after = plan.base.post(plan.ir);
    shift_ones(cable, before, false)?;
    shift_padding(cable, &pads.pre_bits, pads.pre, false)?;
    shift_data(cable, bits, plan.len, captured, ends_with_data(pads, after))?;
    shift_padding(cable, &pads.post_bits, pads.post, after == 0)?;
    shift_ones(cable, after, true)?;
    Ok(())
}

// Shifts n ones, true if the scan ends with them.
fn shift_ones<C: Cable>(cable: &mut C, n: u32, last: bool) -> Result<(), Failed>
    requires { C.breakage cable.old ≡ whole }
    ensures made { MakesClocks C.Cable cable.old (part_inputs last (replicate n true)) cable.new result }
    ensures kept { KeepsCable C.Cable cable.old cable.new result }
{
    let mut at = 0;
    while at < n {
        let len = (n - at).min(BLOCK);
        cable.shift_block(u64::MAX, len, ends_at(last, at + len, n))?;
        at += len;
    }
    Ok(())
}

// Shifts the lowest n bits of a padding, true if the scan ends with them.
fn shift_padding<C: Cable>(cable: &mut C, padding: &Bits, n: u32, last: bool) -> Result<(), Failed>
    requires whole { C.breakage cable.old ≡ whole }
    requires inside { n ≤ length padding.now }
    ensures made { MakesClocks C.Cable cable.old (part_inputs last (take n padding.now)) cable.new result }
    ensures kept { KeepsCable C.Cable cable.old cable.new result }
{
    let mut at = 0;
    while at < n {
        let len = (n - at).min(BLOCK);
        cable.shift_block(padding.word(at, len), len, ends_at(last, at + len, n))?;
        at += len;
    }
    Ok(())
}

// Shifts the lowest n bits of the data, true if the scan ends with them, and captures as many.
fn shift_data<C: Cable>(
    cable: &mut C,
    bits: &Bits,
    n: u32,
    captured: &mut Bits,
    last: bool,
) -> Result<(), Failed>
    requires whole { C.breakage cable.old ≡ whole }
    requires inside { n ≤ length bits.now }
    requires room { n ≤ length captured.old }
    ensures made { SeesClocks C.Cable cable.old (part_inputs last (take n bits.now)) 0 (take n captured.new) cable.new
        result }
    ensures rest { drop n captured.new ≡ drop n captured.old }
    ensures length { length captured.new ≡ length captured.old }
    ensures kept { KeepsCable C.Cable cable.old cable.new result }
{
    let mut at = 0;
    while at < n {
        let len = (n - at).min(BLOCK);
        let tdo = cable.shift_block(bits.word(at, len), len, ends_at(last, at + len, n))?;
        captured.set_word(at, len, tdo);
        at += len;
    }
    Ok(())
}

// Whether a scan ends with its data, since no padding follows.
fn ends_with_data(pads: &Pads, base_post: u32) -> bool
    ensures { result ≡ (pads.now.post == 0 && base_post == 0) }
{
    pads.post == 0 && base_post == 0
}

// Whether a block that comes to this place of n is the last one of its scan, if the scan ends with these n bits.
fn ends_at(last: bool, place: u32, n: u32) -> bool
    ensures { result ≡ (last && (place == n)) }
{
    last && place == n
}
