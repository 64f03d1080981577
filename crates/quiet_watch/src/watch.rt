//! The watch.
ghost use Rattle.std.specs.Prelude.{◌≡◌, ◌≢◌, ◌<◌, ◌≤◌, ◌+◌, ◌*◌, ◌-◌, ◌/◌, ◌^◌, ◌&&◌, ◌==◌, true, false, map, Some, None, IsTrue, IfOk, OnOk, OnErr};
ghost use Rattle.std.proofs.lemmas.Option.{none-some};
ghost use Rattle.tool_io.specs.Causes.{CountKept, CountRose};
ghost use Rattle.base.specs.Bits.{bit_value};
ghost use Rattle.tap_states.specs.declared.Tap.TheVariants.{Reset};
ghost use Rattle.dev_card.specs.Board.{board_tdo};
ghost use Rattle.dev_card.specs.Blocks.{block_inputs};
ghost use Rattle.scan_paths.specs.Cables.{whole, BlockAnswer};
ghost use Rattle.chain_sim.specs.Places.{cards_at, is_chain};
ghost use Rattle.padded_plays.specs.QuietClocks.{is_scan_state, loaded_at};
ghost use Rattle.quiet_watch.specs.Watches.{is_instruction_shift, is_shift_state, or_else, walk_seen, scan_seen, walked, marked, shifted_by, seen_by};
ghost use Rattle.quiet_watch.specs.HeardPlays.{watching};
ghost use Rattle.quiet_watch.specs.WatchedRacks.{cards_there};

use crate::counting::Counting;
use crate::lengths::lengths;
use chain_sim::{clock_all, first_tdo};
use dev_card::{Desc, Device};
use padded_plays::Unquiet;
use scan_paths::Cable;
use tap_states::Tap;
use tool_io::Failed;

// Whether the controllers shift the instruction registers.
fn is_instruction_shift(tap: Tap) -> bool
    ensures { result ≡ is_instruction_shift tap }
{
    match tap {
        Tap::IrShift => true,
        _ => false,
    }
}

// Whether the controllers shift.
fn is_shift_state(tap: Tap) -> bool
    ensures { result ≡ is_shift_state tap }
{
    match tap {
        Tap::IrShift | Tap::DrShift => true,
        _ => false,
    }
}

// Whether only a scan may lead into a state.
fn is_scan_state(tap: Tap) -> bool
    ensures { result ≡ is_scan_state tap }
{
    match tap {
        Tap::DrShift | Tap::IrCapture | Tap::IrShift => true,
        _ => false,
    }
}

// What a clock of a walk from this state shows.
fn walk_seen(tap: Tap, tms: bool) -> Option<Unquiet>
    ensures { result ≡ walk_seen tap tms }
{
    match tap {
        Tap::DrShift | Tap::IrShift => Some(Unquiet::ScanState),
        Tap::IrCapture => { if tms { Some(Unquiet::ScanState) } else { None } }
        _ => None,
    }
}

// What a scan of so many bits shows.
fn scan_seen(ir: bool, loaded: bool, shifted: u64, registers: u64) -> Option<Unquiet>
    ensures { result ≡ scan_seen ir loaded shifted registers }
{
    if shifted == registers {
        if ir || loaded {
            None
        } else {
            Some(Unquiet::NotLoaded)
        }
    } else if ir {
        Some(Unquiet::Instruction(shifted, registers))
    } else {
        Some(Unquiet::Data(shifted, registers))
    }
}

// The first of two that is there.
fn or_else(first: Option<Unquiet>, later: Option<Unquiet>) -> Option<Unquiet>
    ensures { result ≡ or_else first later }
{
    match first {
        Some(why) => Some(why),
        None => later,
    }
}

// Whether an instruction is still loaded after a clock that led to this state.
fn loaded_at(tap: Tap, loaded: bool) -> bool
    ensures { result ≡ loaded_at tap loaded }
{
    match tap {
        Tap::Reset => false,
        _ => loaded,
    }
}

// A number with one bit more at its lowest place.
fn with_bit(rest: u64, bit: bool, n: u32) -> u64
    requires few { n < 64 }
    requires small { rest < 2 ^ n }
    ensures value { result ≡ bit_value bit + 2 * rest }
    ensures small { result < 2 ^ (n + 1) }
{
    let double = rest * 2;
    if bit { double + 1 } else { double }
}

// Whether TMS is 1 at the first of n clocks.
fn is_last(last: bool, n: u32) -> bool
    ensures { result ≡ (last && (n == 1)) }
{
    last && n == 1
}

/// A watch over the devices at some places of a lent rack, the first place nearest TDO. It sees whether a play on these
/// devices alone is quiet.
///
/// The scans of the play have one bit of base padding before all else (`marks`), by which the watch tells a scan from a
/// walk through a shift state. It takes the bit off: the devices are clocked as by the play without base padding. It
/// tells no board. A call fails only if a number of bits does not fit; then the watch is broken and its count rises,
/// or stands at its last value. It takes no memory.
#[derive(Drop)]
pub struct Watch<'a, D> {
    rack: &'a mut Vec<D>,
    places: &'a [u32],
    descs: &'a [Desc],
    tap: Tap,
    loaded: bool,
    scan: Option<Counting>,
    seen: Option<Unquiet>,
    faults: u32,
    is_broken: bool,
}

impl<'a, D: Device> Watch<'a, D> {
    ghost use Rattle.quiet_watch.specs.WatchedDevices.{devices_of, watched_places, IsOver, watched_of, watch_breakage, watch_faults, IsWatchLast, untold, KeepsWatch, IsSameWatch, HasFollowed, HasStepped, HasStayed};

    /// A watch over the devices of these descriptions at these places, whose controllers are in the reset state, and
    /// which no instruction was loaded into. There is at least one place, the places differ, and each has a fitted
    /// device.
    pub fn over(rack: &'a mut Vec<D>, places: &'a [u32], descs: &'a [Desc]) -> Watch<'a, D>
        requires chain { IsTrue (is_chain (map D.fitted rack.old.items) places.now) }
        ensures same_rack { IsOver result rack.entry }
        ensures devices { devices_of result ≡ rack.old.items }
        ensures places { watched_places result ≡ places.now }
        ensures watched { watched_of D.fitted D.kind_of result ≡ watching descs.now
            (cards_there (cards_at (map D.fitted rack.old.items) places.now)) Reset false None }
        ensures whole { watch_breakage D.fitted D.kind_of result ≡ whole }
    {
        Watch {
            rack,
            places,
            descs,
            tap: Tap::Reset,
            loaded: false,
            scan: None,
            seen: None,
            faults: 0,
            is_broken: false,
        }
    }

    /// Why what was done so far is not quiet, if it is not: the first reason. It is asked between deeds.
    pub fn unquiet(&self) -> Option<Unquiet>
        ensures { result ≡ seen_by (watched_of D.fitted D.kind_of self.now) }
    {
        match self.seen {
            Some(why) => Some(why),
            None => {
                if is_scan_state(self.tap) {
                    Some(Unquiet::ScanState)
                } else {
                    None
                }
            }
        }
    }

    // A number that does not fit.
    fn fail(&mut self) -> Failed
        ensures stayed { HasStayed D.fitted D.kind_of self.old self.new }
        ensures broken { watch_breakage D.fitted D.kind_of self.new ≢ whole }
        ensures kept { CountKept (watch_faults self.old) (watch_faults self.new)
            (IsWatchLast self.old) (IsWatchLast self.new) }
        ensures rose { CountRose (watch_faults self.old) (watch_faults self.new) (IsWatchLast self.new) }
    {
        self.faults = self.faults.saturating_add(1);
        self.is_broken = true;
        Failed
    }

    // The bit by which a scan is told.
    fn mark(&mut self) -> Result<bool, Failed>
        requires whole { watch_breakage D.fitted D.kind_of self.old ≡ whole }
        ensures marked { OnOk result (watched_of D.fitted D.kind_of self.new
            ≡ marked (watched_of D.fitted D.kind_of self.old)) }
        ensures answer { IfOk result (λ tdo. tdo ≡ false) }
        ensures same { IsSameWatch D.fitted D.kind_of self.old self.new }
        ensures stayed { OnErr result (HasStayed D.fitted D.kind_of self.old self.new) }
        ensures kept { KeepsWatch D.fitted D.kind_of self.old self.new result }
    {
        match lengths(
            self.rack,
            self.places,
            self.descs,
            is_instruction_shift(self.tap),
        ) {
            Some(registers) => {
                self.scan = Some(Counting {
                    shifted: 0,
                    registers,
                });
                Ok(false)
            }
            None => Err(self.fail()),
        }
    }

    // A clock outside scans.
    fn walk(&mut self, tms: bool, tdi: bool) -> bool
        requires whole { watch_breakage D.fitted D.kind_of self.old ≡ whole }
        requires outside { self.old.scan ≡ None }
        ensures answer { result ≡ board_tdo (watched_of D.fitted D.kind_of self.old).cards tdi }
        ensures walked { watched_of D.fitted D.kind_of self.new
            ≡ walked (watched_of D.fitted D.kind_of self.old) tms tdi }
        ensures same { IsSameWatch D.fitted D.kind_of self.old self.new }
        ensures whole { watch_breakage D.fitted D.kind_of self.new ≡ whole }
        ensures faults { watch_faults self.new ≡ watch_faults self.old }
    {
        let tdo = first_tdo(self.rack, self.places, tdi);
        clock_all(self.rack, self.places, tms, tdi);
        self.seen = or_else(self.seen, walk_seen(self.tap, tms));
        self.tap = self.tap.next(tms);
        self.loaded = loaded_at(self.tap, self.loaded);
        tdo
    }

    // A shift clock of a scan, of which so many bits have gone in with this one.
    fn shift(&mut self, count: Counting, tms: bool, tdi: bool) -> bool
        requires whole { watch_breakage D.fitted D.kind_of self.old ≡ whole }
        ensures answer { result ≡ board_tdo (watched_of D.fitted D.kind_of self.old).cards tdi }
        ensures shifted { watched_of D.fitted D.kind_of self.new
            ≡ shifted_by (watched_of D.fitted D.kind_of self.old) count tms tdi }
        ensures same { IsSameWatch D.fitted D.kind_of self.old self.new }
        ensures whole { watch_breakage D.fitted D.kind_of self.new ≡ whole }
        ensures faults { watch_faults self.new ≡ watch_faults self.old }
    {
        let tdo = first_tdo(self.rack, self.places, tdi);
        clock_all(self.rack, self.places, tms, tdi);
        if tms {
            let ir = is_instruction_shift(self.tap);
            let shows = scan_seen(ir, self.loaded, count.shifted, count.registers);
            self.seen = or_else(self.seen, shows);
            self.loaded = ir || self.loaded;
            self.scan = None;
        } else {
            self.scan = Some(count);
        }
        self.tap = self.tap.next(tms);
        tdo
    }

    // Whether a clock is the bit by which a scan is told, outside scans.
    fn is_mark(&self, tdi: bool) -> bool
        ensures { result ≡ (tdi && is_shift_state (watched_of D.fitted D.kind_of self.now).tap) }
    {
        tdi && is_shift_state(self.tap)
    }

    // A shift clock of a scan of which so many bits have gone in before it.
    fn shift_on(&mut self, scan: Counting, tms: bool, tdi: bool) -> Result<bool, Failed>
        requires whole { watch_breakage D.fitted D.kind_of self.old ≡ whole }
        requires during { (watched_of D.fitted D.kind_of self.old).scan ≡ Some scan }
        ensures stepped { IfOk result (λ tdo. HasStepped D.fitted D.kind_of self.old tms tdi tdo self.new) }
        ensures stayed { OnErr result (HasStayed D.fitted D.kind_of self.old self.new) }
        ensures kept { KeepsWatch D.fitted D.kind_of self.old self.new result }
    {
        match scan.shifted.checked_add(1) {
            Some(shifted) => {
                let count = Counting {
                    shifted,
                    registers: scan.registers,
                };
                Ok(self.shift(count, tms, tdi))
            }
            None => Err(self.fail()),
        }
    }

    // One clock of the watch.
    fn step(&mut self, tms: bool, tdi: bool) -> Result<bool, Failed>
        requires whole { watch_breakage D.fitted D.kind_of self.old ≡ whole }
        ensures stepped { IfOk result (λ tdo. HasStepped D.fitted D.kind_of self.old tms tdi tdo self.new) }
        ensures stayed { OnErr result (HasStayed D.fitted D.kind_of self.old self.new) }
        ensures kept { KeepsWatch D.fitted D.kind_of self.old self.new result }
    {
        match self.scan {
            None => {
                if self.is_mark(tdi) {
                    self.mark()
                } else {
                    Ok(self.walk(tms, tdi))
                }
            }
            Some(scan) => self.shift_on(scan, tms, tdi),
        }
    }

    // n clocks of the watch, with the lowest bits of a number, and TMS 1 at the last of them if it is so marked.
    fn block(&mut self, tdi: u64, n: u32, last: bool) -> Result<u64, Failed>
        requires whole { watch_breakage D.fitted D.kind_of self.old ≡ whole }
        requires most { n ≤ 64 }
        ensures shifted { BlockAnswer untold (HasFollowed D.fitted D.kind_of) self.old self.new
            (block_inputs tdi n last) result }
        ensures small { IfOk result (λ tdo. tdo < 2 ^ n) }
        ensures kept { KeepsWatch D.fitted D.kind_of self.old self.new result }
    {
        if n == 0 {
            return Ok(0);
        }
        let bit = self.step(is_last(last, n), tdi % 2 == 1)?;
        let rest = self.block(tdi / 2, n - 1, last)?;
        Ok(with_bit(rest, bit, n - 1))
    }
}

impl<D: Device> Cable for Watch<'_, D> {
    ghost use Rattle.quiet_watch.specs.WatchedDevices.{watch_breakage, watch_faults, IsWatchLast, untold, no_faults, IsNever, HasFollowed};
    ghost use Rattle.quiet_watch.specs.WatchLaws.{followed_none, followed_both};

    ghost board = { untold };

    ghost made = { HasFollowed D.fitted D.kind_of };

    ghost line_faults = { watch_faults };

    ghost is_line_last = { IsWatchLast };

    ghost pin_faults = { no_faults };

    ghost is_pin_last = { IsNever };

    ghost breakage = { watch_breakage D.fitted D.kind_of };

    fn clock(&mut self, tms: bool, tdi: bool) -> Result<bool, Failed> {
        let tdo = self.step(tms, tdi)?;
        Ok(tdo)
    }

    fn shift_block(&mut self, tdi: u64, n: u32, last: bool) -> Result<u64, Failed> {
        let tdo = self.block(tdi, n, last)?;
        Ok(tdo)
    }

    fn usec(&mut self, _n: u32) -> Result<(), Failed> {
        Ok(())
    }

    fn hertz(&mut self, _n: u32) -> Result<(), Failed> {
        Ok(())
    }

    ghost sound = { λ c cs told. absurd (none-some cs told) };

    ghost none_made = { λ c. followed_none D.fitted D.kind_of c };

    ghost both_made = { λ a b c front back p q. followed_both D.fitted D.kind_of a b c front back p q };
}
