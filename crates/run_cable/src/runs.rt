//! The runs of clocks at which a register shifts.
ghost use Rattle.std.specs.Prelude.{◌≡◌, ◌≤◌, ◌<◌, ◌+◌, ◌-◌, ◌^◌, ◌∷◌, ◌++◌, ◌↔◌, [], true, false, length, map, count_by, Some, None, IfOk, IsTrue};
ghost use Rattle.std.specs.Option.{option_map};
ghost use Rattle.std.specs.Bool.{beq};
ghost use Rattle.base.specs.Bits.{low_bits};
ghost use Rattle.bit_list.specs.declared.TheConstants.{MOST_BITS};
ghost use Rattle.tap_states.specs.Tap.{next_of};
ghost use Rattle.dev_card.specs.Clocks.{clocks_with, still_inputs};
ghost use Rattle.dev_card.specs.Blocks.{block_inputs};
ghost use Rattle.scan_paths.specs.Cables.{Pulses, Waits, pulsed};
ghost use Rattle.scan_accounts.specs.ShiftRuns.{shifting};
ghost use Rattle.scan_accounts.specs.AccountTexts.{counted};
ghost use Rattle.run_cable.specs.HeardRuns.{grown_by, closed, shifted_on, stilled, scans_counted, heard_signal};
ghost use Rattle.run_cable.specs.KeptRuns.{Becomes, StaysIfRoom, Hears, HearsIfRoom, begun};
ghost use Rattle.run_cable.specs.EndedRuns.{runs_in, AreInside};

use crate::run_place::RunPlace;
use bit_list::Bits;
use std::alloc::{AllocError, Global};
use std::marker::Model;
use tap_states::Tap;

// The largest sum that is kept.
const MOST: u64 = 9_223_372_036_854_775_807;

/// Runs that are over: where their bits stand in the lists of TDI and TDO bits.
#[derive(Clone, Copy)]
pub struct EndedRuns<'a> {
    pub places: &'a [RunPlace],
    pub bits_in: &'a Bits,
    pub bits_out: &'a Bits,
}

/// The runs of the clocks that were made since a state of the controllers, and sums, in memory that is taken at once.
/// If there was no room for a run, what is kept is lost, and this is told. A sum ends at the largest that is written.
#[derive(Drop)]
pub struct Runs {
    tap: Tap,
    ended: Vec<RunPlace>,
    going: Option<RunPlace>,
    bits_in: Bits,
    bits_out: Bits,
    free: u32,
    clocks: u64,
    usec: u64,
    ir_scans: u64,
    dr_scans: u64,
    lost: bool,
}

impl Model for Runs {
    ghost use Rattle.std.specs.Prelude.{length, map, vec_capacity};
    ghost use Rattle.std.specs.Option.{option_map};
    ghost use Rattle.run_cable.specs.KeptRuns.{Kept, run_at, IsLaid};

    ghost Value = { Kept };

    ghost view = { λ r. record {
      heard = record {
        tap = r.tap;
        ended = map (run_at r.bits_in r.bits_out) r.ended.items;
        going = option_map (run_at r.bits_in r.bits_out) r.going;
        clocks = r.clocks;
        usec = r.usec;
        ir_scans = r.ir_scans;
        dr_scans = r.dr_scans;
      };
      lost = r.lost;
      room = record { bits = length r.bits_in; runs = vec_capacity r.ended };
    } };

    ghost invariant = { λ r. IsLaid r.free r.ended.items r.going r.bits_in r.bits_out (record {
      tap = r.tap;
      ended = map (run_at r.bits_in r.bits_out) r.ended.items;
      going = option_map (run_at r.bits_in r.bits_out) r.going;
      clocks = r.clocks;
      usec = r.usec;
      ir_scans = r.ir_scans;
      dr_scans = r.dr_scans;
    }) };
}

// The registers that shift at a clock before which the controllers stand in this state: true for the instruction
// registers.
fn shifting(tap: Tap) -> Option<bool>
    ensures { result ≡ shifting tap }
{
    match tap {
        Tap::IrShift => Some(true),
        Tap::DrShift => Some(false),
        _ => None,
    }
}

// How many of these runs are of these registers.
fn count_of(places: &[RunPlace], ir: bool) -> usize
    ensures { result ≡ count_by (λ (at : RunPlace). beq at.ir ir) places.now }
{
    places.iter().filter(|at| at.ir == ir).count()
}

// Whether a clock with TMS 0 leaves the controllers in this state.
fn stays(tap: Tap) -> bool
    ensures { IsTrue result ↔ (next_of tap false ≡ tap) }
{
    match tap {
        Tap::Idle | Tap::DrShift | Tap::DrPause | Tap::IrShift | Tap::IrPause => true,
        _ => false,
    }
}

// A sum with more in it, which ends at the largest that is kept.
fn added(sum: u64, more: u64) -> u64
    requires { sum < 2 ^ 63 }
    ensures value { result ≡ counted (sum + more) }
    ensures few { result < 2 ^ 63 }
{
    if more > MOST - sum { MOST } else { sum + more }
}

impl Runs {
    /// No run and no clock, from the reset state on, and room for so many bits and for so many runs.
    pub fn new(alloc: Global, bits: u32, runs: usize) -> Result<Runs, AllocError>
        requires { bits ≤ MOST_BITS }
        ensures none_lost { IfOk result (λ r. r.lost ≡ false) }
        ensures bits { IfOk result (λ r. r.room.bits ≡ bits) }
        ensures runs { IfOk result (λ r. runs ≤ r.room.runs) }
        ensures clocks { IfOk result (λ r. r.heard.clocks ≡ 0) }
        ensures usec { IfOk result (λ r. r.heard.usec ≡ 0) }
        ensures ir_scans { IfOk result (λ r. r.heard.ir_scans ≡ 0) }
        ensures dr_scans { IfOk result (λ r. r.heard.dr_scans ≡ 0) }
    {
        let ended = Vec::with_capacity(alloc, runs)?;
        let Ok(bits_in) = Bits::zeros(alloc, bits) else {
            drop(ended);
            return Err(AllocError);
        };
        let Ok(bits_out) = Bits::zeros(alloc, bits) else {
            drop(ended);
            drop(bits_in);
            return Err(AllocError);
        };
        Ok(Runs {
            tap: Tap::Reset,
            ended,
            going: None,
            bits_in,
            bits_out,
            free: 0,
            clocks: 0,
            usec: 0,
            ir_scans: 0,
            dr_scans: 0,
            lost: false,
        })
    }

    /// No run any more, and the controllers are in this state. The sums stay.
    pub fn begin(&mut self, tap: Tap)
        ensures { self.new ≡ record self.old { heard = begun tap self.old.heard } }
    {
        self.tap = tap;
        self.ended.clear();
        self.going = None;
        self.free = 0;
    }

    /// What is kept is lost.
    pub fn lose(&mut self)
        ensures { self.new ≡ record self.old { lost = true } }
    {
        self.lost = true;
    }

    /// The clocks that were made.
    pub fn clocks(&self) -> u64
        ensures value { result ≡ self.now.heard.clocks }
        ensures few { result < 2 ^ 63 }
    {
        self.clocks
    }

    /// The microseconds that were waited.
    pub fn usec(&self) -> u64
        ensures value { result ≡ self.now.heard.usec }
        ensures few { result < 2 ^ 63 }
    {
        self.usec
    }

    /// The scans of the instruction registers that were counted.
    pub fn ir_scans(&self) -> u64
        ensures value { result ≡ self.now.heard.ir_scans }
        ensures few { result < 2 ^ 63 }
    {
        self.ir_scans
    }

    /// The scans of the data registers that were counted.
    pub fn dr_scans(&self) -> u64
        ensures value { result ≡ self.now.heard.dr_scans }
        ensures few { result < 2 ^ 63 }
    {
        self.dr_scans
    }

    /// Counts the runs that are over as scans, if they are such.
    pub fn count_scans(&mut self, scans: bool)
        ensures { self.new ≡ record self.old { heard = scans_counted scans self.old.heard } }
    {
        if scans {
            self.ir_scans = added(self.ir_scans, count_of(&self.ended, true) as u64);
            self.dr_scans = added(self.dr_scans, count_of(&self.ended, false) as u64);
        }
    }

    // Adds the lowest n bits of two numbers to the run that goes on, or begins one with them.
    fn grow(&mut self, ir: bool, tdi: u64, tdo: u64, n: u32)
        requires { n ≤ 64 }
        ensures grown { Becomes self.old (grown_by ir (low_bits n tdi) (low_bits n tdo) self.old.heard) self.new }
        ensures fits { StaysIfRoom self.old (grown_by ir (low_bits n tdi) (low_bits n tdo) self.old.heard) self.new }
    {
        if n > self.bits_in.len() - self.free {
            self.lost = true;
            return;
        }
        self.bits_in.set_word(self.free, n, tdi);
        self.bits_out.set_word(self.free, n, tdo);
        let at = match self.going {
            Some(at) => RunPlace {
                ir,
                low: at.low,
                count: at.count + n,
            },
            None => RunPlace {
                ir,
                low: self.free,
                count: n,
            },
        };
        self.going = Some(at);
        self.free += n;
    }

    /// The run that goes on, if one does, is over.
    pub fn close(&mut self)
        ensures closed { Becomes self.old (closed self.old.heard) self.new }
        ensures fits { StaysIfRoom self.old (closed self.old.heard) self.new }
    {
        let Some(at) = self.going else {
            return;
        };
        if self.ended.len() == self.ended.capacity() {
            self.lost = true;
            return;
        }
        self.ended.push_reserved(at);
        self.going = None;
    }

    // The controllers are in this state after n clocks.
    fn pass(&mut self, next: Tap, n: u32)
        ensures { self.new ≡ record self.old {
          heard = record self.old.heard {
            tap = next;
            clocks = counted (self.old.heard.clocks + n);
          };
        } }
    {
        self.tap = next;
        self.clocks = added(self.clocks, u64::from(n));
    }

    // The registers that shift at a clock, with the bits of it.
    fn shift(&mut self, next: Tap, tdi: bool, tdo: bool)
        ensures shifted { Becomes self.old
            (shifted_on (shifting self.old.heard.tap) (shifting next) tdi tdo self.old.heard) self.new }
        ensures fits { StaysIfRoom self.old
            (shifted_on (shifting self.old.heard.tap) (shifting next) tdi tdo self.old.heard) self.new }
    {
        if let Some(ir) = shifting(self.tap) {
            self.grow(ir, u64::from(tdi), u64::from(tdo), 1);
            if shifting(next).is_none() {
                self.close();
            }
        }
    }

    /// Hears a clock.
    pub fn hear(&mut self, tms: bool, tdi: bool, tdo: bool)
        ensures heard { Hears self.old (Pulses (record { tms = tms; tdi = tdi; tdo = tdo }) ∷ []) self.new }
        ensures fits { HearsIfRoom self.old (Pulses (record { tms = tms; tdi = tdi; tdo = tdo }) ∷ []) self.new }
    {
        let next = self.tap.next(tms);
        self.shift(next, tdi, tdo);
        self.pass(next, 1);
    }

    // Adds the lowest n bits of two numbers if a register shifts.
    fn grow_shifting(&mut self, tdi: u64, tdo: u64, n: u32)
        requires some { 1 ≤ n }
        requires most { n ≤ 64 }
        ensures grown { Becomes self.old
            (stilled (shifting self.old.heard.tap) (low_bits n tdi) (low_bits n tdo) self.old.heard) self.new }
        ensures fits { StaysIfRoom self.old
            (stilled (shifting self.old.heard.tap) (low_bits n tdi) (low_bits n tdo) self.old.heard) self.new }
    {
        if let Some(ir) = shifting(self.tap) {
            self.grow(ir, tdi, tdo, n);
        }
    }

    // Hears n clocks with TMS 0, one after another: with the lowest bits of two numbers as TDI and TDO, the lowest first.
    fn hear_each(&mut self, tdi: u64, tdo: u64, n: u32)
        requires { n ≤ 64 }
        ensures heard { Hears self.old (pulsed (clocks_with (still_inputs (low_bits n tdi)) (low_bits n tdo))) self.new }
        ensures fits { HearsIfRoom self.old (pulsed (clocks_with (still_inputs (low_bits n tdi)) (low_bits n tdo))) self.new }
    {
        for i in 0..n {
            self.hear(false, (tdi >> i) % 2 == 1, (tdo >> i) % 2 == 1);
        }
    }

    // The same in a state in which TMS 0 keeps the controllers.
    fn hear_at_once(&mut self, tdi: u64, tdo: u64, n: u32)
        requires some { 1 ≤ n }
        requires most { n ≤ 64 }
        requires stays { next_of self.old.heard.tap false ≡ self.old.heard.tap }
        ensures heard { Hears self.old (pulsed (clocks_with (still_inputs (low_bits n tdi)) (low_bits n tdo))) self.new }
        ensures fits { HearsIfRoom self.old (pulsed (clocks_with (still_inputs (low_bits n tdi)) (low_bits n tdo))) self.new }
    {
        let tap = self.tap;
        self.grow_shifting(tdi, tdo, n);
        self.pass(tap, n);
    }

    /// Hears n clocks with TMS 0: with the lowest bits of two numbers as TDI and TDO, the lowest first.
    pub fn hear_still(&mut self, tdi: u64, tdo: u64, n: u32)
        requires { n ≤ 64 }
        ensures heard { Hears self.old (pulsed (clocks_with (still_inputs (low_bits n tdi)) (low_bits n tdo))) self.new }
        ensures fits { HearsIfRoom self.old (pulsed (clocks_with (still_inputs (low_bits n tdi)) (low_bits n tdo))) self.new }
    {
        if n != 0 && stays(self.tap) {
            self.hear_at_once(tdi, tdo, n);
        } else {
            self.hear_each(tdi, tdo, n);
        }
    }

    /// Hears a wait of n microseconds.
    pub fn pause(&mut self, n: u32)
        ensures { self.new ≡ record self.old { heard = heard_signal self.old.heard (Waits n) } }
    {
        self.usec = added(self.usec, u64::from(n));
    }

    /// Hears n clocks: with the lowest bits of two numbers as TDI and TDO, the lowest first, and with TMS 0, but TMS 1 at
    /// the last of them if `last` is true.
    pub fn hear_block(&mut self, tdi: u64, tdo: u64, n: u32, last: bool)
        requires some { 1 ≤ n }
        requires most { n ≤ 64 }
        ensures heard { Hears self.old (pulsed (clocks_with (block_inputs tdi n last) (low_bits n tdo))) self.new }
        ensures fits { HearsIfRoom self.old (pulsed (clocks_with (block_inputs tdi n last) (low_bits n tdo))) self.new }
    {
        if !last {
            self.hear_still(tdi, tdo, n);
            return;
        }
        self.hear_still(tdi, tdo, n - 1);
        self.hear(true, (tdi >> (n - 1)) % 2 == 1, (tdo >> (n - 1)) % 2 == 1);
    }

    /// The runs that are over, in order.
    pub fn ended(&self) -> EndedRuns<'_>
        ensures runs { runs_in result ≡ self.now.heard.ended }
        ensures laid { AreInside result }
    {
        EndedRuns {
            places: &self.ended,
            bits_in: &self.bits_in,
            bits_out: &self.bits_out,
        }
    }
}
