//! A cable whose clocks are written.
ghost use Rattle.std.specs.Prelude.{◌≡◌, ◌≤◌, ◌<◌, ◌+◌, ◌&&◌, ◌==◌, true, false, length, ℕ, OnOk};
ghost use Rattle.base.specs.Bits.{bit_value};
ghost use Rattle.scan_paths.specs.Cables.{whole, Waits, Tunes, SignalAnswer};
ghost use Rattle.scan_paths.specs.CableCalls.{KeepsCable};
ghost use Rattle.scan_paths.specs.Scans.{lengths_of};
ghost use Rattle.stapl_meaning.specs.Deeds.{pulses};
ghost use Rattle.stapl_meaning.specs.Texts.{pin_digit, full_line, with_digit, bytes_of, waiting, pin_limit};
ghost use Rattle.written_cable.specs.OnPaper.{HasPutOn};
ghost use Rattle.dev_card.specs.Blocks.{block_inputs};
ghost use Rattle.written_cable.specs.Blocks.{word_inputs, word_clocks, lines_of_digits, with_digits};
ghost use Rattle.written_cable.specs.Ports.{broken_part, IsNewPort, IsCableStill, HasFinished, IsKept};

use crate::digits::Digits;
use crate::paper::Paper;
use bit_lanes::pin_digits;
use scan_paths::{BasePads, Cable};
use tap_states::Tap;
use tool_io::Failed;

/// A cable over another one, which puts a line for each wait and each frequency, puts the digits of its clocks if that
/// is wanted, and keeps the state of the controllers and the base padding of the scans. It takes no memory.
#[derive(Drop)]
pub struct PinCable<'a, C, O> {
    pub(crate) cable: &'a mut C,
    pub(crate) out: &'a mut O,
    pub(crate) tap: Tap,
    pub(crate) base: BasePads,
    pub(crate) digits: Digits,
    pub(crate) pins: bool,
    pub(crate) torn: bool,
}

fn bit(b: bool) -> u8
    ensures { result ≡ bit_value b }
{
    if b { 1 } else { 0 }
}

/// The digit of a clock.
pub fn digit(tms: bool, tdi: bool, tdo: bool) -> u8
    ensures { result ≡ pin_digit tms tdi tdo }
{
    48 + (4 * bit(tms) + (2 * bit(tdi) + bit(tdo)))
}

// Puts the line of digits that are full, and adds a digit.
#[tactic(auto, using(crate::proofs::PaperLemmas::paper_still))]
fn note<O: Paper>(out: &mut O, digits: &mut Digits, digit: u8) -> Result<(), Failed>
    requires whole { O.failed out.old ≡ false }
    ensures put { HasPutOn O.Paper out.old (full_line digits.old) out.new result }
    ensures digits { OnOk result (digits.new ≡ with_digit digits.old digit) }
{
    if digits.is_full() {
        out.put_pins(digits.bytes())?;
        digits.clear();
        digits.push(digit);
        return Ok(());
    }
    digits.push(digit);
    Ok(())
}

// TMS of a block of n clocks: 1 at the last one, if the block is so marked.
fn block_tms(n: u32, last: bool) -> u64
    requires some { 1 ≤ n }
    requires most { n ≤ 64 }
    ensures { (tdi : ℕ) → word_inputs result tdi n ≡ block_inputs tdi n last }
{
    if last { 1u64 << (n - 1) } else { 0 }
}

// Adds digits, of which there are at most 64, and puts the line that becomes full before the last of them.
fn note_line<O: Paper>(out: &mut O, digits: &mut Digits, line: &[u8]) -> Result<(), Failed>
    requires whole { O.failed out.old ≡ false }
    requires most { length line.now ≤ pin_limit }
    ensures put { HasPutOn O.Paper out.old (lines_of_digits digits.old line.now) out.new result }
    ensures digits { OnOk result (digits.new ≡ with_digits digits.old line.now) }
{
    let room = digits.room();
    if line.len() <= room {
        digits.append(line);
        return Ok(());
    }
    digits.append(&line[..room]);
    out.put_pins(digits.bytes())?;
    digits.clear();
    digits.append(&line[room..]);
    Ok(())
}

// Notes n clocks, of whose TMS, TDI and TDO these are the numbers.
fn note_block<O: Paper>(
    out: &mut O,
    digits: &mut Digits,
    tms: u64,
    tdi: u64,
    tdo: u64,
    n: u32,
) -> Result<(), Failed>
    requires whole { O.failed out.old ≡ false }
    requires most { n ≤ 64 }
    ensures put { HasPutOn O.Paper out.old
        (bytes_of true digits.old (pulses (word_clocks tms tdi tdo n))) out.new result }
    ensures digits { OnOk result (digits.new ≡ waiting true digits.old (pulses (word_clocks tms tdi tdo n))) }
{
    let mut line = [0u8; 64];
    pin_digits(tms, tdi, tdo, n, &mut line);
    note_line(out, digits, &line[..n as usize])
}

// A wait that is made on a cable, apart from its line.
fn wait_once<C: Cable>(cable: &mut C, n: u32) -> Result<(), Failed>
    requires { C.breakage cable.old ≡ whole }
    ensures signalled { SignalAnswer C.board C.made cable.old cable.new (Waits n) result }
    ensures kept { KeepsCable C.Cable cable.old cable.new result }
{
    cable.usec(n)?;
    Ok(())
}

// A frequency that is set on a cable, apart from its line.
fn set_frequency<C: Cable>(cable: &mut C, n: u32) -> Result<(), Failed>
    requires { C.breakage cable.old ≡ whole }
    ensures signalled { SignalAnswer C.board C.made cable.old cable.new (Tunes n) result }
    ensures kept { KeepsCable C.Cable cable.old cable.new result }
{
    cable.hertz(n)?;
    Ok(())
}

impl<'a, C: Cable, O: Paper> PinCable<'a, C, O> {
    ghost use Rattle.written_cable.specs.Pins.{is_torn, tap_of};

    /// Over this cable, whose controllers are all in this state, and these lines, where these digits wait, with this base
    /// padding.
    pub fn over(
        cable: &'a mut C,
        out: &'a mut O,
        tap: Tap,
        digits: Digits,
        pins: bool,
        base: BasePads,
    ) -> PinCable<'a, C, O>
        ensures { IsNewPort cable.entry out.entry tap digits pins (lengths_of base) result }
    {
        PinCable {
            cable,
            out,
            tap,
            base,
            digits,
            pins,
            torn: false,
        }
    }

    /// The state of all controllers.
    pub fn tap(&self) -> Tap
        ensures { result ≡ tap_of self.now }
    {
        self.tap
    }

    /// Whether a call on the lines has failed.
    pub fn is_torn(&self) -> bool
        ensures { result ≡ is_torn self.now }
    {
        self.torn
    }

    /// Puts the line of the digits that wait.
    ///
    /// `Failed` as of the lines.
    pub fn finish(&mut self) -> Result<(), Failed>
        requires { broken_part C.Cable O.Paper self.old ≡ whole }
        ensures finished { HasFinished C.Cable O.Paper self.old self.new result }
        ensures still { IsCableStill self.old self.new }
        ensures kept { IsKept C.Cable O.Paper self.old self.new }
    {
        self.torn = true;
        self.out.put_pins(self.digits.bytes())?;
        self.torn = false;
        self.digits.clear();
        Ok(())
    }
}

impl<C: Cable, O: Paper> Cable for PinCable<'_, C, O> {
    ghost use Rattle.written_cable.specs.Pins.{cable_of, lines_of, port_breakage, port_line_faults, IsPortLineLast, port_pin_faults, IsPortPinLast, HasMadePins};
    ghost use Rattle.written_cable.specs.PinLaws.{made_none, made_both};

    ghost board = { λ p. C.board (cable_of p) };

    ghost made = { HasMadePins (port_breakage C.breakage O.failed) O.shown C.made };

    ghost line_faults = { port_line_faults C.line_faults C.pin_faults };

    ghost is_line_last = { IsPortLineLast C.is_line_last C.is_pin_last };

    ghost pin_faults = { port_pin_faults O.faults };

    ghost is_pin_last = { IsPortPinLast O.is_last };

    ghost breakage = { port_breakage C.breakage O.failed };

    fn clock(&mut self, tms: bool, tdi: bool) -> Result<bool, Failed> {
        let tdo = self.cable.clock(tms, tdi)?;
        if !self.pins {
            return Ok(tdo);
        }
        self.torn = true;
        note(self.out, &mut self.digits, digit(tms, tdi, tdo))?;
        self.torn = false;
        Ok(tdo)
    }

    fn shift_block(&mut self, tdi: u64, n: u32, last: bool) -> Result<u64, Failed> {
        let tdo = self.cable.shift_block(tdi, n, last)?;
        if !self.pins {
            return Ok(tdo);
        }
        self.torn = true;
        note_block(self.out, &mut self.digits, block_tms(n, last), tdi, tdo, n)?;
        self.torn = false;
        Ok(tdo)
    }

    fn move_block(&mut self, tms: u64, n: u32) -> Result<u64, Failed> {
        let tdo = self.cable.move_block(tms, n)?;
        if !self.pins {
            return Ok(tdo);
        }
        self.torn = true;
        note_block(self.out, &mut self.digits, tms, 0, tdo, n)?;
        self.torn = false;
        Ok(tdo)
    }

    fn usec(&mut self, n: u32) -> Result<(), Failed> {
        wait_once(self.cable, n)?;
        self.finish()?;
        self.torn = true;
        self.out.put_usec(n)?;
        self.torn = false;
        Ok(())
    }

    fn hertz(&mut self, n: u32) -> Result<(), Failed> {
        set_frequency(self.cable, n)?;
        self.finish()?;
        self.torn = true;
        self.out.put_hertz(n)?;
        self.torn = false;
        Ok(())
    }

    ghost sound = { λ p cs told. C.sound (cable_of p) cs told };

    ghost none_made = { λ p.
        made_none (port_breakage C.breakage O.failed) O.shown C.made p (C.none_made (cable_of p)) };

    ghost both_made = { λ a b c front back p q.
        made_both (port_breakage C.breakage O.failed) O.shown C.made a b c front back
        (C.both_made (cable_of a) (cable_of b) (cable_of c) front back p.made q.made) p q };
}
