//! The cable to a chain of devices.
ghost use Rattle.std.specs.Prelude.{◌≡◌, ◌≤◌, ◌<◌, ◌+◌, ◌*◌, ◌^◌, ℕ, List, [], ◌++◌, Option, Some};
ghost use Rattle.base.specs.Bits.{low_bits, bit_value};
ghost use Rattle.dev_card.specs.Card.{Card};
ghost use Rattle.dev_card.specs.Sound.{AllSound};
ghost use Rattle.dev_card.specs.Blocks.{block_inputs};
ghost use Rattle.dev_card.specs.Clocks.{with_zero};
ghost use Rattle.scan_paths.specs.Cables.{Breakage, whole, Signal, Waits, Tunes, ClockAnswer, BlockAnswer, SignalAnswer, IsCableKept};

use tool_io::Failed;

/// A cable to a chain of devices (IEEE 1149.1, test access port): TCK and TMS to all, TDI to the last device, TDO from
/// the first.
///
/// A cable tells the cards of its board to contracts, as a simulated chain does, or tells nothing, as one to real
/// devices. Either way it stays so, but after a clock that failed it need not tell any more. Told cards are sound. It
/// has two counts of faults, one of the line to the devices and one of the lines in which its signals are written, if
/// it writes any; neither ever falls. A call that fails leaves it broken, and no call may be made on a broken cable.
pub trait Cable {
    /// The cards of the board, the first nearest TDO, where the cable tells them.
    ghost board: { Self → Option (List Card) };

    /// These signals, one after another, lead from what the cable held to what it holds.
    ghost made: { Self → List Signal → Self → Type 0 };

    /// How often calls have failed by the line to the devices.
    ghost line_faults: { Self → ℕ };

    /// That count stands at its last value.
    ghost is_line_last: { Self → Type 0 };

    /// How often calls have failed by the lines in which signals are written.
    ghost pin_faults: { Self → ℕ };

    /// That count stands at its last value.
    ghost is_pin_last: { Self → Type 0 };

    /// Which part of the cable is broken, if any is.
    ghost breakage: { Self → Breakage };

    /// One clock with these values at TMS and TDI. It answers TDO, as it is before the clock.
    ///
    /// `Failed` only if the count of the part that is broken then rose, or stands at its last value. If the board was
    /// told before and is told then, it is as it was before the clock or as it is after it.
    fn clock(&mut self, tms: bool, tdi: bool) -> Result<bool, Failed>
        requires { breakage self.old ≡ whole }
        ensures clocked { ClockAnswer board made self.old self.new tms tdi result }
        ensures kept { IsCableKept line_faults is_line_last pin_faults is_pin_last breakage self.old self.new result };

    /// n clocks as one call: with the lowest n bits of `tdi`, the lowest first, and with TMS 0, but TMS 1 at the last
    /// of them where `last` is true. It answers the TDO bits before these clocks, the first one as the lowest, with
    /// zeros above.
    ///
    /// `Failed` has the cause that it has at `clock`. Then the clocks that were made are the first of these, perhaps
    /// none, perhaps all.
    fn shift_block(&mut self, tdi: u64, n: u32, last: bool) -> Result<u64, Failed>
        requires whole { breakage self.old ≡ whole }
        requires some { 1 ≤ n }
        requires most { n ≤ 64 }
        ensures shifted { BlockAnswer board made self.old self.new (block_inputs tdi n last) result }
        ensures kept { IsCableKept line_faults is_line_last pin_faults is_pin_last breakage self.old self.new result };

    /// n clocks as one call: with the lowest n bits of `tms`, the lowest first, and with TDI 0. It answers as
    /// `shift_block` does.
    ///
    /// `Failed` has the cause that it has at `clock`. Then the clocks that were made are the first of these, perhaps
    /// none, perhaps all.
    fn move_block(&mut self, tms: u64, n: u32) -> Result<u64, Failed>
        requires whole { breakage self.old ≡ whole }
        requires some { 1 ≤ n }
        requires most { n ≤ 64 }
        ensures moved { BlockAnswer board made self.old self.new (with_zero (low_bits n tms)) result }
        ensures kept { IsCableKept line_faults is_line_last pin_faults is_pin_last breakage self.old self.new result }
    {
        let mut rest = tms;
        let mut seen = 0;
        for i in 0..n {
            let tdo = self.clock(rest % 2 == 1, false)?;
            seen = with_bit(seen, i, tdo);
            rest /= 2;
        }
        Ok(seen)
    }

    /// Waits for n microseconds, once and without a clock: a told board stays as it is, whatever the answer. `Failed`
    /// has the cause that it has at `clock`, and then the wait was made or not.
    fn usec(&mut self, n: u32) -> Result<(), Failed>
        requires { breakage self.old ≡ whole }
        ensures signalled { SignalAnswer board made self.old self.new (Waits n) result }
        ensures kept { IsCableKept line_faults is_line_last pin_faults is_pin_last breakage self.old self.new result };

    /// Sets the frequency of the clocks that follow to n hertz, or states none if n is 0, without a clock: a told board
    /// stays as it is, whatever the answer. `Failed` has the cause that it has at `clock`, and then the frequency was
    /// set or not.
    fn hertz(&mut self, n: u32) -> Result<(), Failed>
        requires { breakage self.old ≡ whole }
        ensures signalled { SignalAnswer board made self.old self.new (Tunes n) result }
        ensures kept { IsCableKept line_faults is_line_last pin_faults is_pin_last breakage self.old self.new result };

    /// Told cards are sound.
    ghost sound: { (c : Self) (cs : List Card) → board c ≡ Some cs → AllSound cs };

    /// No signal leads from what the cable holds to what it holds.
    ghost none_made: { (c : Self) → made c [] c };

    /// Signals that lead on, joined.
    ghost both_made: { (a b c : Self) (front back : List Signal) → made a front b → made b back c →
        made a (front ++ back) c };
}

// A number of i bits with this bit above them.
fn with_bit(number: u64, i: u32, bit: bool) -> u64
    requires place { i < 64 }
    requires below { number < 2 ^ i }
    ensures value { result ≡ number + bit_value bit * 2 ^ i }
    ensures below { result < 2 ^ (i + 1) }
{
    let top = if bit { 1u64 << i } else { 0 };
    number + top
}
