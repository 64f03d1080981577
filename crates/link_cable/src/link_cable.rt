//! A cable over a wire to a link.
ghost use Rattle.std.specs.Prelude.{◌≡◌, ◌≤◌, true};
ghost use Rattle.base.specs.Bits.{low_bits};
ghost use Rattle.dev_card.specs.Blocks.{block_inputs};
ghost use Rattle.dev_card.specs.Clocks.{with_zero};
ghost use Rattle.scan_paths.specs.Cables.{whole, Waits, Tunes, ClockAnswer, BlockAnswer, SignalAnswer};
ghost use Rattle.link_cable.specs.LinkCables.{through_sound};

use crate::calls::{clock_wire, move_wire, shift_wire};
use crate::wire::Wire;
use scan_paths::Cable;
use tool_io::Failed;

/// A cable over a wire to a link. It is broken exactly if one of its calls has failed.
///
/// A clock sends the digit of its levels with TCK low, an `R`, and the digit with TCK high, and receives one answer. A
/// block is as many clocks; a wait and a frequency send nothing. It tells the board that the wire tells, while the
/// session is open, no answer waits and no call has failed. Its count is the wire's and one of its own, which rises if a
/// send took no byte, a receive gave no answer, or an answer is no digit of a bit; it rises with nothing else. It takes no
/// memory.
#[derive(Drop)]
pub struct LinkCable<'a, W> {
    wire: &'a mut W,
    faults: u64,
    is_broken: bool,
}

impl<'a, W: Wire> LinkCable<'a, W> {
    ghost use Rattle.link_cable.specs.LinkCables.{IsOver, wire_of};

    /// Over this wire, which is ready.
    pub fn over(wire: &'a mut W) -> LinkCable<'a, W>
        requires { W.is_ready wire.old ≡ true }
        ensures same_wire { IsOver result wire.entry }
        ensures wire { wire_of result ≡ wire.old }
        ensures whole { ⟦<LinkCable<'a, W> as Cable>⟧.breakage result ≡ whole }
    {
        LinkCable {
            wire,
            faults: 0,
            is_broken: false,
        }
    }
}

impl<W: Wire> Cable for LinkCable<'_, W> {
    ghost use Rattle.link_cable.specs.LinkCables.{wire_of, cable_board, cable_count, IsCountLast, cable_breakage, no_faults, IsNever, KeepsLinkCable, LeadsOver, GoesWell};
    ghost use Rattle.link_cable.specs.CableLaws.{nothing_leads, both_lead};

    ghost board = { cable_board W.told };

    ghost made = { LeadsOver W.Wire };

    ghost line_faults = { cable_count W.faults };

    ghost is_line_last = { IsCountLast W.is_last };

    ghost pin_faults = { no_faults };

    ghost is_pin_last = { IsNever };

    ghost breakage = { cable_breakage W.is_ready };

    /// One clock. Over a wire that tells and is steady, with an open session and no waiting answer, it never fails, and
    /// all this holds again afterwards.
    fn clock(&mut self, tms: bool, tdi: bool) -> Result<bool, Failed>
        requires { cable_breakage W.is_ready self.old ≡ whole }
        ensures clocked { ClockAnswer (cable_board W.told) (LeadsOver W.Wire) self.old self.new tms tdi result }
        ensures kept { KeepsLinkCable W.Wire self.old self.new result }
        ensures well { GoesWell W.Wire self.old self.new result }
    {
        self.is_broken = true;
        let tdo = clock_wire(self.wire, tms, tdi, &mut self.faults)?;
        self.is_broken = false;
        Ok(tdo)
    }

    /// A block as n clocks. It never fails where a clock does not.
    fn shift_block(&mut self, tdi: u64, n: u32, last: bool) -> Result<u64, Failed>
        requires whole { cable_breakage W.is_ready self.old ≡ whole }
        requires some { 1 ≤ n }
        requires most { n ≤ 64 }
        ensures shifted { BlockAnswer (cable_board W.told) (LeadsOver W.Wire) self.old self.new (block_inputs tdi n last) result }
        ensures kept { KeepsLinkCable W.Wire self.old self.new result }
        ensures well { GoesWell W.Wire self.old self.new result }
    {
        self.is_broken = true;
        let tdo = shift_wire(self.wire, tdi, n, last, &mut self.faults)?;
        self.is_broken = false;
        Ok(tdo)
    }

    /// A block as n clocks. It never fails where a clock does not.
    fn move_block(&mut self, tms: u64, n: u32) -> Result<u64, Failed>
        requires whole { cable_breakage W.is_ready self.old ≡ whole }
        requires some { 1 ≤ n }
        requires most { n ≤ 64 }
        ensures moved { BlockAnswer (cable_board W.told) (LeadsOver W.Wire) self.old self.new (with_zero (low_bits n tms)) result }
        ensures kept { KeepsLinkCable W.Wire self.old self.new result }
        ensures well { GoesWell W.Wire self.old self.new result }
    {
        self.is_broken = true;
        let tdo = move_wire(self.wire, tms, n, &mut self.faults)?;
        self.is_broken = false;
        Ok(tdo)
    }

    /// A wait sends nothing.
    fn usec(&mut self, n: u32) -> Result<(), Failed>
        requires { cable_breakage W.is_ready self.old ≡ whole }
        ensures signalled { SignalAnswer (cable_board W.told) (LeadsOver W.Wire) self.old self.new (Waits n) result }
        ensures kept { KeepsLinkCable W.Wire self.old self.new result }
        ensures well { GoesWell W.Wire self.old self.new result }
    {
        let _usec = n;
        Ok(())
    }

    /// A frequency sends nothing.
    fn hertz(&mut self, n: u32) -> Result<(), Failed>
        requires { cable_breakage W.is_ready self.old ≡ whole }
        ensures signalled { SignalAnswer (cable_board W.told) (LeadsOver W.Wire) self.old self.new (Tunes n) result }
        ensures kept { KeepsLinkCable W.Wire self.old self.new result }
        ensures well { GoesWell W.Wire self.old self.new result }
    {
        let _hertz = n;
        Ok(())
    }

    ghost sound = { λ c cs told. through_sound c.is_broken (W.told (wire_of c)) (λ s e. W.sound (wire_of c) s e) cs told };

    ghost none_made = { nothing_leads W.told W.carried W.is_steady W.faults W.is_last W.none_carried };

    ghost both_made = { both_lead W.told W.carried W.is_steady W.faults W.is_last W.both_carried };
}
