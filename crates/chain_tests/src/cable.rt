//! Tests of moves, stays and the reset over a cable that fails.
ghost use Rattle.std.specs.Prelude.{◌≡◌, ◌++◌, ◌^◌, ◌-◌, not, None, IfOk, IsTrue};
ghost use Rattle.std.proofs.lemmas.Option.{none-some};
ghost use Rattle.tap_states.specs.declared.Tap.TheVariants.{Reset};
ghost use Rattle.tap_states.specs.Path.{five_ones};
ghost use Rattle.tap_states.specs.Tap.{is_stable_state};
ghost use Rattle.dev_card.specs.Clocks.{with_zero, move_inputs};
ghost use Rattle.scan_paths.specs.Cables.{whole, whole_if};
ghost use Rattle.scan_paths.specs.CableCalls.{MakesClocks};
ghost use Rattle.scan_paths.specs.Scans.{AreInside};

use bit_list::Bits;
use scan_paths::{BasePads, Cable, Pads, ScanPlan, move_to, reset_chain, scan, stay};
use std::alloc::{AllocError, Global};
use std::test::Fail;
use tap_states::Tap;
use tool_io::Failed;

/// A cable that tells nothing and answers 0 for each bit. It counts its calls that clock; the one with the number
/// `failing`, counted from 1, fails.
#[derive(Drop)]
struct SilentCable {
    clocks: u32,
    failing: u32,
    faults: u32,
    is_broken: bool,
}

impl SilentCable {
    fn new(failing: u32) -> SilentCable
        ensures { ⟦<SilentCable as Cable>⟧.breakage result ≡ whole }
    {
        SilentCable {
            clocks: 0,
            failing,
            faults: 0,
            is_broken: false,
        }
    }
}

impl Cable for SilentCable {
    ghost board = { λ _. None };

    ghost made = { λ _ _ _. Unit {0} };

    ghost line_faults = { λ c. c.faults };

    ghost is_line_last = { λ c. c.faults ≡ 2 ^ 32 - 1 };

    ghost pin_faults = { λ _. 0 };

    ghost is_pin_last = { λ _. ⊥ };

    ghost breakage = { λ c. whole_if (not c.is_broken) };

    fn clock(&mut self, _tms: bool, _tdi: bool) -> Result<bool, Failed> {
        self.clocks = self.clocks.saturating_add(1);
        if self.clocks == self.failing {
            self.faults = self.faults.saturating_add(1);
            self.is_broken = true;
            return Err(Failed);
        }
        Ok(false)
    }

    fn shift_block(&mut self, _tdi: u64, _n: u32, _last: bool) -> Result<u64, Failed> {
        self.clocks = self.clocks.saturating_add(1);
        if self.clocks == self.failing {
            self.faults = self.faults.saturating_add(1);
            self.is_broken = true;
            return Err(Failed);
        }
        Ok(0)
    }

    fn usec(&mut self, _n: u32) -> Result<(), Failed> {
        Ok(())
    }

    fn hertz(&mut self, _n: u32) -> Result<(), Failed> {
        Ok(())
    }

    ghost sound = { λ c cs told. absurd (none-some cs told) };

    ghost none_made = { λ _. tt };

    ghost both_made = { λ _ _ _ _ _ _ _. tt };
}

// Brings the controllers to reset and then to a state: two calls in a row, of which either may fail.
fn restart<C: Cable>(cable: &mut C, to: Tap) -> Result<Tap, Failed>
    requires { C.breakage cable.old ≡ whole }
    ensures { MakesClocks C.Cable cable.old (with_zero five_ones ++ move_inputs Reset to) cable.new result }
{
    reset_chain(cable)?;
    let state = move_to(cable, Tap::Reset, to)?;
    Ok(state)
}

// Where a move ends over a cable of which this call fails, and how many calls are made.
fn moved(failing: u32) -> (Option<Tap>, u32) {
    let mut cable = SilentCable::new(failing);
    let state = move_to(&mut cable, Tap::DrPause, Tap::IrShift);
    (state.ok(), cable.clocks)
}

// The same of so many clocks in a state, and whether they are made.
fn stayed(failing: u32, at: Tap, n: u32) -> (bool, u32)
    requires { IsTrue (is_stable_state at) }
{
    let mut cable = SilentCable::new(failing);
    let stayed = stay(&mut cable, at, n);
    (stayed.is_ok(), cable.clocks)
}

// The same of two calls in a row.
fn restarted(failing: u32) -> (bool, u32) {
    let mut cable = SilentCable::new(failing);
    let restarted = restart(&mut cable, Tap::Idle);
    (restarted.is_ok(), cable.clocks)
}

// From the state diagram of IEEE 1149.1: from DRPAUSE to IRSHIFT there are six clocks, and five to reset and one to
// idle.
#[test]
fn stops_at_the_clock_that_fails(rt: HostRuntime) {
    for failing in 1..8u32 {
        let state = if failing > 6 {
            Some(Tap::IrShift)
        } else {
            None
        };
        assert!(rt; moved(failing) == (state, failing.min(6)));
        assert!(rt; stayed(failing, Tap::Reset, 5) == (failing > 5, failing.min(5)));
        assert!(rt; restarted(failing) == (failing > 6, failing.min(6)));
    }
}

// A stay of 10,000 clocks outside reset takes a call for each 64 of them, and one for the rest.
#[test]
fn stays_by_blocks(rt: HostRuntime) {
    assert!(rt; stayed(0, Tap::IrPause, 10_000) == (true, 157));
    assert!(rt; stayed(157, Tap::Idle, 10_000) == (false, 157));
    assert!(rt; stayed(0, Tap::DrPause, 0) == (true, 0));
}

// No paddings of a program.
fn no_pads(alloc: Global) -> Result<Pads, AllocError>
    ensures { IfOk result AreInside }
{
    Ok(Pads {
        pre: 0,
        pre_bits: Bits::zeros(alloc, 0)?,
        post: 0,
        post_bits: Bits::zeros(alloc, 0)?,
    })
}

// Where a scan of 4,096 bits ends, and how many calls it makes.
fn scanned(alloc: Global, pads: &Pads) -> Result<(Option<Tap>, u32), AllocError>
    requires { AreInside pads.now }
{
    let bits = Bits::zeros(alloc, 4096)?;
    let mut captured = Bits::zeros(alloc, 4096)?;
    let plan = ScanPlan {
        ir: false,
        len: 4096,
        stop: Tap::Idle,
        base: BasePads::none(),
    };
    let mut cable = SilentCable::new(0);
    let state = scan(&mut cable, Tap::Idle, plan, &bits, &mut captured, pads);
    Ok((state.ok(), cable.clocks))
}

// A scan of 4,096 bits takes a call for each 64 of them, and those of the moves before and after.
#[test]
fn scans_by_blocks(rt: HostRuntime) -> Result<(), Fail> {
    let pads = no_pads(rt.alloc())?;
    let found = scanned(rt.alloc(), &pads);
    drop(pads);
    assert!(rt; found? == (Some(Tap::Idle), 71));
    Ok(())
}
