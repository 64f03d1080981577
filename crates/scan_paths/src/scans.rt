//! Scans of the devices' registers.
ghost use Rattle.std.specs.Prelude.{◌≡◌, ◌≤◌, length, take, drop, IsTrue, IfOk, OnOk};
ghost use Rattle.base.specs.Bits.{low_bits};
ghost use Rattle.tap_states.specs.Tap.{is_stable_state};
ghost use Rattle.dev_card.specs.Board.{AllIn};
ghost use Rattle.dev_card.specs.Line.{pause_state};
ghost use Rattle.dev_card.specs.Clocks.{entry_tms};
ghost use Rattle.dev_card.specs.Scans.{captured_bits, IsScanOfEachRun};
ghost use Rattle.scan_paths.specs.Cables.{whole, WhereTold};
ghost use Rattle.scan_paths.specs.CableCalls.{KeepsCable, MakesScan};
ghost use Rattle.scan_paths.specs.Scans.{AreInside, scan_of};

use crate::cable::Cable;
use crate::moves::{move_to, send};
use crate::pads::{BasePads, Pads};
use crate::shifts::shift_padded;
use bit_list::Bits;
use tap_states::Tap;
use tool_io::Failed;

/// What a scan is to do: through which registers it goes, how many bits of data it shifts, to which state it leads, and
/// how many ones stand before and after what the program shifts.
#[derive(Clone, Copy)]
pub struct ScanPlan {
    /// True for the instruction registers (JESD71, IRSCAN), false for the data registers (DRSCAN).
    pub ir: bool,
    /// How many bits the data has.
    pub len: u32,
    /// The state in which the controllers are then.
    pub stop: Tap,
    /// The base padding, of which the scan takes that of its registers.
    pub base: BasePads,
}

/// Scans the lowest bits of `bits`, as many as the plan says, through the instruction registers or the data registers,
/// between the program's paddings and the base padding around these, and answers the state in which the controllers are
/// then (JESD71, IRSCAN and DRSCAN).
///
/// The clocks are those from the stable state `at` to the shift, one for each bit, paddings included, one to the pause
/// state, and those of the move to the stop state. TMS is 1 at the last bit alone of the shift, and TDI is 0 outside
/// the shift. Bits go in from the lowest index on. As many of the lowest bits of `captured` become TDO at the clocks of
/// the data, and its other bits stay. It takes no memory.
///
/// The cable is not broken, and where it tells its board, each controller is in the state `at`. The data has at least
/// one bit, and each program padding lies inside its list. `Failed` only where the cable's count of faults rose, or
/// stands at its last value; then the clocks that were made are those of a front of the scan, and nothing is promised
/// of the state and of the bits that were to be captured.
pub fn scan<C: Cable>(
    cable: &mut C,
    at: Tap,
    plan: ScanPlan,
    bits: &Bits,
    captured: &mut Bits,
    pads: &Pads,
) -> Result<Tap, Failed>
    requires whole { C.breakage cable.old ≡ whole }
    requires at { WhereTold (C.board cable.old) (AllIn at) }
    requires stable { IsTrue (is_stable_state at) }
    requires some { 1 ≤ plan.len }
    requires inside { plan.len ≤ length bits.now }
    requires room { plan.len ≤ length captured.old }
    requires pads { AreInside pads.now }
    ensures arrived { IfOk result (λ state. state ≡ plan.stop × WhereTold (C.board cable.new) (AllIn plan.stop)) }
    ensures scanned { MakesScan C.Cable cable.old at (scan_of plan bits.now pads.now) (take plan.len captured.new)
        cable.new result }
    ensures captured { OnOk result (WhereTold (C.board cable.old)
        (λ cs. take plan.len captured.new ≡ captured_bits at (scan_of plan bits.now pads.now) cs)) }
    ensures alone { OnOk result (WhereTold (C.board cable.old)
        (IsScanOfEachRun at (scan_of plan bits.now pads.now) (take plan.len captured.new))) }
    ensures rest { drop plan.len captured.new ≡ drop plan.len captured.old }
    ensures length { length captured.new ≡ length captured.old }
    ensures kept { KeepsCable C.Cable cable.old cable.new result }
{
    let (tms, count) = entry(at, plan.ir);
    send(cable, tms, count)?;
    shift_padded(cable, plan, bits, captured, pads)?;
    send(cable, 0, 1)?;
    let state = move_to(cable, pause(plan.ir), plan.stop)?;
    Ok(state)
}

// The TMS values from a stable state to the shift, the first one in the lowest bit, and how many they are.
fn entry(at: Tap, ir: bool) -> (u32, u32)
    requires { IsTrue (is_stable_state at) }
    ensures bits { low_bits result.1 result.0 ≡ entry_tms at ir }
    ensures few { result.1 ≤ 64 }
{
    match (at, ir) {
        (Tap::Reset, false) => (0b0010, 4),
        (Tap::Reset, true) => (0b00110, 5),
        (Tap::Idle, false) => (0b001, 3),
        (Tap::Idle, true) => (0b0011, 4),
        (_, false) => (0b00111, 5),
        (_, true) => (0b001111, 6),
    }
}

fn pause(ir: bool) -> Tap
    ensures { result ≡ pause_state ir }
{
    if ir { Tap::IrPause } else { Tap::DrPause }
}
