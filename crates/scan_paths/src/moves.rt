//! Moves, stays and the reset of the controllers.
ghost use Rattle.std.specs.Prelude.{◌≡◌, ◌≤◌, true, IsTrue, IfOk, OnOk};
ghost use Rattle.base.specs.Bits.{low_bits};
ghost use Rattle.tap_states.specs.declared.Tap.TheVariants.{Reset};
ghost use Rattle.tap_states.specs.Path.{five_ones};
ghost use Rattle.tap_states.specs.Tap.{is_stable_state};
ghost use Rattle.dev_card.specs.Board.{AllIn};
ghost use Rattle.dev_card.specs.Clocks.{with_zero, move_inputs, stay_inputs, rest_tms};
ghost use Rattle.scan_paths.specs.Cables.{whole, WhereTold};
ghost use Rattle.scan_paths.specs.CableCalls.{KeepsCable, MakesClocks};

use crate::cable::Cable;
use crate::shifts::BLOCK;
use tap_states::Tap;
use tool_io::Failed;

/// Clocks the lowest n bits as TMS, the lowest first, with TDI 0, as one call of the cable, or as none if n is 0.
pub fn send<C: Cable>(cable: &mut C, bits: u32, n: u32) -> Result<(), Failed>
    requires whole { C.breakage cable.old ≡ whole }
    requires most { n ≤ 64 }
    ensures made { MakesClocks C.Cable cable.old (with_zero (low_bits n bits)) cable.new result }
    ensures kept { KeepsCable C.Cable cable.old cable.new result }
{
    if n > 0 {
        cable.move_block(bits as u64, n)?;
    }
    Ok(())
}

/// Moves all controllers from one state to another by the path between the two, with TDI 0, and answers the state that
/// they are in then.
///
/// The cable is not broken, and where it tells its board, each controller is in the state `at`. `Failed` only where the
/// cable's count of faults rose, or stands at its last value; then the clocks that were made are those of a front of
/// the path, and nothing is promised of the state.
pub fn move_to<C: Cable>(cable: &mut C, at: Tap, to: Tap) -> Result<Tap, Failed>
    requires whole { C.breakage cable.old ≡ whole }
    requires at { WhereTold (C.board cable.old) (AllIn at) }
    ensures arrived { IfOk result (λ state. state ≡ to × WhereTold (C.board cable.new) (AllIn to)) }
    ensures made { MakesClocks C.Cable cable.old (move_inputs at to) cable.new result }
    ensures kept { KeepsCable C.Cable cable.old cable.new result }
{
    let path = Tap::path(at, to);
    send(cable, path.bits, path.len)?;
    Ok(to)
}

/// Brings all controllers to reset by five clocks with TMS 1 and TDI 0, from states that nobody knows (IEEE 1149.1, TAP
/// controller state diagram).
///
/// The cable is not broken; nothing is asked of the states before. `Failed` only where the cable's count of faults
/// rose, or stands at its last value; then the clocks that were made are those of a front of the five, and nothing is
/// promised of the states.
pub fn reset_chain<C: Cable>(cable: &mut C) -> Result<(), Failed>
    requires whole { C.breakage cable.old ≡ whole }
    ensures reset { OnOk result (WhereTold (C.board cable.new) (AllIn Reset)) }
    ensures made { MakesClocks C.Cable cable.old (with_zero five_ones) cable.new result }
    ensures kept { KeepsCable C.Cable cable.old cable.new result }
{
    let ones = Tap::path(Tap::Reset, Tap::Reset);
    send(cable, ones.bits, ones.len)?;
    Ok(())
}

/// Makes n clocks in a stable state, in which all controllers stay: with TMS 1 in the reset state and with 0 in the
/// others, and with TDI 0.
///
/// The cable is not broken, and where it tells its board, each controller is in the state `at`. `Failed` only where the
/// cable's count of faults rose, or stands at its last value; then fewer clocks may have been made, and nothing is
/// promised of the state.
pub fn stay<C: Cable>(cable: &mut C, at: Tap, n: u32) -> Result<(), Failed>
    requires whole { C.breakage cable.old ≡ whole }
    requires at { WhereTold (C.board cable.old) (AllIn at) }
    requires stable { IsTrue (is_stable_state at) }
    ensures still { OnOk result (WhereTold (C.board cable.new) (AllIn at)) }
    ensures made { MakesClocks C.Cable cable.old (stay_inputs at n) cable.new result }
    ensures kept { KeepsCable C.Cable cable.old cable.new result }
{
    let tms = tms_at_rest(at);
    let most = longest_stay(tms);
    let mut done = 0;
    while done < n {
        let len = (n - done).min(most);
        cable.shift_block(0, len, tms)?;
        done += len;
    }
    Ok(())
}

// TMS while the controllers stay in a stable state.
fn tms_at_rest(at: Tap) -> bool
    ensures { result ≡ rest_tms at }
{
    matches!(at, Tap::Reset)
}

// The most clocks of a stay that are one block, with this TMS. A block has TMS 1 at its last clock alone.
fn longest_stay(tms: bool) -> u32
    ensures some { 1 ≤ result }
    ensures most { result ≤ 64 }
    ensures alone { tms ≡ true → result ≡ 1 }
{
    if tms { 1 } else { BLOCK }
}
