//! The first clocks of a play.
ghost use Rattle.std.specs.Prelude.{◌≡◌, ◌≢◌, [], OnOk, OnErr};
ghost use Rattle.tap_states.specs.declared.Tap.TheVariants.{Reset};
ghost use Rattle.dev_card.specs.Board.{AllIn};
ghost use Rattle.scan_paths.specs.Cables.{whole, line, pins, WhereTold, HasPartCause, HasMadeFront};
ghost use Rattle.stapl_meaning.specs.Plays.{reset_inputs};
ghost use Rattle.written_cable.specs.Resets.{IsReset};

use crate::digits::Digits;
use crate::pin_cable::digit;
use scan_paths::Cable;
use tool_io::Failed;

/// Makes five clocks with TMS 1, and adds their digits.
pub fn five_ones<C: Cable>(cable: &mut C, digits: &mut Digits) -> Result<(), Failed>
    requires whole { C.breakage cable.old ≡ whole }
    requires none { digits.old ≡ [] }
    ensures in_reset { OnOk result (WhereTold (C.board cable.new) (AllIn Reset)) }
    ensures reset { OnOk result (IsReset C.board C.made cable.old cable.new digits.new) }
    ensures front { OnErr result (HasMadeFront C.board C.made cable.old cable.new reset_inputs) }
    ensures unbroken { OnOk result (C.breakage cable.new ≡ whole) }
    ensures broken { OnErr result (C.breakage cable.new ≢ whole) }
    ensures line { HasPartCause line C.line_faults C.is_line_last C.breakage cable.old cable.new }
    ensures pins { HasPartCause pins C.pin_faults C.is_pin_last C.breakage cable.old cable.new }
{
    for _turn in 0..5u32 {
        let tdo = cable.clock(true, false)?;
        digits.push(digit(true, false, tdo));
    }
    Ok(())
}
