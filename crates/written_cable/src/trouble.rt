//! Why a run is broken off.
ghost use Rattle.std.specs.Prelude.{◌≢◌};
ghost use Rattle.scan_paths.specs.Cables.{whole};
ghost use Rattle.written_cable.specs.Ports.{BrokeSo, broken_part};

use crate::paper::Paper;
use crate::pin_cable::PinCable;
use scan_paths::Cable;
use thiserror::Error;

/// Why a run is broken off: the cable failed, or a write did.
#[derive(Clone, Copy, PartialEq, Eq, Debug, Error)]
pub enum Trouble {
    #[error("the cable failed")]
    CableFault,
    #[error("a write failed")]
    WriteFault,
}

/// Which part of a broken port is broken.
pub fn trouble_of<C: Cable, O: Paper>(port: &PinCable<C, O>) -> Trouble
    requires { broken_part C.Cable O.Paper port.now ≢ whole }
    ensures { BrokeSo result (broken_part C.Cable O.Paper port.now) }
{
    if port.is_torn() {
        return Trouble::WriteFault;
    }
    Trouble::CableFault
}
