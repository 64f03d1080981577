//! A cable without devices.
ghost use Rattle.std.specs.Prelude.{◌≡◌, not, true, None, OnOk, OnErr};
ghost use Rattle.std.proofs.lemmas.Option.{none-some};
ghost use Rattle.scan_paths.specs.Cables.{whole_if};

use scan_paths::Cable;
use tool_io::Failed;

/// A cable that tells no board and answers 1 at each clock. So many calls are made before one fails.
#[derive(Drop)]
pub struct Wire {
    pub left: u32,
    pub is_broken: bool,
}

impl Wire {
    // One call more, if there is one left.
    fn count(&mut self) -> Result<(), Failed>
        ensures unbroken { OnOk result (self.new.is_broken ≡ self.old.is_broken) }
        ensures broken { OnErr result (self.new.is_broken ≡ true) }
    {
        if self.left == 0 {
            self.is_broken = true;
            return Err(Failed);
        }
        self.left -= 1;
        Ok(())
    }
}

impl Cable for Wire {
    ghost board = { λ _. None };

    ghost made = { λ _ _ _. Unit {0} };

    ghost line_faults = { λ _. 0 };

    ghost is_line_last = { λ _. Unit {0} };

    ghost pin_faults = { λ _. 0 };

    ghost is_pin_last = { λ _. Unit {0} };

    ghost breakage = { λ w. whole_if (not w.is_broken) };

    fn clock(&mut self, _tms: bool, _tdi: bool) -> Result<bool, Failed> {
        self.count()?;
        Ok(true)
    }

    fn shift_block(&mut self, _tdi: u64, n: u32, _last: bool) -> Result<u64, Failed> {
        self.count()?;
        Ok(u64::MAX >> (64 - n))
    }

    fn usec(&mut self, _n: u32) -> Result<(), Failed> {
        self.count()?;
        Ok(())
    }

    fn hertz(&mut self, _n: u32) -> Result<(), Failed> {
        self.count()?;
        Ok(())
    }

    ghost sound = { λ w cs told. absurd (none-some cs told) };

    ghost none_made = { λ _. tt };

    ghost both_made = { λ _ _ _ _ _ _ _. tt };
}
