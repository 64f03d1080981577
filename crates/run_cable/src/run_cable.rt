//! A cable that keeps the runs of its clocks.
ghost use Rattle.std.specs.Prelude.{◌≡◌};
ghost use Rattle.run_cable.specs.RunCables.{IsNewRunCable, runs_of};

use crate::runs::Runs;
use scan_paths::Cable;
use tool_io::Failed;

/// A cable over another one, which keeps the runs of its clocks. After a call that failed, what is kept is lost. It takes
/// no memory.
#[derive(Drop)]
pub struct RunCable<'a, C> {
    cable: &'a mut C,
    runs: &'a mut Runs,
}

impl<'a, C: Cable> RunCable<'a, C> {
    /// Over this cable, with these runs.
    pub fn over(cable: &'a mut C, runs: &'a mut Runs) -> RunCable<'a, C>
        ensures over { IsNewRunCable cable.entry runs.entry result }
        ensures runs { runs_of result ≡ runs.old }
    {
        RunCable { cable, runs }
    }
}

impl<C: Cable> Cable for RunCable<'_, C> {
    ghost use Rattle.run_cable.specs.RunCables.{cable_of, LeadsRuns};
    ghost use Rattle.run_cable.specs.RunCableLaws.{nothing_leads, both_lead};

    ghost board = { λ c. C.board (cable_of c) };

    ghost made = { LeadsRuns C.made C.breakage };

    ghost line_faults = { λ c. C.line_faults (cable_of c) };

    ghost is_line_last = { λ c. C.is_line_last (cable_of c) };

    ghost pin_faults = { λ c. C.pin_faults (cable_of c) };

    ghost is_pin_last = { λ c. C.is_pin_last (cable_of c) };

    ghost breakage = { λ c. C.breakage (cable_of c) };

    fn clock(&mut self, tms: bool, tdi: bool) -> Result<bool, Failed> {
        match self.cable.clock(tms, tdi) {
            Ok(tdo) => {
                self.runs.hear(tms, tdi, tdo);
                Ok(tdo)
            }
            Err(failed) => {
                self.runs.lose();
                Err(failed)
            }
        }
    }

    fn shift_block(&mut self, tdi: u64, n: u32, last: bool) -> Result<u64, Failed> {
        match self.cable.shift_block(tdi, n, last) {
            Ok(tdo) => {
                self.runs.hear_block(tdi, tdo, n, last);
                Ok(tdo)
            }
            Err(failed) => {
                self.runs.lose();
                Err(failed)
            }
        }
    }

    fn usec(&mut self, n: u32) -> Result<(), Failed> {
        match self.cable.usec(n) {
            Ok(()) => {
                self.runs.pause(n);
                Ok(())
            }
            Err(failed) => {
                self.runs.lose();
                Err(failed)
            }
        }
    }

    fn hertz(&mut self, n: u32) -> Result<(), Failed> {
        match self.cable.hertz(n) {
            Ok(()) => Ok(()),
            Err(failed) => {
                self.runs.lose();
                Err(failed)
            }
        }
    }

    ghost sound = { λ c cs told. C.sound (cable_of c) cs told };

    ghost none_made = { λ c. nothing_leads C.made C.breakage c (C.none_made (cable_of c)) };

    ghost both_made = { λ a b c front back p q. both_lead C.made C.breakage a b c front back
        (C.both_made (cable_of a) (cable_of b) (cable_of c) front back) p q };
}
