//! A cable whose calls fail where a test wants it.
ghost use Rattle.std.specs.Prelude.{◌≡◌, ◌-◌, ◌^◌, if◌then◌else◌, false, true, None, OnOk, OnErr};
ghost use Rattle.std.proofs.lemmas.Option.{none-some};
ghost use Rattle.tool_io.specs.Causes.{CountKept, CountRose};
ghost use Rattle.scan_paths.specs.Cables.{whole, line};

use scan_paths::Cable;
use std::alloc::Global;
use tool_io::Failed;

/// A cable over another one, whose calls with the listed numbers fail. It keeps the numbers of its waits and its
/// frequencies.
///
/// It tells nothing. Calls are numbered from 1; one that fails does not reach the other cable, and raises the count of
/// faults by one. Once a call has failed, all do.
#[derive(Drop)]
pub struct FailingCable<C> {
    inner: C,
    failing: Vec<u32>,
    number: u32,
    faults: u32,
    is_broken: bool,
    waits: Vec<u32>,
    frequencies: Vec<u32>,
}

impl<C: Cable> FailingCable<C> {
    pub fn over(alloc: Global, inner: C, failing: Vec<u32>) -> FailingCable<C>
        requires { C.breakage inner ≡ whole }
        ensures { ⟦<FailingCable<C> as Cable>⟧.breakage result ≡ whole }
    {
        FailingCable {
            inner,
            failing,
            number: 0,
            faults: 0,
            is_broken: false,
            waits: Vec::new(alloc),
            frequencies: Vec::new(alloc),
        }
    }

    /// Whether these are its waits, in microseconds, and its frequencies, in hertz.
    pub fn has_made(&self, waits: &[u32], frequencies: &[u32]) -> bool {
        self.waits.as_slice() == waits && self.frequencies.as_slice() == frequencies
    }

    // A fault, after which each call fails.
    fn fail(&mut self) -> Failed
        ensures broken { self.new.is_broken ≡ true }
        ensures kept { CountKept self.old.faults self.new.faults
            (self.old.faults ≡ 2 ^ 32 - 1) (self.new.faults ≡ 2 ^ 32 - 1) }
        ensures rose { CountRose self.old.faults self.new.faults (self.new.faults ≡ 2 ^ 32 - 1) }
    {
        self.faults = self.faults.saturating_add(1);
        self.is_broken = true;
        Failed
    }

    // One call more, if it is none that fails.
    fn count(&mut self) -> Result<(), Failed>
        ensures inner { OnOk result (self.new.inner ≡ self.old.inner) }
        ensures unbroken { OnOk result (self.old.is_broken ≡ false) }
        ensures whole { OnOk result (self.new.is_broken ≡ false) }
        ensures broken { OnErr result (self.new.is_broken ≡ true) }
        ensures kept { CountKept self.old.faults self.new.faults
            (self.old.faults ≡ 2 ^ 32 - 1) (self.new.faults ≡ 2 ^ 32 - 1) }
        ensures rose { OnErr result (CountRose self.old.faults self.new.faults (self.new.faults ≡ 2 ^ 32 - 1)) }
    {
        self.number = self.number.saturating_add(1);
        if self.is_broken || self.failing.contains(&self.number) {
            return Err(self.fail());
        }
        Ok(())
    }
}

impl<C: Cable> Cable for FailingCable<C> {
    ghost board = { λ _. None };

    ghost made = { λ _ _ _. Unit {0} };

    ghost line_faults = { λ c. c.faults };

    ghost is_line_last = { λ c. c.faults ≡ 2 ^ 32 - 1 };

    ghost pin_faults = { λ _. 0 };

    ghost is_pin_last = { λ _. ⊥ };

    ghost breakage = { λ c. if c.is_broken then line else C.breakage c.inner };

    fn clock(&mut self, tms: bool, tdi: bool) -> Result<bool, Failed> {
        self.count()?;
        match self.inner.clock(tms, tdi) {
            Ok(tdo) => Ok(tdo),
            Err(_) => Err(self.fail()),
        }
    }

    fn shift_block(&mut self, tdi: u64, n: u32, last: bool) -> Result<u64, Failed> {
        self.count()?;
        match self.inner.shift_block(tdi, n, last) {
            Ok(tdo) => Ok(tdo),
            Err(_) => Err(self.fail()),
        }
    }

    fn usec(&mut self, n: u32) -> Result<(), Failed> {
        self.count()?;
        match self.inner.usec(n) {
            Ok(()) if self.waits.push(n).is_ok() => Ok(()),
            _ => Err(self.fail()),
        }
    }

    fn hertz(&mut self, n: u32) -> Result<(), Failed> {
        self.count()?;
        match self.inner.hertz(n) {
            Ok(()) if self.frequencies.push(n).is_ok() => Ok(()),
            _ => Err(self.fail()),
        }
    }

    ghost sound = { λ c cs told. absurd (none-some cs told) };

    ghost none_made = { λ _. tt };

    ghost both_made = { λ _ _ _ _ _ _ _. tt };
}
