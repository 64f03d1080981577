//! What a turn does over a cable whose clocks are written.
ghost use Rattle.std.specs.Prelude.{◌≡◌, ◌≤◌, length, OnOk, IsTrue};
ghost use Rattle.tap_states.specs.Tap.{is_stable_state};
ghost use Rattle.stapl_meaning.specs.declared.events.Event.TheVariants.{Print, Usec, Hertz};
ghost use Rattle.stapl_meaning.specs.Deeds.{Says, Goes, Stays};
ghost use Rattle.stapl_meaning.specs.Scans.{is_instruction, scan_of};
ghost use Rattle.stapl_code.specs.Safe.{constants_of};
ghost use Rattle.machine_memory.specs.Exports.{export_event};
ghost use Rattle.written_cable.specs.Ports.{IsOpenPort, DoesDeed, DoesScan};

use crate::paper::Paper;
use crate::pin_cable::PinCable;
use machine_memory::effects::Export;
use machine_memory::scan_bits::ScanBits;
use machine_memory::settings::Settings;
use scan_paths::{Cable, ScanPlan, move_to, scan, stay};
use stapl_code::CodeLists;
use stapl_lexer::Register;
use stapl_meaning::Held;
use tap_states::Tap;
use tool_io::Failed;

fn is_instruction(register: Register) -> bool
    ensures { result ≡ is_instruction register }
{
    match register {
        Register::Data => false,
        Register::Instruction => true,
    }
}

/// What a turn does to the outside. Each call has done its deed after `Ok`, whatever others follow, and a front of what
/// that comes to after `Failed`, which comes only if the count of the cable or of the lines rose, or stands at its last
/// value. If the cable tells its board, all its controllers are in the state that is kept here.
impl<C: Cable, O: Paper> PinCable<'_, C, O> {
    ghost use Rattle.written_cable.specs.Pins.{tap_of};

    /// Moves all controllers to a state.
    pub fn go(&mut self, to: Tap) -> Result<(), Failed>
        requires { IsOpenPort C.Cable O.Paper self.old }
        ensures did { DoesDeed C.Cable O.Paper (Goes to) self.old self.new result }
        ensures at { OnOk result (tap_of self.new ≡ to) }
    {
        let at = self.tap;
        let _state = move_to(self, at, to)?;
        self.tap = to;
        Ok(())
    }

    /// Keeps all controllers in their state, which is stable, for n clocks.
    pub fn rest(&mut self, n: u32) -> Result<(), Failed>
        requires open { IsOpenPort C.Cable O.Paper self.old }
        requires stable { IsTrue (is_stable_state (tap_of self.old)) }
        ensures { DoesDeed C.Cable O.Paper (Stays n) self.old self.new result }
    {
        let at = self.tap;
        stay(self, at, n)?;
        Ok(())
    }

    /// Whether all controllers are in a stable state.
    pub fn is_stable(&self) -> bool
        ensures { result ≡ is_stable_state (tap_of self.now) }
    {
        self.tap.is_stable()
    }

    /// Scans these bits through these registers by their settings, with the base padding that is kept here, from the
    /// stable state in which all controllers are. `captured` becomes what was captured.
    pub fn scan(
        &mut self,
        register: Register,
        settings: &Settings,
        bits: &ScanBits,
        captured: &mut ScanBits,
    ) -> Result<(), Failed>
        requires open { IsOpenPort C.Cable O.Paper self.old }
        requires stable { IsTrue (is_stable_state (tap_of self.old)) }
        requires some { 1 ≤ length bits.now }
        requires room { length captured.old ≡ length bits.now }
        ensures did { DoesScan C.Cable O.Paper (scan_of register settings.now bits.now) captured.new
            self.old self.new result }
        ensures length { length captured.new ≡ length captured.old }
    {
        let plan = ScanPlan {
            ir: is_instruction(register),
            len: bits.len(),
            stop: settings.stop(),
            base: self.base,
        };
        let at = self.tap;
        let _state = scan(
            self,
            at,
            plan,
            bits.as_bits(),
            &mut captured.room,
            settings.pads(),
        )?;
        self.tap = plan.stop;
        Ok(())
    }

    /// Prints a text.
    pub fn print(&mut self, text: &[u8]) -> Result<(), Failed>
        requires { IsOpenPort C.Cable O.Paper self.old }
        ensures { DoesDeed C.Cable O.Paper (Says (Print text.now)) self.old self.new result }
    {
        self.finish()?;
        self.torn = true;
        self.out.put_print(text)?;
        self.torn = false;
        Ok(())
    }

    /// Exports what lies in a code or in variables.
    pub fn export(
        &mut self,
        code: &CodeLists,
        variables: &[Held],
        export: Export,
    ) -> Result<(), Failed>
        requires { IsOpenPort C.Cable O.Paper self.old }
        ensures { DoesDeed C.Cable O.Paper
            (Says (export_event (constants_of code.now) variables.now export)) self.old self.new result }
    {
        self.finish()?;
        self.torn = true;
        self.out.put_export(code, variables, export)?;
        self.torn = false;
        Ok(())
    }

    /// Waits for n microseconds.
    pub fn pause(&mut self, n: u32) -> Result<(), Failed>
        requires { IsOpenPort C.Cable O.Paper self.old }
        ensures { DoesDeed C.Cable O.Paper (Says (Usec n)) self.old self.new result }
    {
        self.usec(n)?;
        Ok(())
    }

    /// Sets the frequency of the clocks that follow to n hertz, or states none if n is 0.
    pub fn tune(&mut self, n: u32) -> Result<(), Failed>
        requires { IsOpenPort C.Cable O.Paper self.old }
        ensures { DoesDeed C.Cable O.Paper (Says (Hertz n)) self.old self.new result }
    {
        self.hertz(n)?;
        Ok(())
    }
}
