//! The machine.
ghost use Rattle.std.specs.Prelude.{◌≡◌, ◌≤◌, ◌+◌, ◌*◌, [], false, length, IfOk};
ghost use Rattle.tool_io.specs.Causes.{HasCause};
ghost use Rattle.tool_io.specs.Lines.{IsWhole};
ghost use Rattle.scan_paths.specs.Cables.{whole, line, pins, HasPartCause, cable_faults, IsCableLast};
ghost use Rattle.scan_paths.specs.Scans.{lengths_of};
ghost use Rattle.stapl_code.specs.Safe.{AllBelow};
ghost use Rattle.written_cable.specs.OnPaper.{lines_paper};
ghost use Rattle.written_cable.specs.Resets.{kept_digits};
ghost use Rattle.written_cable.specs.Ports.{KeepsParts};
ghost use Rattle.stapl_machine.specs.Machines.{play_of, play_ticks_of, IsPrepared, IsReady, IsResetCable, HasReset, digits_in, workspace_in, IsPlayedSo};

use crate::runs::play_out;
use base::Steps;
use machine_memory::memory::{Memory, Workspace};
use scan_paths::{BasePads, Cable};
use stapl_code::laws::{codes_hold_their_depth, never_stuck, plays_are_bounded};
use stapl_instructions::print_room;
use stapl_meaning::Ending;
use std::alloc::{AllocError, Global};
use std::sync::ledger::Ledger;
use tap_states::Tap;
use tool_io::{Failed, Lines, Sink};
use valid_codes::Code;
use written_cable::{Digits, Paper, PinCable, Trouble, five_ones};

/// The stack machine, for one run of a code.
#[derive(Drop)]
pub struct Machine {
    work: Workspace,
    digits: Digits,
}

impl Machine {
    /// A machine for one run of this code: its variables are 0, it holds neither operand nor record, and scans have no
    /// padding and end in Run-Test/Idle. It takes all memory that the run needs: of the variables, of as many operands
    /// as the code holds at once, of the most records there may be, of the longest text that the code prints, and of
    /// the longest scan and the longest paddings.
    ///
    /// `AllocError` comes only for want of memory.
    pub fn prepare(alloc: Global, code: &Code) -> Result<Machine, AllocError>
        ensures { IfOk result (IsPrepared code.now) }
    {
        codes_hold_their_depth();
        let lists = code.raw().lists();
        let Some(most) = print_room(lists) else {
            return Err(AllocError);
        };
        let operands = Vec::with_capacity(alloc, code.depth() as usize)?;
        let Ok(text) = Vec::with_capacity(alloc, most) else {
            drop(operands);
            return Err(AllocError);
        };
        let Ok(memory) = Memory::first(alloc, lists.variables.as_slice()) else {
            drop(operands);
            drop(text);
            return Err(AllocError);
        };
        Ok(Machine {
            work: Workspace {
                memory,
                operands,
                text,
                next: 0,
                piece: 0,
            },
            digits: Digits::none(),
        })
    }

    /// Makes five clocks with TMS 1, which lead any controller to its reset state (IEEE 1149.1, TAP controller state
    /// diagram), and keeps their digits for the run.
    ///
    /// `Failed` only if the count of the part of the cable that is broken then rose, or stands at its last value.
    pub fn reset_chain<C: Cable>(&mut self, cable: &mut C) -> Result<(), Failed>
        requires whole { C.breakage cable.old ≡ whole }
        requires no_digit { digits_in self.old ≡ [] }
        ensures ready { (code : _) → IsReady code self.old → IsReady code self.new }
        ensures reset { HasReset C.Cable cable.old cable.new (digits_in self.new) result }
        ensures line { HasPartCause line C.line_faults C.is_line_last C.breakage cable.old cable.new }
        ensures pins { HasPartCause pins C.pin_faults C.is_pin_last C.breakage cable.old cable.new }
        ensures cause { HasCause (cable_faults C.line_faults C.pin_faults)
            (IsCableLast C.is_line_last C.is_pin_last) cable.old cable.new result }
    {
        five_ones(cable, &mut self.digits)
    }

    /// What the machine keeps for a run, given up.
    pub fn into_workspace(self) -> Workspace
        ensures { result ≡ workspace_in self }
    {
        let Machine { work, digits } = self;
        drop(digits);
        work
    }

    // The digits that a run begins with.
    fn first_digits(&self, pins: bool) -> Digits
        ensures { result ≡ kept_digits pins (digits_in self.now) }
    {
        if pins {
            return self.digits.copied();
        }
        Digits::none()
    }

    // The run over any paper. It is a function of its own, since a port gives a paper back only if that is a parameter of
    // the function that lends it.
    fn run_on<C: Cable, O: Paper, L: Ledger>(
        &mut self,
        code: &Code,
        chosen: &[u32],
        base: &BasePads,
        cable: &mut C,
        out: &mut O,
        pins: bool,
        turns: u32,
        steps: &mut Steps<L>,
    ) -> Result<Ending, Trouble>
        requires ready { IsReady code.now self.old }
        requires chosen { AllBelow (length code.now.procedures) chosen.now }
        requires reset { IsResetCable C.Cable cable.old }
        requires whole { O.failed out.old ≡ false }
        ensures played { IsPlayedSo C.Cable O.Paper pins (digits_in self.old) (lengths_of base.now)
            (play_of code.now chosen.now turns) (play_ticks_of code.now chosen.now turns)
            cable.old out.old steps.old result cable.new out.new steps.new self.new }
        ensures bounded { steps.new ≤ steps.old + (turns + 1) * length code.now.instrs }
        ensures kept { KeepsParts C.Cable O.Paper cable.old out.old cable.new out.new result }
    {
        never_stuck();
        plays_are_bounded();
        let lists = code.raw().lists();
        let digits = self.first_digits(pins);
        let mut port = PinCable::over(cable, out, Tap::Reset, digits, pins, *base);
        match play_out(lists, chosen, &mut self.work, &mut port, turns, steps) {
            Ok(Some(ending)) => Ok(ending),
            Ok(None) => unreachable!(),
            Err(trouble) => Err(trouble),
        }
    }

    /// Runs the prologue of the code, and then at most so many turns of the chosen procedures, which are told by their
    /// numbers, over a cable whose controllers are all in the reset state. Each scan has this base padding around what
    /// the program shifts. It puts the lines of the events, with those of the clocks if `pins` is true, and answers how
    /// the run ended: with `Spent` if it still goes on after these turns. Each instruction is one step.
    ///
    /// It takes no memory. `CableFault` comes only if the count of faults of the cable rose, or stands at its last
    /// value, and `WriteFault` only if that of the sink did.
    pub fn run<C: Cable, K: Sink, L: Ledger>(
        &mut self,
        code: &Code,
        chosen: &[u32],
        base: &BasePads,
        cable: &mut C,
        out: &mut Lines<K>,
        pins: bool,
        turns: u32,
        steps: &mut Steps<L>,
    ) -> Result<Ending, Trouble>
        requires ready { IsReady code.now self.old }
        requires chosen { AllBelow (length code.now.procedures) chosen.now }
        requires reset { IsResetCable C.Cable cable.old }
        requires whole { IsWhole out.old }
        ensures played { IsPlayedSo C.Cable (lines_paper K.Sink) pins (digits_in self.old) (lengths_of base.now)
            (play_of code.now chosen.now turns) (play_ticks_of code.now chosen.now turns)
            cable.old out.old steps.old result cable.new out.new steps.new self.new }
        ensures bounded { steps.new ≤ steps.old + (turns + 1) * length code.now.instrs }
        ensures kept { KeepsParts C.Cable (lines_paper K.Sink) cable.old out.old cable.new out.new result }
    {
        match self.run_on(code, chosen, base, cable, out, pins, turns, steps) {
            Ok(ending) => Ok(ending),
            Err(trouble) => Err(trouble),
        }
    }
}
