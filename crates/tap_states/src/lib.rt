//! The states of the controller of a test access port (IEEE 1149.1), and the paths between them.
#![tactic(auto)]

ghost use Rattle.std.specs.Prelude.{◌≡◌, ◌<◌, ◌≤◌, ◌^◌};
ghost use Rattle.tap_states.specs.Tap.{next_of, tap_number, is_stable_state};
ghost use Rattle.tap_states.specs.Path.{path_bits, path_of, IsPath, Leads};
ghost use Rattle.tap_states.specs.PathTable.{path_row};

pub mod laws;
mod paths;

use paths::PATHS;

/// A state of the controller (IEEE 1149.1, TAP controller state diagram), in the order of the states' numbers.
///
/// `Reset` is the standard's Test-Logic-Reset and `Idle` its Run-Test/Idle. `Dr` and `Ir` in front of a name stand for
/// its endings -DR and -IR: `DrShift` is Shift-DR.
#[derive(Clone, Copy, PartialEq, Eq)]
pub enum Tap {
    Reset,
    Idle,
    DrSelect,
    DrCapture,
    DrShift,
    DrExit1,
    DrPause,
    DrExit2,
    DrUpdate,
    IrSelect,
    IrCapture,
    IrShift,
    IrExit1,
    IrPause,
    IrExit2,
    IrUpdate,
}

impl Tap {
    /// The state with this number, from 0 to 15 in the order of the variants.
    pub fn from_number(n: u8) -> Tap
        requires { n < 16 }
        ensures { tap_number result ≡ n }
    {
        match n {
            0 => Tap::Reset,
            1 => Tap::Idle,
            2 => Tap::DrSelect,
            3 => Tap::DrCapture,
            4 => Tap::DrShift,
            5 => Tap::DrExit1,
            6 => Tap::DrPause,
            7 => Tap::DrExit2,
            8 => Tap::DrUpdate,
            9 => Tap::IrSelect,
            10 => Tap::IrCapture,
            11 => Tap::IrShift,
            12 => Tap::IrExit1,
            13 => Tap::IrPause,
            14 => Tap::IrExit2,
            _ => Tap::IrUpdate,
        }
    }

    /// The number of the state, from 0 to 15 in the order of the variants.
    pub fn number(self) -> u8
        ensures value { result ≡ tap_number self }
        ensures below { result < 16 }
    {
        match self {
            Tap::Reset => 0,
            Tap::Idle => 1,
            Tap::DrSelect => 2,
            Tap::DrCapture => 3,
            Tap::DrShift => 4,
            Tap::DrExit1 => 5,
            Tap::DrPause => 6,
            Tap::DrExit2 => 7,
            Tap::DrUpdate => 8,
            Tap::IrSelect => 9,
            Tap::IrCapture => 10,
            Tap::IrShift => 11,
            Tap::IrExit1 => 12,
            Tap::IrPause => 13,
            Tap::IrExit2 => 14,
            Tap::IrUpdate => 15,
        }
    }

    /// The state after one clock with this TMS.
    pub fn next(self, tms: bool) -> Tap
        ensures { result ≡ next_of self tms }
    {
        match (self, tms) {
            (Tap::Reset, false) => Tap::Idle,
            (Tap::Reset, true) => Tap::Reset,
            (Tap::Idle, false) => Tap::Idle,
            (Tap::Idle, true) => Tap::DrSelect,
            (Tap::DrSelect, false) => Tap::DrCapture,
            (Tap::DrSelect, true) => Tap::IrSelect,
            (Tap::DrCapture, false) => Tap::DrShift,
            (Tap::DrCapture, true) => Tap::DrExit1,
            (Tap::DrShift, false) => Tap::DrShift,
            (Tap::DrShift, true) => Tap::DrExit1,
            (Tap::DrExit1, false) => Tap::DrPause,
            (Tap::DrExit1, true) => Tap::DrUpdate,
            (Tap::DrPause, false) => Tap::DrPause,
            (Tap::DrPause, true) => Tap::DrExit2,
            (Tap::DrExit2, false) => Tap::DrShift,
            (Tap::DrExit2, true) => Tap::DrUpdate,
            (Tap::DrUpdate, false) => Tap::Idle,
            (Tap::DrUpdate, true) => Tap::DrSelect,
            (Tap::IrSelect, false) => Tap::IrCapture,
            (Tap::IrSelect, true) => Tap::Reset,
            (Tap::IrCapture, false) => Tap::IrShift,
            (Tap::IrCapture, true) => Tap::IrExit1,
            (Tap::IrShift, false) => Tap::IrShift,
            (Tap::IrShift, true) => Tap::IrExit1,
            (Tap::IrExit1, false) => Tap::IrPause,
            (Tap::IrExit1, true) => Tap::IrUpdate,
            (Tap::IrPause, false) => Tap::IrPause,
            (Tap::IrPause, true) => Tap::IrExit2,
            (Tap::IrExit2, false) => Tap::IrShift,
            (Tap::IrExit2, true) => Tap::IrUpdate,
            (Tap::IrUpdate, false) => Tap::Idle,
            (Tap::IrUpdate, true) => Tap::DrSelect,
        }
    }

    /// Whether the state is stable (JESD71): `Reset`, `Idle`, `IrPause` and `DrPause` are, and no other.
    pub fn is_stable(self) -> bool
        ensures { result ≡ is_stable_state self }
    {
        matches!(self, Tap::Reset | Tap::Idle | Tap::IrPause | Tap::DrPause)
    }
}

/// A list of at most 8 TMS values.
#[derive(Clone, Copy)]
pub struct Path {
    /// How many values there are, one for each clock.
    pub len: u32,
    /// The values, the first in bit 0; the bits above the length are 0.
    pub bits: u32,
}

impl Tap {
    /// The path from one state to another.
    ///
    /// To `Reset` it is always five times 1. To any other state it is the shortest list of TMS values that leads there,
    /// among equals the one that comes first in the order of lists, where 0 comes before 1. From such a state to itself
    /// it is empty.
    pub fn path(from: Tap, to: Tap) -> Path
        ensures path { IsPath from to (path_bits result) }
        ensures leads { Leads from (path_bits result) to }
        ensures short { result.len ≤ 8 }
        ensures no_more_bits { result.bits < 2 ^ result.len }
        ensures is { path_bits result ≡ path_of from to }
    {
        Tap::row(from, to)
    }

    fn row(from: Tap, to: Tap) -> Path
        ensures { result ≡ path_row from to }
    {
        PATHS[from.number() as usize * 16 + to.number() as usize]
    }
}
