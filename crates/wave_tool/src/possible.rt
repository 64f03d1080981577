//! In which states the controllers may be.
ghost use Rattle.std.specs.Prelude.{◌≡◌};
ghost use Rattle.wave_tool.specs.States.{all_states, are_all, states_after, settled_state};
ghost use Rattle.wave_tool.specs.Found.{states_held};

use tap_states::Tap;

/// In which states the controllers may be, of which nothing was known before the first clock.
#[derive(Clone, Copy)]
pub enum Possible {
    /// The state to which the clocks have led from each of the sixteen, in the order of their numbers.
    Each([Tap; 16]),
    /// The one state to which they have led from each.
    One(Tap),
}

// All states.
const ALL_STATES: [Tap; 16] = [
    Tap::Reset,
    Tap::Idle,
    Tap::DrSelect,
    Tap::DrCapture,
    Tap::DrShift,
    Tap::DrExit1,
    Tap::DrPause,
    Tap::DrExit2,
    Tap::DrUpdate,
    Tap::IrSelect,
    Tap::IrCapture,
    Tap::IrShift,
    Tap::IrExit1,
    Tap::IrPause,
    Tap::IrExit2,
    Tap::IrUpdate,
];

// Makes a clock with this TMS in each state.
fn lead_on(states: &mut [Tap], tms: bool)
    ensures { states.new ≡ states_after states.old tms }
{
    for state in states.iter_mut() {
        *state = state.next(tms);
    }
}

// Whether each state is this one.
fn are_all(states: &[Tap], state: Tap) -> bool
    ensures { result ≡ are_all states.now state }
{
    states.iter().all(|other| other.number() == state.number())
}

// The state, if it is the same in all.
fn one_state(states: &[Tap]) -> Option<Tap>
    ensures { result ≡ settled_state states.now }
{
    let [first, ..] = states else {
        return None;
    };
    if are_all(states, *first) {
        Some(*first)
    } else {
        None
    }
}

// The states as one, if they are one.
fn joined(states: [Tap; 16]) -> Possible
    ensures { states_held result ≡ states }
{
    match one_state(&states) {
        Some(state) => Possible::One(state),
        None => Possible::Each(states),
    }
}

impl Possible {
    /// All states.
    pub fn all() -> Possible
        ensures { states_held result ≡ all_states }
    {
        Possible::Each(ALL_STATES)
    }

    /// The states after a clock with this TMS.
    pub fn after(self, tms: bool) -> Possible
        ensures { states_held result ≡ states_after (states_held self) tms }
    {
        match self {
            Possible::Each(mut states) => {
                lead_on(&mut states, tms);
                joined(states)
            }
            Possible::One(state) => Possible::One(state.next(tms)),
        }
    }

    /// The state, if all controllers are in one.
    pub fn settled(self) -> Option<Tap>
        ensures { result ≡ settled_state (states_held self) }
    {
        match self {
            Possible::Each(states) => one_state(&states),
            Possible::One(state) => Some(state),
        }
    }
}
