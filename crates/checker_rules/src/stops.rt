//! In which states a statement leaves the test logic (JESD71, stop states).
ghost use Rattle.std.specs.Prelude.{◌≡◌, not};
ghost use Rattle.std.specs.List.{list_any};
ghost use Rattle.std.specs.Option.{option_to_list};
ghost use Rattle.stapl_syntax.specs.Trees.{body_tree};
ghost use Rattle.stapl_syntax.specs.Rules.{is_stable, last_of, stops_unstable};

use stapl_syntax::Body;

// Whether a state is RESET, IDLE, DRPAUSE or IRPAUSE, by its number.
fn is_stable(state: u8) -> bool
    ensures { result ≡ is_stable state }
{
    state == 0 || state == 1 || state == 6 || state == 13
}

// Whether a state that may be missing is given and not stable.
fn is_unstable_if_given(state: &Option<u8>) -> bool
    ensures { result ≡ list_any (λ state. not (is_stable state)) (option_to_list state.now) }
{
    match state {
        Some(state) => !is_stable(*state),
        None => false,
    }
}

// Whether the last of the states is not stable.
#[tactic(auto, using(crate::proofs::StopLemmas::last_as_given))]
fn ends_unstable(states: &[u8]) -> bool
    ensures { result ≡ list_any (λ state. not (is_stable state)) (last_of states.now) }
{
    match states.last() {
        Some(state) => !is_stable(*state),
        None => false,
    }
}

/// Whether the test logic stays in a state that is not stable.
pub(crate) fn stops_unstable(body: &Body) -> bool
    ensures { result ≡ stops_unstable (body_tree body.now) }
{
    match body {
        Body::Stop(_, state) => !is_stable(*state),
        Body::State(states) => ends_unstable(states.as_slice()),
        Body::WaitCycles(state, _, _, last) => {
            is_unstable_if_given(state) || is_unstable_if_given(last)
        }
        Body::WaitUsec(state, _, last) => is_unstable_if_given(state) || is_unstable_if_given(last),
        Body::If(_, body) => stops_unstable(body),
        _ => false,
    }
}
