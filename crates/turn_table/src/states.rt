//! How many states the statements of a program list.
ghost use Rattle.std.specs.Prelude.{◌≡◌};
ghost use Rattle.stapl_syntax.specs.Trees.{body_tree};
ghost use Rattle.stapl_syntax.specs.ProgramValues.{trees_of};
ghost use Rattle.scan_accounts.specs.Rooms.{states_in, most_states};

use stapl_syntax::{Body, Program};

// How many states a STATE lists, or an IF over one.
fn states_in(body: &Body) -> usize
    ensures { result ≡ states_in (body_tree body.now) }
{
    match body {
        Body::State(states) => states.len(),
        Body::If(_, then) => states_in(then),
        _ => 0,
    }
}

/// The most states that a STATE of a program lists, which may stand under an IF; 0 if there is none (JESD71, STATE). By
/// this number is told how much room the runs of one turn need. No memory is taken, and the time is linear in the
/// number of statements.
pub fn most_states(program: &Program) -> usize
    ensures { result ≡ most_states (trees_of program.now) }
{
    let statements = program.statements();
    let mut most = 0;
    for statement in statements {
        most = most.max(states_in(&statement.body));
    }
    most
}
