//! Which rule a statement breaks.
ghost use Rattle.std.specs.Prelude.{◌≡◌, ◌<◌, ◌+◌, ◌^◌};
ghost use Rattle.stapl_syntax.specs.Trees.{body_tree, stmt_tree};
ghost use Rattle.checker_rules.specs.Scopes.{IsInside, known_of};
ghost use Rattle.checker_rules.specs.Counts.{totals_of};
ghost use Rattle.checker_rules.specs.Courses.{facts_in};
ghost use Rattle.checker_rules.specs.BrokenRules.{operands_broken, rule_broken};

use crate::course::Course;
use crate::kinds::is_well_kinded;
use crate::mentions::name_faults;
use crate::repeats::declares_again;
use crate::scope::Scope;
use crate::sizes::{Totals, passes_a_limit};
use crate::stops::stops_unstable;
use stapl_lexer::Reason;
use stapl_names::Names;
use stapl_syntax::{Body, Stmt};

// Which of the last three rules a statement breaks: the kinds of its operands, where it stops, how many elements it
// declares.
fn broken_operands(scope: &Scope, before: Totals, body: &Body) -> Option<Reason>
    requires booleans { before.booleans + 2 ^ 31 < 2 ^ 64 }
    requires integers { before.integers + 2 ^ 31 < 2 ^ 64 }
    ensures { result ≡ operands_broken (known_of scope.now) (totals_of before) (body_tree body.now) }
{
    if !is_well_kinded(scope, body) {
        return Some(Reason::TypeMismatch);
    }
    if stops_unstable(body) {
        return Some(Reason::NotStable);
    }
    if passes_a_limit(before, body) {
        return Some(Reason::SizeLimit);
    }
    None
}

/// The smallest reason against the statement of the piece with this number, by what stood before it.
pub fn broken_rule(names: &Names, course: Course, number: u32, statement: &Stmt) -> Option<Reason>
    requires within { IsInside names.now course.inside }
    requires booleans { course.before.booleans + 2 ^ 31 < 2 ^ 64 }
    requires integers { course.before.integers + 2 ^ 31 < 2 ^ 64 }
    ensures { result ≡ rule_broken (facts_in names.now course number) (stmt_tree statement.now) }
{
    let scope = Scope::new(names, course.inside);
    if !course.place.may_stand(&statement.label, &statement.body) {
        return Some(Reason::Order);
    }
    if declares_again(&scope, number, statement) {
        return Some(Reason::Duplicate);
    }
    let faults = name_faults(&scope, &statement.body);
    if faults.undefined {
        return Some(Reason::Undefined);
    }
    if faults.hidden {
        return Some(Reason::NotVisible);
    }
    broken_operands(&scope, course.before, &statement.body)
}
