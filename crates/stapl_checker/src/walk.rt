//! The walk through the statements of a text, up to the first that breaks a rule.
ghost use Rattle.std.specs.Prelude.{◌≡◌, ◌≤◌, ◌<◌, ◌+◌, ◌-◌, ◌^◌, length, map, All};
ghost use Rattle.stapl_lexer.specs.Pieces.{text_limit};
ghost use Rattle.stapl_syntax.specs.Trees.{stmt_tree};
ghost use Rattle.checker_rules.specs.Scopes.{IsInside};
ghost use Rattle.checker_rules.specs.Courses.{BeginsListed, facts_in};
ghost use Rattle.checker_rules.specs.BrokenRules.{rule_broken};
ghost use Rattle.stapl_checker.specs.Walks.{IsWalked};
ghost use Rattle.stapl_checker.specs.Judgements.{unless_late};

use checker_rules::{Course, broken_rule};
use stapl_lexer::Reason;
use stapl_names::Names;
use stapl_syntax::Stmt;

/// The most pieces of a text.
pub(crate) const PIECE_LIMIT: usize = 100_000;

/// What the walk finds.
#[derive(Clone, Copy)]
pub(crate) enum Walked {
    /// The statement with this index breaks a rule: its smallest reason.
    Stops(u32, Reason),
    /// No statement does: what is kept at the end.
    Ends(Course),
}

/// The reason of a piece with this index, if it has this one unless it is one too many.
pub(crate) fn unless_late(index: u32, reason: Option<Reason>) -> Option<Reason>
    ensures { result ≡ unless_late index reason }
{
    if index as usize >= PIECE_LIMIT {
        Some(Reason::TooManyPieces)
    } else {
        reason
    }
}

// The smallest reason against the statement with this index.
fn reason_here(names: &Names, course: Course, index: u32, statement: &Stmt) -> Option<Reason>
    requires small { index < 2 ^ 32 - 1 }
    requires within { IsInside names.now course.inside }
    requires booleans { course.before.booleans + 2 ^ 31 < 2 ^ 64 }
    requires integers { course.before.integers + 2 ^ 31 < 2 ^ 64 }
    ensures { result ≡
        unless_late index (rule_broken (facts_in names.now course (index + 1)) (stmt_tree statement.now)) }
{
    unless_late(index, broken_rule(names, course, index + 1, statement))
}

/// Goes through the first statements of a program.
pub(crate) fn walk(names: &Names, statements: &[Stmt]) -> Walked
    requires few { length statements.now ≤ text_limit + 1 }
    requires listed { All (λ st. BeginsListed names.now st.body) (map stmt_tree statements.now) }
    ensures { IsWalked names.now (map stmt_tree statements.now) result }
{
    let mut course = Course::first();
    for (i, statement) in statements.iter().enumerate() {
        match reason_here(names, course, i as u32, statement) {
            Some(reason) => return Walked::Stops(i as u32, reason),
            None => {}
        }
        course = course.after(names, &statement.body);
    }
    Walked::Ends(course)
}
