//! The first fault of a text whose pieces are read.
ghost use Rattle.std.specs.Prelude.{◌≡◌, ◌≤◌, ◌+◌, List, length, map, All};
ghost use Rattle.std.specs.Option.{option_map};
ghost use Rattle.stapl_lexer.specs.Pieces.{text_limit};
ghost use Rattle.stapl_syntax.specs.Trees.{stmt_tree};
ghost use Rattle.stapl_syntax.specs.Names.{numbered, names_of};
ghost use Rattle.checker_rules.specs.Courses.{BeginsListed};
ghost use Rattle.stapl_checker.specs.Judgements.{What, what_trees};
ghost use Rattle.stapl_checker.specs.Readings.{IsToldBy};
ghost use Rattle.stapl_checker.specs.Firsts.{front_of, first_by, reason_of_course, IsFirstFaultOf};

use crate::reading::{Reading, Unread};
use crate::walk::{Walked, unless_late, walk};
use checker_rules::Course;
use stapl_lexer::Reason;
use stapl_names::Names;

/// A fault: the index of a piece, or the number of pieces for the end of the text, and the reason.
#[derive(Clone, Copy)]
pub(crate) struct Fault {
    pub index: u32,
    pub reason: Reason,
}

// How many pieces are statements before the first that is none.
fn front_of(reading: &Reading) -> usize
    ensures { result ≡ front_of reading.now }
{
    match reading.unread {
        Some(unread) => unread.index as usize,
        None => reading.statements.len(),
    }
}

// The reason of the end of a text.
fn reason_of_course(course: Course) -> Option<Reason>
    ensures { result ≡ reason_of_course course }
{
    if course.inside.is_some() {
        return Some(Reason::NotClosed);
    }
    if course.place.after_action {
        return None;
    }
    Some(Reason::NothingToDo)
}

// The fault at an index, if there is a reason.
fn fault_at(index: u32, reason: Option<Reason>) -> Option<Fault>
    ensures { result ≡ option_map (λ reason. record { index = index; reason = reason }) reason }
{
    match reason {
        Some(reason) => Some(Fault { index, reason }),
        None => None,
    }
}

// The fault after the statements before the first piece that is none, or at the end.
fn fault_after(course: Course, unread: Option<Unread>, count: u32) -> Option<Fault>
    ensures { result ≡ first_by unread count course }
{
    match unread {
        Some(unread) => fault_at(unread.index, unless_late(unread.index, Some(unread.reason))),
        None => fault_at(count, reason_of_course(course)),
    }
}

/// The first fault of a text, if it has one.
pub(crate) fn first_fault(names: &Names, reading: &Reading) -> Option<Fault>
    requires few { length reading.now.statements.items ≤ text_limit + 1 }
    requires front { front_of reading.now ≤ length reading.now.statements.items }
    requires listed { All (λ st. BeginsListed names.now st.body) (map stmt_tree reading.now.statements.items) }
    ensures { (whats : List What) → IsToldBy whats reading.now →
        names.now ≡ names_of (numbered (what_trees whats)) →
        IsFirstFaultOf whats (map stmt_tree reading.now.statements.items) result }
{
    let statements = &reading.statements[..front_of(reading)];
    match walk(names, statements) {
        Walked::Stops(index, reason) => Some(Fault { index, reason }),
        Walked::Ends(course) => fault_after(course, reading.unread, statements.len() as u32),
    }
}
