//! What is kept of the statements before a piece.
ghost use Rattle.std.specs.Prelude.{◌≡◌, ◌≤◌, ◌<◌, ◌+◌, ◌^◌, [], false, is_some};
ghost use Rattle.stapl_syntax.specs.Trees.{body_tree};
ghost use Rattle.stapl_syntax.specs.Names.{Names, inside_next};
ghost use Rattle.stapl_syntax.specs.Rules.{in_data_block, is_action, is_block, is_crc};
ghost use Rattle.checker_rules.specs.Scopes.{named, IsInside};
ghost use Rattle.checker_rules.specs.Places.{place_of};
ghost use Rattle.checker_rules.specs.Courses.{BeginsListed, place_next, GoesOn, IsCourse};

use crate::order::Place;
use crate::sizes::Totals;
use stapl_names::Names;
use stapl_syntax::Body;

/// What is kept of the statements before a piece.
#[derive(Clone, Copy)]
pub struct Course {
    /// The number of the open block.
    pub inside: Option<u32>,
    /// Where the piece stands.
    pub place: Place,
    /// How many elements are declared.
    pub before: Totals,
}

fn is_action(body: &Body) -> bool
    ensures { result ≡ is_action (body_tree body.now) }
{
    matches!(body, Body::Action(_, _, _))
}

fn is_block(body: &Body) -> bool
    ensures { result ≡ is_block (body_tree body.now) }
{
    matches!(body, Body::Procedure(_, _) | Body::Data(_))
}

fn is_crc(body: &Body) -> bool
    ensures { result ≡ is_crc (body_tree body.now) }
{
    matches!(body, Body::Crc(_))
}

// Whether the open block is a DATA block.
fn in_data_block(names: &Names, inside: Option<u32>) -> bool
    requires { IsInside names.now inside }
    ensures { result ≡ in_data_block names.now (named names.now inside) }
{
    match inside {
        Some(block) => names.block_at(block).is_data,
        None => false,
    }
}

// The block that is open after a statement, if this one was open before it.
fn inside_after(names: &Names, inside: Option<u32>, body: &Body) -> Option<u32>
    requires within { IsInside names.now inside }
    requires listed { BeginsListed names.now (body_tree body.now) }
    ensures named { named names.now result ≡ inside_next (named names.now inside) (body_tree body.now) }
    ensures within { IsInside names.now result }
{
    match body {
        Body::Procedure(name, _) => names.block(name),
        Body::Data(name) => names.block(name),
        Body::EndProcedure | Body::EndData => None,
        _ => inside,
    }
}

// The place after a statement after which this block is open.
fn place_after(names: &Names, inside: Option<u32>, before: Place, body: &Body) -> Place
    requires { IsInside names.now inside }
    ensures { place_of result ≡ place_next names.now (named names.now inside) (place_of before) (body_tree body.now) }
{
    let in_data = in_data_block(names, inside);
    Place {
        in_procedure: inside.is_some() && !in_data,
        in_data,
        after_action: before.after_action || is_action(body),
        after_block: before.after_block || is_block(body),
        after_crc: before.after_crc || is_crc(body),
    }
}

impl Course {
    /// What is kept before the first piece.
    pub fn first() -> Course
        ensures { (names : Names) → IsCourse names [] 0 result }
    {
        Course {
            inside: None,
            place: Place {
                in_procedure: false,
                in_data: false,
                after_action: false,
                after_block: false,
                after_crc: false,
            },
            before: Totals::none(),
        }
    }

    /// What is kept after one more statement.
    pub fn after(self, names: &Names, body: &Body) -> Course
        requires within { IsInside names.now self.inside }
        requires listed { BeginsListed names.now (body_tree body.now) }
        requires booleans { self.before.booleans + 2 ^ 31 < 2 ^ 64 }
        requires integers { self.before.integers + 2 ^ 31 < 2 ^ 64 }
        ensures { GoesOn names.now (body_tree body.now) self result }
    {
        let inside = inside_after(names, self.inside, body);
        Course {
            inside,
            place: place_after(names, inside, self.place, body),
            before: self.before.after(body),
        }
    }
}
