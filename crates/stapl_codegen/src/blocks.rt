//! Which statements play: those of no DATA block.
ghost use Rattle.std.specs.Prelude.{◌≡◌, None, not};
ghost use Rattle.stapl_syntax.specs.Trees.{body_tree};
ghost use Rattle.stapl_meaning.specs.Scopes.{data_after, plays, has_initial_value};

use stapl_lexer::Name;
use stapl_syntax::Body;

/// The DATA block that is open after a statement, if this one was open before it.
pub(crate) fn data_after(block: Option<Name>, body: &Body) -> Option<Name>
    ensures { result ≡ data_after block (body_tree body.now) }
{
    match body {
        Body::Data(name) => Some(*name),
        Body::EndData => None,
        _ => block,
    }
}

fn is_data(body: &Body) -> bool
    ensures { result ≡ not (plays None (body_tree body.now)) }
{
    match body {
        Body::Data(_) => true,
        _ => false,
    }
}

/// Whether a statement is no part of a DATA block.
pub(crate) fn plays(block: &Option<Name>, body: &Body) -> bool
    ensures { result ≡ plays block.now (body_tree body.now) }
{
    match block {
        Some(_) => false,
        None => !is_data(body),
    }
}

/// Whether a declaration has an initial value.
pub(crate) fn has_initial_value(body: &Body) -> bool
    ensures { result ≡ has_initial_value (body_tree body.now) }
{
    match body {
        Body::Boolean(_, Some(_))
        | Body::BooleanArray(_, _, Some(_))
        | Body::Integer(_, Some(_))
        | Body::IntegerArray(_, _, Some(_)) => true,
        _ => false,
    }
}
