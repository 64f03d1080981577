//! Paddings that a program sets itself (JESD71, PREIR, POSTIR, PREDR, POSTDR).
ghost use Rattle.std.specs.Prelude.{◌≡◌, ◌≤◌, length, false, IfSome, IfNone};
ghost use Rattle.stapl_syntax.specs.Programs.{piece_limit};
ghost use Rattle.stapl_syntax.specs.Trees.{body_tree, trees};
ghost use Rattle.carried_plays.specs.OwnPaddings.{sets_padding, has_own_padding, IsFirstPadding};

use stapl_syntax::{Body, Stmt};

// Whether a statement sets a padding, also inside IF.
fn sets_padding(body: &Body) -> bool
    ensures { result ≡ sets_padding (body_tree body.now) }
{
    match body {
        Body::Pad(_, _, _) => true,
        Body::If(_, then) => sets_padding(then),
        _ => false,
    }
}

/// The first piece that sets a padding, counted from 1.
pub(crate) fn first_padding(statements: &[Stmt]) -> Option<u32>
    requires { length statements.now ≤ piece_limit }
    ensures first { IfSome result (IsFirstPadding (trees statements.now)) }
    ensures none { IfNone result (has_own_padding (trees statements.now) ≡ false) }
{
    for (i, statement) in statements.iter().enumerate() {
        if sets_padding(&statement.body) {
            return Some(i as u32 + 1);
        }
    }
    None
}
