//! The procedure that sets the paddings.
ghost use Rattle.std.specs.Prelude.{◌≡◌, ◌∷◌, ◌++◌, [], ◌<◌, ◌^◌, IfOk, OnOk};
ghost use Rattle.stapl_syntax.specs.Trees.{body_tree, stmt_tree, trees};
ghost use Rattle.canonical_text.specs.Examples.{bare_statement};
ghost use Rattle.scan_paths.specs.Scans.{lengths_of};
ghost use Rattle.carried_plays.specs.CarriedPrograms.{ones_padding, padding_procedure};
ghost use Rattle.carried_plays.specs.CarriedRuns.{AreShort};

use scan_paths::BasePads;
use stapl_lexer::{Name, Padding};
use stapl_syntax::{Body, Expr, Stmt};
use std::alloc::{AllocError, Global};

// A statement without a label.
fn bare(body: Body) -> Stmt
    ensures { stmt_tree result ≡ bare_statement (body_tree body) }
{
    Stmt { label: None, body }
}

// A padding of so many ones.
fn ones(alloc: Global, padding: Padding, n: u32) -> Result<Stmt, AllocError>
    requires { n < 2 ^ 31 }
    ensures { IfOk result (λ statement. stmt_tree statement ≡ ones_padding padding n) }
{
    let length = Box::new(alloc, Expr::Number(n as i32))?;
    Ok(bare(Body::Pad(padding, length, None)))
}

// Appends a statement without a label.
fn push_bare(pieces: &mut Vec<Stmt>, body: Body) -> Result<(), AllocError>
    ensures { OnOk result (trees pieces.new.items ≡ trees pieces.old.items ++ (bare_statement (body_tree body) ∷ [])) }
{
    pieces.push(bare(body))?;
    Ok(())
}

// Appends a padding of so many ones.
fn push_ones(
    alloc: Global,
    pieces: &mut Vec<Stmt>,
    padding: Padding,
    n: u32,
) -> Result<(), AllocError>
    requires { n < 2 ^ 31 }
    ensures { OnOk result (trees pieces.new.items ≡ trees pieces.old.items ++ (ones_padding padding n ∷ [])) }
{
    pieces.push(ones(alloc, padding, n)?)?;
    Ok(())
}

/// The procedure of this name that sets these paddings, six pieces.
pub(crate) fn padding_procedure(
    alloc: Global,
    name: &Name,
    pads: &BasePads,
) -> Result<Vec<Stmt>, AllocError>
    requires { AreShort (lengths_of pads.now) }
    ensures { IfOk result (λ pieces. trees pieces.items ≡ padding_procedure name.now (lengths_of pads.now)) }
{
    let mut pieces = Vec::new(alloc);
    push_bare(&mut pieces, Body::Procedure(*name, None))?;
    push_ones(alloc, &mut pieces, Padding::PreInstruction, pads.pre_ir)?;
    push_ones(alloc, &mut pieces, Padding::PostInstruction, pads.post_ir)?;
    push_ones(alloc, &mut pieces, Padding::PreData, pads.pre_dr)?;
    push_ones(alloc, &mut pieces, Padding::PostData, pads.post_dr)?;
    push_bare(&mut pieces, Body::EndProcedure)?;
    Ok(pieces)
}
