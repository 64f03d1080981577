//! How many literals the pieces of a program have.
ghost use Rattle.std.specs.Prelude.{◌≡◌, ◌≤◌, ◌+◌, [], Some, length, option_map, IfOk, if◌then◌else◌};
ghost use Rattle.std.specs.Box.{box_value};
ghost use Rattle.stapl_syntax.specs.Trees.{export, array_tree, compare_tree, export_tree, body_tree, end_data};
ghost use Rattle.stapl_meaning.specs.Scopes.{plays, preset_of};
ghost use Rattle.stapl_codegen.specs.Emit.{array_literals, given_literals, compare_literals, row_literals, preset_items, body_literals};

use crate::blocks::plays;
use stapl_lexer::Name;
use stapl_syntax::{ArrayExpr, Body, Compare, Exported, Expr};
use std::alloc::AllocError;

/// The sum of two counts. One that is no `usize` is answered as want of memory; no text that is read has so many
/// literals.
pub(crate) fn sum(a: usize, b: usize) -> Result<usize, AllocError>
    ensures { IfOk result (λ n. n ≡ a + b) }
{
    match a.checked_add(b) {
        Some(n) => Ok(n),
        None => Err(AllocError),
    }
}

fn in_array(a: &ArrayExpr) -> usize
    ensures count { result ≡ length (array_literals (array_tree a.now)) }
    ensures few { result ≤ 1 }
{
    match a {
        ArrayExpr::Literal(_) => 1,
        ArrayExpr::Whole(_) | ArrayExpr::Range(_, _, _) | ArrayExpr::OfInt(_) => 0,
    }
}

fn in_given(a: &Option<Box<ArrayExpr>>) -> usize
    ensures { result ≡ length (given_literals (option_map (λ a. array_tree (box_value a)) a.now)) }
{
    match a {
        Some(a) => in_array(a),
        None => 0,
    }
}

fn in_comparison(c: &Compare) -> usize
    ensures count { result ≡ length (compare_literals (Some (compare_tree c.now))) }
    ensures few { result ≤ 2 }
{
    match &c.cell {
        Expr::Scalar(_) | Expr::Element(_, _) => in_array(&c.expected) + in_array(&c.mask),
        _ => 0,
    }
}

fn in_compare(compare: &Option<Box<Compare>>) -> usize
    ensures count { result ≡ length (compare_literals (option_map (λ c. compare_tree (box_value c)) compare.now)) }
    ensures few { result ≤ 2 }
{
    match compare {
        Some(c) => in_comparison(c),
        None => 0,
    }
}

fn in_exported(x: &Exported) -> usize
    ensures { result ≡ length (row_literals (export [] (export_tree x.now))) }
{
    match x {
        Exported::Value(_) => 0,
        Exported::Array(a) => in_array(a),
    }
}

// How many literals a statement has.
fn in_body(b: &Body) -> usize
    ensures { result ≡ length (body_literals (body_tree b.now)) }
{
    match b {
        Body::BooleanArray(_, _, Some(_)) => 1,
        Body::AssignArray(_, a) => in_array(a),
        Body::AssignRange(_, _, _, a) => in_array(a),
        Body::Export(_, x) => in_exported(x),
        Body::Scan(scan) => in_array(&scan.source) + in_compare(&scan.compare),
        Body::Pad(_, _, bits) => in_given(bits),
        Body::If(_, inner) => in_body(inner),
        _ => 0,
    }
}

/// How many literals a piece has; one that does not play has none.
pub(crate) fn own_literals(block: &Option<Name>, body: &Body) -> usize
    ensures { result
        ≡ length (body_literals (if plays block.now (body_tree body.now) then body_tree body.now else end_data)) }
{
    if plays(block, body) { in_body(body) } else { 0 }
}

/// How many literals the initial value of a statement has, if it stands in a DATA block and has one.
pub(crate) fn preset_literals(block: &Option<Name>, body: &Body) -> usize
    ensures { result ≡ length (preset_items row_literals (preset_of block.now (body_tree body.now))) }
{
    match body {
        Body::BooleanArray(_, _, Some(_)) => { if block.is_some() { 1 } else { 0 } }
        _ => 0,
    }
}
