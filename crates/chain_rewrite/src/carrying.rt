//! The text of a program that carries its padding, piece by piece.
ghost use Rattle.std.specs.Prelude.{◌≡◌, ◌∷◌, ◌++◌, [], ◌≤◌, length, map, take, drop};
ghost use Rattle.stapl_lexer.specs.Pieces.{text_limit};
ghost use Rattle.stapl_syntax.specs.Rules.{is_crc};
ghost use Rattle.stapl_syntax.specs.Trees.{body_tree, stmt_tree, trees};
ghost use Rattle.scan_paths.specs.Scans.{lengths_of};
ghost use Rattle.carried_plays.specs.CarriedPrograms.{with_item, padding_procedure, before_crc, from_crc, carried_program};
ghost use Rattle.carried_plays.specs.CarriedRuns.{AreShort};
ghost use Rattle.chain_rewrite.specs.Printing.{PrintsAfter};

use crate::actions::changed;
use crate::procedures::padding_procedure;
use scan_paths::BasePads;
use stapl_lexer::Name;
use stapl_print::{PrintRefused, print_after};
use stapl_syntax::{Body, Stmt};
use std::alloc::Global;
use std::slice;

fn print_pieces(text: Vec<u8>, pieces: &[Stmt]) -> Result<Vec<u8>, PrintRefused>
    requires { length text.items ≤ text_limit }
    ensures { PrintsAfter text.items (trees pieces.now) result }
{
    print_after(text, pieces)
}

// Puts a statement of the program, an action with the new item.
fn print_with_item(
    alloc: Global,
    text: Vec<u8>,
    statement: &Stmt,
    name: &Name,
) -> Result<Vec<u8>, PrintRefused>
    requires { length text.items ≤ text_limit }
    ensures { PrintsAfter text.items (with_item name.now (stmt_tree statement.now) ∷ []) result }
{
    match changed(alloc, statement, name) {
        Ok(Some(new)) => print_pieces(text, slice::from_ref(&new)),
        Ok(None) => print_pieces(text, slice::from_ref(statement)),
        Err(_) => Err(PrintRefused::Memory),
    }
}

// Puts statements of the program, each action with the new item.
fn print_front(
    alloc: Global,
    text: Vec<u8>,
    statements: &[Stmt],
    name: &Name,
) -> Result<Vec<u8>, PrintRefused>
    requires { length text.items ≤ text_limit }
    ensures { PrintsAfter text.items (map (with_item name.now) (trees statements.now)) result }
{
    let mut longer = text;
    for statement in statements {
        match print_with_item(alloc, longer, statement, name) {
            Ok(more) => longer = more,
            Err(refused) => return Err(refused),
        }
    }
    Ok(longer)
}

// Puts the procedure that sets the paddings.
fn print_procedure(
    alloc: Global,
    text: Vec<u8>,
    name: &Name,
    pads: &BasePads,
) -> Result<Vec<u8>, PrintRefused>
    requires short { length text.items ≤ text_limit }
    requires numbers { AreShort (lengths_of pads.now) }
    ensures { PrintsAfter text.items (padding_procedure name.now (lengths_of pads.now)) result }
{
    match padding_procedure(alloc, name, pads) {
        Ok(pieces) => print_pieces(text, &pieces),
        Err(_) => Err(PrintRefused::Memory),
    }
}

// Puts the procedure that sets the paddings, and then the end of the program.
fn print_rest(
    alloc: Global,
    text: Vec<u8>,
    end: &[Stmt],
    name: &Name,
    pads: &BasePads,
) -> Result<Vec<u8>, PrintRefused>
    requires short { length text.items ≤ text_limit }
    requires numbers { AreShort (lengths_of pads.now) }
    ensures { PrintsAfter text.items (padding_procedure name.now (lengths_of pads.now) ++ trees end.now) result }
{
    match print_procedure(alloc, text, name, pads) {
        Ok(carried) => print_pieces(carried, end),
        Err(refused) => Err(refused),
    }
}

// Puts the statements before the CRC, the procedure, and the end of the program.
fn print_parts(
    alloc: Global,
    front: &[Stmt],
    end: &[Stmt],
    name: &Name,
    pads: &BasePads,
) -> Result<Vec<u8>, PrintRefused>
    requires { AreShort (lengths_of pads.now) }
    ensures { PrintsAfter [] (map (with_item name.now) (trees front.now)
        ++ (padding_procedure name.now (lengths_of pads.now) ++ trees end.now)) result }
{
    match print_front(alloc, Vec::new(alloc), front, name) {
        Ok(begun) => print_rest(alloc, begun, end, name, pads),
        Err(refused) => Err(refused),
    }
}

// Whether a statement is CRC.
fn is_check(statement: &Stmt) -> bool
    ensures { result ≡ is_crc (body_tree statement.now.body) }
{
    matches!(statement.body, Body::Crc(_))
}

// How many statements stand before the CRC, or all of them.
fn count_before_crc(statements: &[Stmt]) -> usize
    ensures within { result ≤ length statements.now }
    ensures before { take result (trees statements.now) ≡ before_crc (trees statements.now) }
    ensures from { drop result (trees statements.now) ≡ from_crc (trees statements.now) }
{
    for (i, statement) in statements.iter().enumerate() {
        if is_check(statement) {
            return i;
        }
    }
    statements.len()
}

/// The text of the program of these statements that carries these paddings in the procedure of this name.
pub(crate) fn print_carried(
    alloc: Global,
    statements: &[Stmt],
    name: &Name,
    pads: &BasePads,
) -> Result<Vec<u8>, PrintRefused>
    requires { AreShort (lengths_of pads.now) }
    ensures { PrintsAfter [] (carried_program name.now (lengths_of pads.now) (trees statements.now)) result }
{
    let (front, end) = statements.split_at(count_before_crc(statements));
    print_parts(alloc, front, end, name, pads)
}
