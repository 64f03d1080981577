//! The name of the new procedure.
ghost use Rattle.std.specs.Prelude.{◌≡◌, ◌||◌, ℕ, ◌≤◌, List, false, length, IfOk, OnOk};
ghost use Rattle.std.specs.List.{list_any};
ghost use Rattle.std.specs.Option.{option_map_or};
ghost use Rattle.std.specs.Str.{bytes_eq};
ghost use Rattle.stapl_syntax.specs.Programs.{piece_limit, IsProgram};
ghost use Rattle.stapl_syntax.specs.ProgramValues.{trees_of};
ghost use Rattle.stapl_syntax.specs.Trees.{body_tree, trees};
ghost use Rattle.carried_plays.specs.PadNames.{pad_name, begins_block, has_block};
ghost use Rattle.chain_rewrite.specs.NewNames.{IsNewName};

use carried_plays::laws::there_is_one_free_name;
use indexmap::IndexSet;
use itoa::Buffer;
use stapl_lexer::Name;
use stapl_syntax::{Body, Program, Stmt};
use std::alloc::{AllocError, Global};

/// The statements of a program, one a piece, which are not too many.
pub(crate) fn pieces(program: &Program) -> &[Stmt]
    ensures same { result.now ≡ program.now.statements }
    ensures few { length result.now ≤ piece_limit }
    ensures program { IsProgram program.now.text (trees_of program.now) }
{
    program.statements()
}

// The name of the block that a statement begins.
fn begun_block(body: &Body) -> Option<Name>
    ensures { (name : List ℕ) → begins_block name (body_tree body.now) ≡ option_map_or (bytes_eq name) result false }
{
    match body {
        Body::Procedure(own, _) => Some(*own),
        Body::Data(own) => Some(*own),
        _ => None,
    }
}

// Puts the name of the block that a statement begins, if it begins one.
fn put_block(names: &mut IndexSet<Name>, body: &Body) -> Result<(), AllocError>
    ensures { OnOk result ((name : List ℕ) → list_any (bytes_eq name) names.new.keys
        ≡ (list_any (bytes_eq name) names.old.keys || begins_block name (body_tree body.now))) }
{
    match begun_block(body) {
        Some(own) => {
            names.insert(own)?;
            Ok(())
        }
        None => Ok(()),
    }
}

// The names of the blocks of a program.
fn block_names(alloc: Global, statements: &[Stmt]) -> Result<IndexSet<Name>, AllocError>
    ensures { IfOk result (λ names. (name : List ℕ) →
        list_any (bytes_eq name) names.keys ≡ has_block (trees statements.now) name) }
{
    let mut names = IndexSet::new(alloc);
    for statement in statements {
        put_block(&mut names, &statement.body)?;
    }
    Ok(names)
}

// The name with this number.
fn pad_name(alloc: Global, number: u32) -> Result<Name, AllocError>
    requires { number ≤ piece_limit }
    ensures { IfOk result (λ name. name ≡ pad_name number) }
{
    let mut digits = Buffer::new();
    let mut spelled = Vec::from_slice(alloc, b"CHAIN_PAD_")?;
    spelled.extend_from_slice(digits.format(number).as_bytes())?;
    match Name::read(&spelled) {
        Some(name) => Ok(name),
        None => unreachable!(),
    }
}

/// The name of the new procedure: the first from number 0 on that no block has. It takes at most one look-up more than
/// there are pieces.
pub(crate) fn new_name(alloc: Global, program: &Program) -> Result<Name, AllocError>
    ensures { IfOk result (IsNewName (trees_of program.now)) }
{
    there_is_one_free_name();
    let statements = pieces(program);
    let names = block_names(alloc, statements)?;
    for number in 0..statements.len() as u32 + 1 {
        let name = pad_name(alloc, number)?;
        if !names.contains(&name) {
            return Ok(name);
        }
    }
    unreachable!()
}
