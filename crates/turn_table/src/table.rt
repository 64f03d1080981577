//! The table of the turns of a program.
ghost use Rattle.std.specs.Prelude.{◌≡◌, IfOk};
ghost use Rattle.stapl_syntax.specs.Trees.{body_tree};
ghost use Rattle.stapl_syntax.specs.ProgramValues.{trees_of};
ghost use Rattle.scan_accounts.specs.MadeTurns.{does_scan};
ghost use Rattle.turn_table.specs.Tables.{IsTurnTable};

use account_lines::TurnPlace;
use stapl_lexer::cut;
use stapl_syntax::{Body, Program, line_of_index};
use std::alloc::{AllocError, Global};

// Whether a statement is an IRSCAN or a DRSCAN, or an IF over one.
fn does_scan(body: &Body) -> bool
    ensures { result ≡ does_scan (body_tree body.now) }
{
    match body {
        Body::Scan(_) => true,
        Body::If(_, then) => does_scan(then),
        _ => false,
    }
}

/// Of each piece of a program, by its index: its number, counted from 1, the line of the text in which it begins, and
/// whether its statement scans (JESD71, IRSCAN and DRSCAN). The only error is want of memory. The time is linear in the
/// length of the text.
pub fn turn_table(alloc: Global, program: &Program) -> Result<Vec<TurnPlace>, AllocError>
    ensures { IfOk result (λ table. IsTurnTable program.now.text (trees_of program.now) table.items) }
{
    let text = program.text();
    let statements = program.statements();
    let pieces = cut(alloc, text)?;
    let mut table = Vec::with_capacity(alloc, statements.len())?;
    for (i, statement) in statements.iter().enumerate() {
        table.push(TurnPlace {
            piece: i as u32 + 1,
            line: line_of_index(text, &pieces, i),
            scans: does_scan(&statement.body),
        })?;
    }
    Ok(table)
}
