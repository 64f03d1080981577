//! A piece as a statement. How operators are grouped, and what statements keep, is shown by plays.

use stapl_grammar::parse;
use stapl_lexer::cut;
use stapl_syntax::{Body, Expr};
use std::test::Fail;

// The number that an expression is.
fn number_of(expr: &Expr) -> Option<i32> {
    match expr {
        Expr::Number(number) => Some(*number),
        _ => None,
    }
}

// The number after EXIT, if a statement is one of that form.
fn exit_number(body: &Body) -> Option<i32> {
    match body {
        Body::Exit(code) => number_of(code),
        _ => None,
    }
}

#[test]
fn reads_a_statement(rt: HostRuntime) -> Result<(), Fail> {
    let text = b"EXIT 7;".as_slice();
    let pieces = cut(rt.alloc(), text)?;
    assert!(rt; pieces.len() == 1);
    let Ok(statement) = parse(rt.alloc(), text, &pieces[0]) else {
        return Err("no statement".into());
    };
    let number = exit_number(&statement.body);
    drop(statement);
    assert!(rt; number == Some(7));
    Ok(())
}
