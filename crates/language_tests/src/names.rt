//! The tables of the names of a program.
use stapl_checker::check;
use stapl_lexer::Name;
use stapl_names::{Names, collect};
use stapl_syntax::{Found, Stmt, VarKind};
use std::alloc::Global;
use std::test::Fail;

fn name(spelling: &str) -> Option<Name> {
    Name::read(spelling.as_bytes())
}

// The names of a program of a few pieces.
fn names_of(alloc: Global, statements: &[Stmt]) -> Result<Names, Fail> {
    if statements.len() > 100 {
        return Err("too many pieces".into());
    }
    let mut numbers = vec![in alloc; 0; statements.len()]?;
    for i in 0..numbers.len() {
        numbers[i] = i as u32 + 1;
    }
    Ok(collect(alloc, &numbers, statements)?)
}

// The names of a text.
fn names_in(alloc: Global, text: &str) -> Result<Names, Fail> {
    let Ok(program) = check(alloc, text.as_bytes()) else {
        return Err("no program".into());
    };
    let names = names_of(alloc, program.statements());
    drop(program);
    names
}

// The number, the piece and the sort of the block of a name.
fn block_in(names: &Names, spelling: &str) -> Option<(u32, u32, bool)> {
    let number = names.block(&name(spelling)?)?;
    let block = names.block_at(number);
    Some((number, block.piece, block.is_data))
}

// What a name of a variable stands for in the block of a name.
fn found_in(names: &Names, block: &str, spelling: &str) -> Option<Found> {
    let number = names.block(&name(block)?)?;
    Some(names.look_up(number, &name(spelling)?))
}

// What a name of a variable stands for outside all blocks.
fn found_outside(names: &Names, spelling: &str) -> Option<Found> {
    Some(names.look_up_outside(&name(spelling)?))
}

// The piece of an action.
fn action_in(names: &Names, spelling: &str) -> Option<u32> {
    names.action(&name(spelling)?)
}

// The piece of a label in the block of a name.
fn label_in(names: &Names, block: &str, spelling: &str) -> Option<u32> {
    let number = names.block(&name(block)?)?;
    names.label(number, &name(spelling)?)
}

// The number, the piece, the kind and the size of a variable of the block of a name.
fn variable_in(names: &Names, block: &str, spelling: &str) -> Option<(u32, u32, VarKind, i32)> {
    let block = names.block(&name(block)?)?;
    let number = names.variable_of(block, &name(spelling)?)?;
    let variable = names.variable(number);
    Some((number, variable.piece, variable.kind, variable.size))
}

// The variable K stands in a block that the procedure uses, and H in one that it does not.
const TEXT: &str =
    "ACTION A=P;DATA D;INTEGER K[3];ENDDATA;DATA E;INTEGER H;ENDDATA;PROCEDURE P USES D;BOOLEAN B;L: B=0;ENDPROC;";

#[test]
fn finds_blocks_and_labels(rt: HostRuntime) -> Result<(), Fail> {
    let names = names_in(rt.alloc(), TEXT)?;
    assert!(rt; names.blocks() == 3 && names.variables() == 3);
    assert!(rt; block_in(&names, "P") == Some((2, 8, false)));
    assert!(rt; block_in(&names, "X").is_none());
    assert!(rt; label_in(&names, "P", "L") == Some(10));
    assert!(rt; action_in(&names, "A") == Some(1));
    drop(names);
    Ok(())
}

#[test]
fn finds_variables(rt: HostRuntime) -> Result<(), Fail> {
    let names = names_in(rt.alloc(), TEXT)?;
    assert!(rt; variable_in(&names, "P", "K").is_none());
    assert!(rt; variable_in(&names, "P", "B") == Some((2, 9, VarKind::Boolean, 1)));
    assert!(rt; found_in(&names, "P", "K") == Some(Found::Variable(0)));
    assert!(rt; found_in(&names, "P", "H") == Some(Found::Hidden));
    assert!(rt; found_in(&names, "P", "X") == Some(Found::Absent));
    assert!(rt; found_outside(&names, "K") == Some(Found::Hidden));
    drop(names);
    Ok(())
}
