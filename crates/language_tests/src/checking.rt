//! A text that is a program, and one that is none.

use stapl_checker::{CheckRefused, check};
use stapl_lexer::Reason;
use std::alloc::Global;
use std::test::Fail;

// How many statements the program has that a text is, or why it is refused.
fn outcome(alloc: Global, text: &[u8]) -> (usize, Option<CheckRefused>) {
    match check(alloc, text) {
        Ok(program) => {
            let count = program.statements().len();
            drop(program);
            (count, None)
        }
        Err(refused) => (0, Some(refused)),
    }
}

#[test]
fn accepts_a_program_and_names_a_first_fault(rt: HostRuntime) -> Result<(), Fail> {
    let text = "ACTION A=P;PROCEDURE P;INTEGER I;L: PRINT I;I=I+1;IF I<3 THEN GOTO L;ENDPROC;";
    assert!(rt; outcome(rt.alloc(), text.as_bytes()) == (7, None));
    let fault = CheckRefused::Refused {
        piece: 2,
        line: 2,
        reason: Reason::UnknownStatement,
    };
    let found = outcome(rt.alloc(), b"ACTION A=P;\nFOO;PROCEDURE P;ENDPROC;");
    assert!(rt; found == (0, Some(fault)));
    Ok(())
}
