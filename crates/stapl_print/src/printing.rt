//! The canonical text of statements and of programs.
ghost use Rattle.std.specs.Prelude.{◌≡◌, ◌<◌, ◌≤◌, All, IfOk, OnOk, IsErrOf, length};
ghost use Rattle.stapl_lexer.specs.Pieces.{text_limit};
ghost use Rattle.stapl_syntax.specs.Programs.{IsProgram};
ghost use Rattle.stapl_syntax.specs.ProgramValues.{trees_of};
ghost use Rattle.stapl_syntax.specs.Trees.{trees};
ghost use Rattle.canonical_text.specs.CanonicalText.{canonical_text, checked_statements, HasStatements};
ghost use Rattle.canonical_text.specs.Printable.{CanBePrinted};
ghost use Rattle.stapl_print.specs.Lines.{with_lines};

use canonical_writer::Writer;
use stapl_lexer::TEXT_LIMIT;
use stapl_syntax::{Program, Stmt};
use std::alloc::Global;
use thiserror::Error;

/// Why no text is printed.
#[derive(Clone, Copy, Debug, Error)]
pub enum PrintRefused {
    /// The canonical text has more than 4,194,304 bytes.
    #[error("the canonical text is too large")]
    TooLarge,
    /// There was no memory for the text.
    #[error("out of memory")]
    Memory,
}

/// Puts the lines of statements after a text. A CRC has the check word of the bytes before it.
///
/// `TooLarge` comes exactly if the text would then have more than 4,194,304 bytes; `Memory` is want of memory. The text
/// is gone then. The time is linear in what is put, and with a CRC in all of the text.
pub fn print_after(text: Vec<u8>, stmts: &[Stmt]) -> Result<Vec<u8>, PrintRefused>
    requires { length text.items ≤ text_limit }
    ensures text { IfOk result (λ longer. longer.items ≡ with_lines text.items (trees stmts.now)) }
    ensures fits { OnOk result (length (with_lines text.items (trees stmts.now)) ≤ text_limit) }
    ensures too_large { IsErrOf result PrintRefused.TooLarge →
        text_limit < length (with_lines text.items (trees stmts.now)) }
{
    let mut writer = Writer::over(text);
    for statement in stmts {
        let Ok(()) = writer.put_line(statement) else {
            return Err(PrintRefused::Memory);
        };
        if writer.bytes().len() > TEXT_LIMIT {
            return Err(PrintRefused::TooLarge);
        }
    }
    Ok(writer.into_bytes())
}

/// The canonical text of statements that can be printed. A statement of any text can be (`CanBePrinted` of
/// `canonical_text`), and so can one that some symbols mean that keep the limits of the language. The pieces of the
/// text are these statements, but CRC has the check word of the bytes before it.
///
/// `TooLarge` comes exactly if that text has more than 4,194,304 bytes; `Memory` is want of memory. The time is linear
/// in the length of the text, if there is at most one CRC.
pub fn print_statements(alloc: Global, stmts: &[Stmt]) -> Result<Vec<u8>, PrintRefused>
    requires { All CanBePrinted (trees stmts.now) }
    ensures text { IfOk result (λ text. text.items ≡ canonical_text (trees stmts.now)) }
    ensures read_back { IfOk result (λ text. HasStatements text.items (checked_statements (trees stmts.now))) }
    ensures fits { OnOk result (length (canonical_text (trees stmts.now)) ≤ text_limit) }
    ensures too_large { IsErrOf result PrintRefused.TooLarge →
        text_limit < length (canonical_text (trees stmts.now)) }
{
    print_after(Vec::new(alloc), stmts)
}

/// The canonical text of a program. It is a program of the same statements, but CRC has the check word of the bytes
/// before it.
///
/// `TooLarge` comes exactly if that text has more than 4,194,304 bytes; `Memory` is want of memory. The time is linear
/// in the length of the text.
pub fn print_program(alloc: Global, program: &Program) -> Result<Vec<u8>, PrintRefused>
    ensures text { IfOk result (λ text. text.items ≡ canonical_text (trees_of program.now)) }
    ensures program { IfOk result (λ text. IsProgram text.items (checked_statements (trees_of program.now))) }
    ensures fits { OnOk result (length (canonical_text (trees_of program.now)) ≤ text_limit) }
    ensures too_large { IsErrOf result PrintRefused.TooLarge →
        text_limit < length (canonical_text (trees_of program.now)) }
{
    print_statements(alloc, program.statements())
}
