//! What is answered for the text of a program in a file.
ghost use Rattle.std.specs.Prelude.{◌≡◌, Some};
ghost use Rattle.tool_io.specs.Lines.{IsWhole, IsSilent};
ghost use Rattle.tool_frame.specs.Answers.{Says};
ghost use Rattle.tool_frame.specs.Files.{OfFile, NamesThis, KeepsShelf};
ghost use Rattle.stapl_syntax.specs.Programs.{IsProgram};
ghost use Rattle.stapl_syntax.specs.ProgramValues.{trees_of};
ghost use Rattle.print_tool.specs.Answers.{TextAnswer, HeldAnswer};

use crate::PrintStatus;
use named_files::put_refusal;
use program_files::{ProgramNotRead, program_named};
use stapl_print::{PrintRefused, print_program};
use stapl_syntax::Program;
use std::alloc::Global;
use tool_frame::NoAnswer;
use tool_io::{Lines, Shelf, Sink};

// Puts the canonical text of a program, or that it is too large.
fn put_program<K: Sink>(
    alloc: Global,
    program: &Program,
    lines: &mut Lines<K>,
) -> Result<PrintStatus, NoAnswer>
    requires program { IsProgram program.now.text (trees_of program.now) }
    requires whole { IsWhole lines.old }
    ensures { Says K.Sink (TextAnswer program.now.text) ⊥ lines.old lines.new result }
{
    match print_program(alloc, program) {
        Ok(text) => {
            lines.put(&text)?;
            Ok(PrintStatus::Done)
        }
        Err(PrintRefused::TooLarge) => {
            lines.put(b"R print TooLarge\n")?;
            Ok(PrintStatus::TooLarge)
        }
        Err(PrintRefused::Memory) => Err(NoAnswer::Memory),
    }
}

/// Answers for the text in a file.
pub(crate) fn answer_file<S: Shelf, K: Sink>(
    alloc: Global,
    path: &str,
    shelf: &mut S,
    lines: &mut Lines<K>,
) -> Result<PrintStatus, NoAnswer>
    requires { IsWhole lines.old }
    ensures says { OfFile (S.told shelf.old) (Some path.now) (λ held.
        Says K.Sink (HeldAnswer held) (IsSilent lines.old lines.new) lines.old lines.new result) }
    ensures shelf { KeepsShelf S.Shelf (NamesThis path.now) (λ read. read ≡ path.now) shelf.old shelf.new result }
{
    match program_named(alloc, shelf, path) {
        Ok(program) => put_program(alloc, &program, lines),
        Err(
            ProgramNotRead::Refused {
                piece,
                line,
                reason,
            },
        ) => {
            put_refusal(lines, piece, line, reason)?;
            Ok(PrintStatus::Refused(piece, reason))
        }
        Err(ProgramNotRead::Read) => Err(NoAnswer::Read),
        Err(ProgramNotRead::Memory) => Err(NoAnswer::Memory),
    }
}
