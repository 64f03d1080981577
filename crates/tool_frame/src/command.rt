//! What a command does with its words, and the exit code of its process.
ghost use Rattle.std.specs.Prelude.{◌≡◌, map, string_bytes};
ghost use Rattle.tool_io.specs.Causes.{HasRisen, NeverFalls, NoneFalls};
ghost use Rattle.tool_frame.specs.Files.{PicksNamed, KeepsShelf, HasReadCause};
ghost use Rattle.tool_frame.specs.Frame.{KeepsCount};
ghost use Rattle.tool_frame.specs.Commands.{HasRunCommand, HasEnded, exit_code_of};

use crate::shown::{text_asked, write_text};
use crate::{NoAnswer, Tool, run};
use std::alloc::Global;
use tool_io::{Shelf, Sink};

/// How a command ends that gives an answer.
#[derive(Clone, Copy)]
pub enum CommandEnding<E> {
    /// The text is written that the words ask for.
    Shown,
    /// The tool has answered.
    Answered(E),
}

/// The exit code of a command: that of the tool's ending, 0 for a text, and 9, 10 and 11 for a read fault, a write
/// fault and want of memory.
pub fn exit_code<T: Tool>(tool: &T, outcome: Result<CommandEnding<T::Ending>, NoAnswer>) -> u8
    ensures { result ≡ exit_code_of T.exit_code_of outcome }
{
    match outcome {
        Ok(CommandEnding::Shown) => 0,
        Ok(CommandEnding::Answered(ending)) => tool.exit_code(ending),
        Err(NoAnswer::Read) => 9,
        Err(NoAnswer::Write) => 10,
        Err(NoAnswer::Memory) => 11,
    }
}

/// Writes the text that the words ask for, or runs the tool.
///
/// `Read`, `Write` and `Memory` as `run`.
pub fn run_command<T: Tool, S: Shelf, K: Sink>(
    tool: &T,
    alloc: Global,
    words: &[String],
    shelf: &mut S,
    loan: &mut T::Loan,
    out: &mut K,
) -> Result<CommandEnding<T::Ending>, NoAnswer>
    requires { T.ready loan.old }
    ensures ran { HasRunCommand T.help_text T.version_text (map string_bytes words.now) (S.told shelf.old)
        (T.names (map string_bytes words.now)) (T.answers (map string_bytes words.now))
        (T.leaves (map string_bytes words.now)) (K.written out.old) (K.written out.new) loan.old loan.new result }
    ensures shelf { KeepsShelf S.Shelf (T.names (map string_bytes words.now))
        (T.reached (S.told shelf.old) (map string_bytes words.now)) shelf.old shelf.new result }
    ensures sink { KeepsCount K.Sink out.old out.new result }
{
    match text_asked(words, tool.help(), tool.version()) {
        Some(text) => {
            write_text(out, text)?;
            Ok(CommandEnding::Shown)
        }
        None => {
            let ending = run(tool, alloc, words, shelf, loan, out)?;
            Ok(CommandEnding::Answered(ending))
        }
    }
}

/// Runs a command, and gives the exit code of its process: what `main` of a program does.
pub fn run_program<T: Tool, S: Shelf, K: Sink>(
    tool: &T,
    alloc: Global,
    words: &[String],
    shelf: &mut S,
    loan: &mut T::Loan,
    out: &mut K,
) -> u8
    requires { T.ready loan.old }

    // What the command did, by how it ended; the result is the exit code of that.
    ensures ended { HasEnded T.exit_code_of (HasRunCommand T.help_text T.version_text (map string_bytes words.now)
        (S.told shelf.old) (T.names (map string_bytes words.now)) (T.answers (map string_bytes words.now))
        (T.leaves (map string_bytes words.now)) (K.written out.old) (K.written out.new) loan.old loan.new) result }

    // 9 only if the count rose of a file that was reached, and 10 only if that of the sink did.
    ensures read { result ≡ 9 → HasReadCause S.Shelf
        (T.reached (S.told shelf.old) (map string_bytes words.now)) shelf.old shelf.new }
    ensures write { result ≡ 10 → HasRisen K.faults K.is_last out.old out.new }

    // Whatever is answered, only files that the words name are opened, each at most once, and in their order. The files
    // stay, and no count falls.
    ensures once { PicksNamed (T.names (map string_bytes words.now)) (S.picks shelf.old) (S.picks shelf.new) }
    ensures keeps { S.told shelf.new ≡ S.told shelf.old }
    ensures later { NoneFalls S.faults S.is_last shelf.old shelf.new }
    ensures out_later { NeverFalls K.faults K.is_last out.old out.new }
{
    exit_code(tool, run_command(tool, alloc, words, shelf, loan, out))
}
