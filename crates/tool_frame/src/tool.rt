//! What a tool is, and a run of it.
ghost use Rattle.std.specs.Prelude.{◌≡◌, ℕ, List, [], Option, Result, Ok, Err, map, string_bytes};
ghost use Rattle.tool_io.specs.Lines.{IsWhole, gathered};
ghost use Rattle.tool_frame.specs.declared.no_answer.NoAnswer.{NoAnswer as Cause};
ghost use Rattle.tool_frame.specs.declared.no_answer.NoAnswer.TheVariants.{Write};
ghost use Rattle.tool_frame.specs.Files.{OfFiles, KeepsShelf};
ghost use Rattle.tool_frame.specs.Frame.{SaysAndLeaves, WritesAndLeaves, KeepsCount, IsNoFaultCode};

use crate::NoAnswer;
use std::alloc::Global;
use tool_io::{Lines, Shelf, Sink};

/// A tool: it answers words by a text and an ending of its own, with the contents of the files that the words name, and
/// may change what it is lent.
pub trait Tool {
    /// How an answer ends.
    type Ending: Copy;

    /// What the tool is lent: a rack, or `()`.
    type Loan;

    /// What is lent is as the tool needs it.
    ghost ready: { Self.Loan → Type 0 };

    /// The words name these files, each at its place, at some places perhaps none; words that are refused name none.
    ghost names: { List (List ℕ) → List (Option (List ℕ)) → Type 0 };

    /// A file of this path is read for the words, with a store that tells these files, or none.
    ghost reached: { Option (List (List ℕ × List ℕ)) → List (List ℕ) → List ℕ → Type 0 };

    /// The answer to the words, with these contents of their files: its text, and how it ends.
    ghost answers: { List (List ℕ) → List (Option (List ℕ)) → List ℕ → Self.Ending → Type 0 };

    /// What is lent, before and after an answer to the words, or none.
    ghost leaves: { List (List ℕ) → List (Option (List ℕ)) → Self.Loan → Self.Loan → Result Self.Ending Cause →
        Type 0 };

    /// The exit code of an ending.
    ghost exit_code_of: { Self.Ending → ℕ };

    /// The texts of `--help` and `--version`.
    ghost help_text: { List ℕ };

    ghost version_text: { List ℕ };

    /// The text of `--help`.
    fn help(&self) -> &'static [u8]
        ensures { result.now ≡ help_text };

    /// The text of `--version`.
    fn version(&self) -> &'static [u8]
        ensures { result.now ≡ version_text };

    /// The exit code of an ending.
    fn exit_code(&self, ending: Self::Ending) -> u8
        ensures { result ≡ exit_code_of ending };

    /// Puts the answer to the words. Nothing waits in the lines yet. Of the files that the words name it picks only some
    /// in front, each once and in their order, and no other file.
    ///
    /// `Read` comes only if the count of a file rose that was reached, `Write` only if the count of the sink rose, each
    /// also if its count stands at its last value; `Memory` is want of memory. At `Read` and `Memory` nothing has
    /// reached the sink.
    fn answer<S: Shelf, K: Sink>(
        &self,
        alloc: Global,
        words: &[String],
        shelf: &mut S,
        loan: &mut Self::Loan,
        lines: &mut Lines<K>,
    ) -> Result<Self::Ending, NoAnswer>
        requires ready { ready loan.old }
        requires whole { IsWhole lines.old }
        requires empty { gathered lines.old ≡ [] }
        ensures answers { OfFiles (names (map string_bytes words.now)) (S.told shelf.old) (λ contents. SaysAndLeaves
            K.Sink (answers (map string_bytes words.now) contents) (leaves (map string_bytes words.now) contents)
            lines.old lines.new loan.old loan.new result) }
        ensures shelf { KeepsShelf S.Shelf (names (map string_bytes words.now))
            (reached (S.told shelf.old) (map string_bytes words.now)) shelf.old shelf.new result };

    /// What an answer leaves may be left after a write fault too, since the answer was put before.
    ghost leaves_at_write_fault: { (words : List (List ℕ)) (contents : List (Option (List ℕ)))
        (before after : Self.Loan) (ending : Self.Ending) → leaves words contents before after (Ok ending) →
        leaves words contents before after (Err Write) };

    /// No answer has the exit code of a fault.
    ghost answers_are_no_faults: { (words : List (List ℕ)) (contents : List (Option (List ℕ))) (text : List ℕ)
        (ending : Self.Ending) → answers words contents text ending → IsNoFaultCode (exit_code_of ending) };
}

/// Answers the words, and writes the answer: its text and nothing else.
///
/// `Read`, `Write` and `Memory` as `Tool::answer`. At `Write` a prefix of the text is written, at the others nothing.
pub fn run<T: Tool, S: Shelf, K: Sink>(
    tool: &T,
    alloc: Global,
    words: &[String],
    shelf: &mut S,
    loan: &mut T::Loan,
    out: &mut K,
) -> Result<T::Ending, NoAnswer>
    requires { T.ready loan.old }
    ensures ran { OfFiles (T.names (map string_bytes words.now)) (S.told shelf.old) (λ contents. WritesAndLeaves
        (T.answers (map string_bytes words.now) contents) (T.leaves (map string_bytes words.now) contents)
        (K.written out.old) (K.written out.new) loan.old loan.new result) }
    ensures shelf { KeepsShelf S.Shelf (T.names (map string_bytes words.now))
        (T.reached (S.told shelf.old) (map string_bytes words.now)) shelf.old shelf.new result }
    ensures sink { KeepsCount K.Sink out.old out.new result }
{
    let mut lines = Lines::new(out);
    let ending = tool.answer(alloc, words, shelf, loan, &mut lines)?;
    lines.finish()?;
    Ok(ending)
}
