//! What is answered to `--explain`, and which words ask a question.
ghost use Rattle.std.specs.Prelude.{◌≡◌, map, string_bytes};
ghost use Rattle.tool_io.specs.Lines.{IsWhole};
ghost use Rattle.tool_frame.specs.Answers.{Says};
ghost use Rattle.tool_questions.specs.Explanations.{word_paragraphs};
ghost use Rattle.tool_questions.specs.Questions.{is_question, ask_question, IsUsage, IsExplained, WordAnswer};

use crate::explanations::{explanation, put_paragraphs};
use named_files::put_usage;
use play_words::Status;
use std::alloc::Global;
use tool_frame::NoAnswer;
use tool_io::{Lines, Sink};

/// Refuses a word of the command, counted from 1.
///
/// `Write` as of the sink.
pub fn refuse<K: Sink>(n: u32, lines: &mut Lines<K>) -> Result<Status, NoAnswer>
    requires { IsWhole lines.old }
    ensures { Says K.Sink (IsUsage n) ⊥ lines.old lines.new result }
{
    put_usage(lines, n)?;
    Ok(Status::Usage(n))
}

// Explains a word by what is said of it.
fn explain_by<K: Sink>(
    word: &str,
    paragraphs: &[&str],
    lines: &mut Lines<K>,
) -> Result<Status, NoAnswer>
    requires paragraphs { map (λ line. line.now) paragraphs.now ≡ word_paragraphs word.now }
    requires whole { IsWhole lines.old }
    ensures { Says K.Sink (IsExplained word.now) ⊥ lines.old lines.new result }
{
    if paragraphs.is_empty() {
        return refuse(2, lines);
    }
    put_paragraphs(lines, paragraphs)?;
    Ok(Status::Done(0))
}

// Explains a word.
fn explain<K: Sink>(alloc: Global, word: &str, lines: &mut Lines<K>) -> Result<Status, NoAnswer>
    requires { IsWhole lines.old }
    ensures { Says K.Sink (IsExplained word.now) ⊥ lines.old lines.new result }
{
    let paragraphs = explanation(alloc, word.as_bytes())?;
    explain_by(word, &paragraphs, lines)
}

/// Answers the words after `--explain`.
pub(crate) fn answer_word<K: Sink>(
    alloc: Global,
    rest: &[String],
    lines: &mut Lines<K>,
) -> Result<Status, NoAnswer>
    requires { IsWhole lines.old }
    ensures { Says K.Sink (WordAnswer (map string_bytes rest.now)) ⊥ lines.old lines.new result }
{
    match rest {
        [] => refuse(2, lines),
        [word] => explain(alloc, word.as_str(), lines),
        _ => refuse(3, lines),
    }
}

// Whether a word is the first of a question.
fn is_question(word: &str) -> bool
    ensures { result ≡ is_question word.now }
{
    word == "--explain" || word == "--piece" || word == "--line" || word == "--board"
}

/// Whether the words ask a question: the first of them is `--explain`, `--piece`, `--line` or `--board`.
pub fn ask_question(words: &[String]) -> bool
    ensures { result ≡ ask_question (map string_bytes words.now) }
{
    match words {
        [first, ..] => is_question(first.as_str()),
        [] => false,
    }
}
