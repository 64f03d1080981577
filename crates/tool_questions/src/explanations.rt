//! Explanations of words, a paragraph for each meaning of a word.
ghost use Rattle.std.specs.Prelude.{◌≡◌, ◌==◌, ◌++◌, ◌<◌, [], map, length, slice_index_or, codes, IfOk};
ghost use Rattle.std.specs.List.{flat_map, list_any};
ghost use Rattle.tool_io.specs.Lines.{IsWhole, HasPut};
ghost use Rattle.tool_io.specs.Texts.{word_line};
ghost use Rattle.stapl_lexer.specs.Reasons.{reason_name};
ghost use Rattle.tool_questions.specs.Explanations.{is_about, paragraphs, word_paragraphs, reason_paragraphs, board_reason_paragraphs};

use crate::explanation_texts::EXPLANATIONS;
use board_text::BoardReason;
use stapl_lexer::Reason;
use std::alloc::{AllocError, Global};
use tool_io::{Failed, Lines, Sink, put_word_line};

// Whether a line begins with these bytes, in whatever letter case.
fn is_about(line: &str, head: &[u8]) -> bool
    ensures { result ≡ is_about head.now line.now }
{
    let bytes = line.as_bytes();
    let most = head.len().min(bytes.len());
    bytes[..most].eq_ignore_ascii_case(head)
}

/// One text after another. The only error is want of memory.
pub fn joined(alloc: Global, front: &[u8], rest: &[u8]) -> Result<Vec<u8>, AllocError>
    ensures { IfOk result (λ text. text.items ≡ front.now ++ rest.now) }
{
    let mut text = Vec::from_slice(alloc, front)?;
    text.extend_from_slice(rest)?;
    Ok(text)
}

/// The lines of the table that begin with these bytes, in whatever letter case. The only error is want of memory.
pub fn lines_with(alloc: Global, head: &[u8]) -> Result<Vec<&'static str>, AllocError>
    ensures { IfOk result (λ found. map (λ line. line.now) found.items ≡ paragraphs head.now) }
{
    EXPLANATIONS
        .lines()
        .filter(|line| is_about(line, head))
        .collect(alloc)
}

// The lines of the table that begin with a word and a comma.
fn lines_about(alloc: Global, word: &[u8]) -> Result<Vec<&'static str>, AllocError>
    ensures { IfOk result (λ found. map (λ line. line.now) found.items ≡ paragraphs (word.now ++ codes ",")) }
{
    let head = joined(alloc, word, b",")?;
    lines_with(alloc, &head)
}

// Whether a word has a comma, which ends the word of each line of the table.
fn has_comma(word: &[u8]) -> bool
    ensures { result ≡ list_any (λ b. b == 44) word.now }
{
    word.iter().any(|b| *b == b',')
}

/// What is said of a word, a paragraph for each of its meanings; none if nothing is said of it. The only error is want
/// of memory.
pub fn explanation(alloc: Global, word: &[u8]) -> Result<Vec<&'static str>, AllocError>
    ensures { IfOk result (λ found. map (λ line. line.now) found.items ≡ word_paragraphs word.now) }
{
    if has_comma(word) {
        return Ok(Vec::new(alloc));
    }
    let found = lines_about(alloc, word)?;
    Ok(found)
}

/// What is said of a reason against a program. The only error is want of memory.
pub fn reason_explanation(alloc: Global, reason: Reason) -> Result<Vec<&'static str>, AllocError>
    ensures { IfOk result (λ found. map (λ line. line.now) found.items ≡ reason_paragraphs reason) }
{
    let head = joined(alloc, reason.name(), b", of a program:")?;
    lines_with(alloc, &head)
}

/// What is said of a reason against a board. The only error is want of memory.
pub fn board_reason_explanation(
    alloc: Global,
    reason: BoardReason,
) -> Result<Vec<&'static str>, AllocError>
    ensures { IfOk result (λ found. map (λ line. line.now) found.items ≡ board_reason_paragraphs reason) }
{
    let head = joined(alloc, reason.name(), b", of a board:")?;
    lines_with(alloc, &head)
}

// Puts one of some paragraphs.
fn put_paragraph<K: Sink>(lines: &mut Lines<K>, paragraphs: &[&str], i: usize) -> Result<(), Failed>
    requires whole { IsWhole lines.old }
    requires inside { i < length paragraphs.now }
    ensures { HasPut K.Sink lines.old
        (word_line (slice_index_or (map (λ line. line.now) paragraphs.now) i [])) lines.new result }
{
    put_word_line(lines, paragraphs[i].as_bytes())
}

/// Puts paragraphs, a line for each.
///
/// `Failed` as of the sink.
pub fn put_paragraphs<K: Sink>(lines: &mut Lines<K>, paragraphs: &[&str]) -> Result<(), Failed>
    requires { IsWhole lines.old }
    ensures { HasPut K.Sink lines.old (flat_map word_line (map (λ line. line.now) paragraphs.now))
        lines.new result }
{
    for i in 0..paragraphs.len() {
        put_paragraph(lines, paragraphs, i)?;
    }
    Ok(())
}
