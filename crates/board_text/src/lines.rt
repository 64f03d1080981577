//! Lines and words.
ghost use Rattle.std.specs.Prelude.{◌≡◌, ◌≤◌, ◌<◌, ◌+◌, [], ◌∷◌, ◌==◌, length, drop, IfOk};
ghost use Rattle.std.specs.List.{position, position_or_len};
ghost use Rattle.std.specs.Str.Lines.{lines, strip_carriage_return};
ghost use Rattle.board_text.specs.Lines.{texts, is_blank, is_word_byte, words_of, is_skipped};

use std::alloc::{AllocError, Global};

fn is_blank(byte: u8) -> bool
    ensures { result ≡ is_blank byte }
{
    byte == b' ' || byte == b'\t'
}

// The place of the first line feed.
fn line_feed_at(bytes: &[u8]) -> Option<usize>
    ensures { result ≡ position (λ b. b == 10) bytes.now }
{
    bytes.iter().position(|byte| *byte == b'\n')
}

// The place of the first blank.
fn blank_at(bytes: &[u8]) -> Option<usize>
    ensures { result ≡ position is_blank bytes.now }
{
    bytes.iter().position(|byte| is_blank(*byte))
}

// The place of the first byte that is no blank.
fn word_byte_at(bytes: &[u8]) -> Option<usize>
    ensures { result ≡ position is_word_byte bytes.now }
{
    bytes.iter().position(|byte| !is_blank(*byte))
}

// How many bytes stand in front of the first blank.
#[tactic(auto, using(stapl_lexer::proofs::SegmentLemmas::position_or_length, stapl_lexer::proofs::SegmentLemmas::position_within))]
fn word_len(bytes: &[u8]) -> usize
    ensures within { result ≤ length bytes.now }
    ensures place { result ≡ position_or_len is_blank bytes.now }
{
    blank_at(bytes).unwrap_or(bytes.len())
}

// How many blanks stand in front.
#[tactic(auto, using(stapl_lexer::proofs::SegmentLemmas::position_or_length, stapl_lexer::proofs::SegmentLemmas::position_within))]
fn blanks_len(bytes: &[u8]) -> usize
    ensures within { result ≤ length bytes.now }
    ensures place { result ≡ position_or_len is_word_byte bytes.now }
{
    word_byte_at(bytes).unwrap_or(bytes.len())
}

// The first word of a line, and what stands after it. Where there is no word it is empty.
fn first_word(line: &[u8]) -> (&[u8], &[u8])
    ensures some { 0 < length result.0.now → words_of line.now ≡ result.0.now ∷ words_of result.1.now }
    ensures none { length result.0.now ≡ 0 → words_of line.now ≡ [] }
    ensures lengths { length result.0.now + length result.1.now ≤ length line.now }
{
    let words = &line[blanks_len(line)..];
    words.split_at(word_len(words))
}

// The words of a line.
pub fn words_of(alloc: Global, line: &[u8]) -> Result<Vec<&[u8]>, AllocError>
    ensures { IfOk result (λ words. texts words.items ≡ words_of line.now) }
{
    let mut words = Vec::new(alloc);
    let mut rest = line;
    'words: loop {
        let (word, after) = first_word(rest);
        if word.is_empty() {
            return Ok(words);
        }
        words.push(word)?;
        rest = after;
    }
}

// Whether a line is empty or a comment.
pub fn is_skipped(line: &[u8]) -> bool
    ensures { result ≡ is_skipped line.now }
{
    line.is_empty() || line[0] == b'\''
}

// A line without the carriage return at its end.
fn without_return(line: &[u8]) -> &[u8]
    ensures { result.now ≡ strip_carriage_return line.now }
{
    match line.last() {
        Some(b'\r') => &line[..line.len() - 1],
        _ => line,
    }
}

/// The first line of some bytes, and how many bytes it has with its end. A line ends with a line feed, which the last may
/// lack, and a carriage return in front of the line feed is no part of it.
pub fn first_line(bytes: &[u8]) -> (&[u8], usize)
    requires { 0 < length bytes.now }
    ensures some { 0 < result.1 }
    ensures within { result.1 ≤ length bytes.now }
    ensures line { lines bytes.now ≡ result.0.now ∷ lines (drop result.1 bytes.now) }
{
    match line_feed_at(bytes) {
        Some(at) => (without_return(&bytes[..at]), at + 1),
        None => (bytes, bytes.len()),
    }
}
