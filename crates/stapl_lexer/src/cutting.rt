//! The pieces of a text, read segment by segment from its front to its end.
ghost use Rattle.std.specs.Prelude.{◌≡◌, ℕ, ◌+◌, ◌<◌, ◌≤◌, List, [], ◌∷◌, ◌++◌, ◌||◌, ◌==◌, if◌then◌else◌, true, None, Some, unwrap_or, length, IfOk, OnOk, All};
ghost use Rattle.std.specs.List.{position, position_or_len};
ghost use Rattle.stapl_lexer.specs.declared.piece.Piece.{Piece};
ghost use Rattle.stapl_lexer.specs.Segments.{ends_string, ends_comment};
ghost use Rattle.stapl_lexer.specs.Pieces.{IsCut, is_white, LiesIn, LieInOrder, text_limit};
ghost use Rattle.stapl_lexer.specs.Cutting.{BeginsWithSegment, with_piece};

use crate::Piece;
use crate::name::is_name_byte;
use std::alloc::{AllocError, Global};

/// The most bytes of a text.
pub const TEXT_LIMIT: usize = 4_194_304;

fn is_string_end(b: u8) -> bool
    ensures { result ≡ ends_string b }
{
    b == b'"' || b == b'\n'
}

// The place of the first quote or line feed.
fn string_end(bytes: &[u8]) -> Option<usize>
    ensures { result ≡ position ends_string bytes.now }
{
    bytes.iter().position(|byte| is_string_end(*byte))
}

// The place of the first line feed.
fn comment_end(bytes: &[u8]) -> Option<usize>
    ensures { result ≡ position ends_comment bytes.now }
{
    bytes.iter().position(|byte| *byte == b'\n')
}

// How much of a string stands after its first quote.
#[tactic(auto, using(crate::proofs::SegmentLemmas::position_or_length, crate::proofs::SegmentLemmas::position_within, crate::proofs::SegmentLemmas::closed_begins, crate::proofs::SegmentLemmas::open_begins))]
fn string_len(after: &[u8]) -> usize
    ensures within { result ≤ length after.now }
    ensures string { BeginsWithSegment (34 ∷ after.now) (result + 1) }
{
    let n = string_end(after).unwrap_or(after.len());
    if n < after.len() && after[n] == b'"' {
        n + 1
    } else {
        n
    }
}

// How much of a comment stands after its apostrophe.
#[tactic(auto, using(crate::proofs::SegmentLemmas::position_or_length, crate::proofs::SegmentLemmas::position_within, crate::proofs::SegmentLemmas::comment_begins))]
fn comment_len(after: &[u8]) -> usize
    ensures within { result ≤ length after.now }
    ensures comment { BeginsWithSegment (39 ∷ after.now) (result + 1) }
{
    comment_end(after).unwrap_or(after.len())
}

/// How many bytes the first segment of some bytes has: a string with its quotes, a comment with its apostrophe, or one
/// byte.
#[tactic(auto, using(crate::proofs::SegmentLemmas::begins_at_front, crate::proofs::SegmentLemmas::plain_begins))]
pub fn segment_len(rest: &[u8]) -> usize
    requires { 0 < length rest.now }
    ensures within { result ≤ length rest.now }
    ensures some { 0 < result }
    ensures segment { BeginsWithSegment rest.now result }
{
    let after = &rest[1..];
    match rest[0] {
        b'"' => string_len(after) + 1,
        b'\'' => comment_len(after) + 1,
        _ => 1,
    }
}

pub(crate) fn is_white(b: u8) -> bool
    ensures { result ≡ is_white b }
{
    matches!(b, b' ' | b'\t' | b'\n' | b'\x0C' | b'\r')
}

// Whether a segment that begins with this byte is white space or a comment.
pub(crate) fn is_blank_start(b: u8) -> bool
    ensures { result ≡ (is_white b || b == 39) }
{
    is_white(b) || b == b'\''
}

// How far a text is cut.
#[derive(Clone, Copy)]
struct Progress {
    at: usize,
    // The line of that place.
    line: u32,
    // Where the open piece starts.
    start: usize,
    // The line of its first byte that is neither white space nor comment.
    first: Option<u32>,
}

impl Progress {
    ghost use Rattle.stapl_lexer.specs.Cutting.{IsCutUpTo, open_piece, Within};

    fn new() -> Progress
        ensures start { (text : List ℕ) → IsCutUpTo text result [] }
        ensures bounds { Within 0 result }
    {
        Progress {
            at: 0,
            line: 1,
            start: 0,
            first: None,
        }
    }

    // Reads a semicolon, which ends a piece.
    fn close(&mut self) -> Piece
        requires bounds { Within self.old.at self.old }
        requires small { self.old.at < text_limit }
        ensures piece { result
            ≡ record {
              start = self.old.start;
              end = self.old.at;
              line = unwrap_or self.old.first self.old.line;
              closed = true;
            } }
        ensures after { self.new
            ≡ record { at = self.old.at + 1; line = self.old.line; start = self.old.at + 1; first = None } }
    {
        let piece = Piece {
            start: self.start as u32,
            end: self.at as u32,
            line: self.first.unwrap_or(self.line),
            closed: true,
        };
        self.at += 1;
        self.start = self.at;
        self.first = None;
        piece
    }

    // Reads a segment of n bytes that is no semicolon, by its first byte.
    fn pass(&mut self, byte: u8, n: usize)
        requires bounds { Within self.old.at self.old }
        requires small { self.old.at + n ≤ text_limit }
        ensures at { self.new.at ≡ self.old.at + n }
        ensures start { self.new.start ≡ self.old.start }
        ensures line { self.new.line ≡ self.old.line + (if byte == 10 then 1 else 0) }
        ensures first { self.new.first
            ≡ (if is_white byte || byte == 39 then self.old.first else Some (unwrap_or self.old.first self.old.line)) }
    {
        if !is_blank_start(byte) && self.first.is_none() {
            self.first = Some(self.line);
        }
        if byte == b'\n' {
            self.line += 1;
        }
        self.at += n;
    }

    // Reads a segment, and says which piece it ends.
    #[tactic(auto, using(crate::proofs::CutLemmas::cut_close, crate::proofs::CutLemmas::cut_pass))]
    fn step(&mut self, text: &[u8]) -> Option<Piece>
        requires bounds { Within (length text.now) self.old }
        requires inside { self.old.at < length text.now }
        requires small { length text.now ≤ text_limit }
        ensures bounds { Within (length text.now) self.new }
        ensures forward { self.old.at < self.new.at }
        ensures cut_up_to { (pieces : List Piece) → IsCutUpTo text.now self.old pieces
            → IsCutUpTo text.now self.new (with_piece pieces result) }
    {
        let byte = text[self.at];
        if byte == b';' {
            return Some(self.close());
        }
        if self.first.is_some() && is_name_byte(byte) {
            // Most bytes stand in names and numbers.
            self.at += 1;
            return None;
        }
        let n = segment_len(&text[self.at..]);
        self.pass(byte, n);
        None
    }

    // The piece that the end of the text leaves open.
    fn rest(&self) -> Option<Piece>
        requires { Within text_limit self.now }
        ensures { result ≡ open_piece self.now.start self.now.at self.now.first }
    {
        let line = self.first?;
        Some(Piece {
            start: self.start as u32,
            end: self.at as u32,
            line,
            closed: false,
        })
    }
}

fn push_if_some(pieces: &mut Vec<Piece>, piece: Option<Piece>) -> Result<(), AllocError>
    ensures pieces { OnOk result (pieces.new.items ≡ with_piece pieces.old.items piece) }
    ensures few { OnOk result (length pieces.new.items ≤ length pieces.old.items + 1) }
{
    if let Some(piece) = piece {
        pieces.push(piece)?;
    }
    Ok(())
}

/// The pieces of a text of at most `TEXT_LIMIT` bytes, which may be any bytes (JESD71, program text). Each semicolon
/// outside strings and comments ends a piece. What is left after the last one is a piece that is not closed, where a
/// byte of it is neither white space nor comment. The only error is want of memory. The time is linear in the length of
/// the text.
#[tactic(auto, using(crate::proofs::CutLemmas::cut_all))]
pub fn cut(alloc: Global, text: &[u8]) -> Result<Vec<Piece>, AllocError>
    requires { length text.now ≤ text_limit }
    ensures cut { IfOk result (λ pieces. IsCut text.now pieces.items) }
    ensures each { IfOk result (λ pieces. All (LiesIn text.now) pieces.items) }
    ensures in_order { IfOk result (λ pieces. LieInOrder pieces.items) }
    ensures few { IfOk result (λ pieces. length pieces.items ≤ length text.now + 1) }
{
    let mut pieces = Vec::new(alloc);
    let mut progress = Progress::new();
    'segments: while progress.at < text.len() {
        push_if_some(&mut pieces, progress.step(text))?;
    }
    push_if_some(&mut pieces, progress.rest())?;
    Ok(pieces)
}
