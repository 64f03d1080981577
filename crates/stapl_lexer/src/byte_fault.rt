//! What is wrong with the bytes of a piece.
ghost use Rattle.std.specs.Prelude.{◌≡◌, ℕ, ◌≤◌, ◌<◌, ◌||◌, ◌==◌, not, length, slice_index, IfSome, IfNone};
ghost use Rattle.stapl_lexer.specs.PieceFaults.{is_mark_byte, is_language_byte, IsSmallestTokenReason};
ghost use Rattle.stapl_lexer.specs.Pieces.{LiesIn, text_limit};
ghost use Rattle.stapl_lexer.specs.TokenReading.{is_open_spelling, AreSearched, HasNoReasonBelow};

use crate::cutting::is_white;
use crate::front::ends_in_quote;
use crate::name::is_name_byte;
use crate::{Piece, Reason, segment_len};

fn is_mark_byte(byte: u8) -> bool
    ensures { result ≡ is_mark_byte byte }
{
    matches!(
        byte,
        b';' | b':'
            | b','
            | b'='
            | b'['
            | b']'
            | b'('
            | b')'
            | b'+'
            | b'-'
            | b'*'
            | b'/'
            | b'%'
            | b'&'
            | b'|'
            | b'^'
            | b'~'
            | b'<'
            | b'>'
            | b'!'
            | b'.'
            | b'#'
            | b'$'
            | b'@'
            | b'"'
            | b'\''
    )
}

// Whether a byte is one of the language.
fn is_language_byte(byte: u8) -> bool
    ensures { result ≡ is_language_byte byte }
{
    is_name_byte(byte) || is_white(byte) || is_mark_byte(byte)
}

// Whether the bytes of a segment are an open string.
fn is_open_spelling(segment: &[u8]) -> bool
    requires { 0 < length segment.now }
    ensures { result ≡ is_open_spelling segment.now }
{
    segment[0] == b'"' && !ends_in_quote(segment, segment.len())
}

// What is wrong with some segments.
#[derive(Clone, Copy)]
struct ByteFaults {
    // There is a byte that is none of the language.
    foreign: bool,
    // There is an open string.
    unclosed: bool,
    // There is an `@`.
    compressed: bool,
}

impl ByteFaults {
    // One segment more.
    fn add(&mut self, segment: &[u8])
        requires { 0 < length segment.now }
        ensures foreign { self.new.foreign ≡ (self.old.foreign || not (is_language_byte (slice_index segment.now 0))) }
        ensures unclosed { self.new.unclosed ≡ (self.old.unclosed || is_open_spelling segment.now) }
        ensures compressed { self.new.compressed ≡ (self.old.compressed || slice_index segment.now 0 == 64) }
    {
        self.foreign = self.foreign || !is_language_byte(segment[0]);
        self.unclosed = self.unclosed || is_open_spelling(segment);
        self.compressed = self.compressed || segment[0] == b'@';
    }
}

// What is wrong with the segments of some bytes.
#[tactic(auto, using(crate::proofs::ByteFaultLemmas::all_searched, crate::proofs::ByteFaultLemmas::search_name_byte))]
fn byte_faults(bytes: &[u8]) -> ByteFaults
    requires { length bytes.now ≤ text_limit }
    ensures { AreSearched bytes.now result.foreign result.unclosed result.compressed }
{
    let mut faults = ByteFaults {
        foreign: false,
        unclosed: false,
        compressed: false,
    };
    let mut at = 0;
    'segments: while at < bytes.len() {
        if is_name_byte(bytes[at]) {
            // Most bytes stand in names and numbers, and nothing is wrong with those.
            at += 1;
        } else {
            let n = segment_len(&bytes[at..]);
            faults.add(&bytes[at..at + n]);
            at += n;
        }
    }
    faults
}

// The smallest reason that lies in the bytes of a piece; if there is none, each reason against it lies in its tokens.
#[tactic(auto, using(crate::proofs::ReasonLemmas::unterminated_first, crate::proofs::ReasonLemmas::good_bytes))]
pub(crate) fn reason_of_bytes(text: &[u8], piece: &Piece) -> Option<Reason>
    requires small { length text.now ≤ text_limit }
    requires lies { LiesIn text.now piece.now }
    ensures some { IfSome result (IsSmallestTokenReason text.now piece.now) }
    ensures none { IfNone result (HasNoReasonBelow text.now piece.now 6) }
{
    let faults = byte_faults(&text[piece.start as usize..piece.end as usize]);
    if !piece.closed {
        return Some(Reason::Unterminated);
    }
    if faults.foreign {
        return Some(Reason::BadByte);
    }
    if faults.unclosed {
        return Some(Reason::OpenString);
    }
    if faults.compressed {
        return Some(Reason::Compressed);
    }
    None
}
