//! The lines of a piece.
ghost use Rattle.std.specs.Prelude.{◌≡◌, map, Some};
ghost use Rattle.tool_io.specs.Lines.{IsWhole, HasPut};
ghost use Rattle.stapl_lexer.specs.Pieces.{LiesIn};
ghost use Rattle.tool_questions.specs.Pieces.{piece_text, refusal_text, why_refused, shown_text};

use crate::explanations::put_paragraphs;
use crate::report::Refusal;
use named_files::put_refusal;
use stapl_lexer::Piece;
use tool_io::{Failed, Lines, Sink, put_count, put_count_line};

// Puts the number of a piece, its line, and its text without white space around it.
fn put_piece<K: Sink>(
    lines: &mut Lines<K>,
    text: &[u8],
    number: u32,
    piece: &Piece,
) -> Result<(), Failed>
    requires whole { IsWhole lines.old }
    requires lies { LiesIn text.now piece.now }
    ensures { HasPut K.Sink lines.old (piece_text text.now number piece.now) lines.new result }
{
    put_count(lines, b"piece ", number)?;
    put_count_line(lines, b" line ", piece.line)?;
    lines.put(text[piece.start as usize..piece.end as usize].trim_ascii())?;
    lines.put(b"\n")
}

/// Puts the line of the refusal of a program at a piece, and what is said of its reason.
///
/// `Failed` as of the sink.
pub(crate) fn put_refused<K: Sink>(
    lines: &mut Lines<K>,
    number: u32,
    refusal: Refusal,
    why: &[&str],
) -> Result<(), Failed>
    requires whole { IsWhole lines.old }
    requires why { map (λ line. line.now) why.now ≡ why_refused (Some refusal) }
    ensures { HasPut K.Sink lines.old (refusal_text number (Some refusal)) lines.new result }
{
    put_refusal(lines, number, refusal.line, refusal.reason)?;
    put_paragraphs(lines, why)
}

// Puts the refusal of a program at a piece, if it is refused there.
fn put_refusal_if<K: Sink>(
    lines: &mut Lines<K>,
    number: u32,
    refusal: Option<Refusal>,
    why: &[&str],
) -> Result<(), Failed>
    requires whole { IsWhole lines.old }
    requires why { map (λ line. line.now) why.now ≡ why_refused refusal }
    ensures { HasPut K.Sink lines.old (refusal_text number refusal) lines.new result }
{
    match refusal {
        Some(refusal) => put_refused(lines, number, refusal, why),
        None => lines.put(b""),
    }
}

/// A piece of a text, the refusal of the text if that is at this piece, and what is said of its reason.
#[derive(Clone, Copy)]
pub(crate) struct Shown<'a> {
    pub(crate) text: &'a [u8],
    pub(crate) number: u32,
    pub(crate) piece: Piece,
    pub(crate) refusal: Option<Refusal>,
    pub(crate) why: &'a [&'static str],
}

/// Puts a piece, and the refusal of its text if that is at this piece.
///
/// `Failed` as of the sink.
pub(crate) fn put_shown<K: Sink>(lines: &mut Lines<K>, shown: &Shown) -> Result<(), Failed>
    requires whole { IsWhole lines.old }
    requires lies { LiesIn shown.now.text.now shown.now.piece }
    requires why { map (λ line. line.now) shown.now.why.now ≡ why_refused shown.now.refusal }
    ensures { HasPut K.Sink lines.old
        (shown_text shown.now.text.now shown.now.number shown.now.piece shown.now.refusal) lines.new result }
{
    put_piece(lines, shown.text, shown.number, &shown.piece)?;
    put_refusal_if(lines, shown.number, shown.refusal, shown.why)
}
