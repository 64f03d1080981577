//! What is known of a piece.
ghost use Rattle.std.specs.Prelude.{◌≡◌, ◌≤◌, length, IfOk, IfSome};
ghost use Rattle.stapl_lexer.specs.Pieces.{LiesIn, text_limit};
ghost use Rattle.tool_questions.specs.Numbers.{part_numbered};
ghost use Rattle.tool_questions.specs.Pieces.{RefusalAt, IsReport};

use stapl_checker::{CheckRefused, check};
use stapl_lexer::{Piece, Reason, cut};
use std::alloc::{AllocError, Global};

/// The first fault of a text: the line of its piece, and its reason.
#[derive(Clone, Copy)]
pub(crate) struct Refusal {
    pub(crate) line: u32,
    pub(crate) reason: Reason,
}

/// What is known of a piece of a text.
#[derive(Clone, Copy)]
pub(crate) struct PieceReport {
    /// Where the piece lies, if the text has it.
    pub(crate) place: Option<Piece>,
    /// The first fault of the text, if that is at this piece.
    pub(crate) refusal: Option<Refusal>,
}

// The piece with this number, counted from 1.
fn piece_numbered(pieces: &[Piece], number: u32) -> Option<Piece>
    ensures { result ≡ part_numbered number pieces.now }
{
    if number == 0 {
        return None;
    }
    pieces.get(number as usize - 1).copied()
}

// The first fault of a text, if that is at the piece with this number.
fn refusal_at(alloc: Global, text: &[u8], number: u32) -> Result<Option<Refusal>, AllocError>
    ensures { IfOk result (RefusalAt text.now number) }
{
    match check(alloc, text) {
        Ok(_program) => Ok(None),
        Err(CheckRefused::Refused { piece, .. }) if piece != number => Ok(None),
        Err(CheckRefused::Refused { line, reason, .. }) => Ok(Some(Refusal { line, reason })),
        Err(CheckRefused::Memory) => Err(AllocError),
    }
}

/// What is known of the piece with this number, counted from 1, of a text, which may be any bytes. The only error is
/// want of memory.
pub(crate) fn report_of(alloc: Global, text: &[u8], number: u32) -> Result<PieceReport, AllocError>
    requires { length text.now ≤ text_limit }
    ensures report { IfOk result (IsReport text.now number) }
    ensures lies { IfOk result (λ report. IfSome report.place (LiesIn text.now)) }
{
    let pieces = cut(alloc, text)?;
    let place = piece_numbered(&pieces, number);
    let refusal = refusal_at(alloc, text, number)?;
    Ok(PieceReport { place, refusal })
}
