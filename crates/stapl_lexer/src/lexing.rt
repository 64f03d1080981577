//! The tokens of a piece.
ghost use Rattle.std.specs.Prelude.{◌≡◌, ◌≤◌, length, All, IfOk, Err};
ghost use Rattle.stapl_lexer.specs.declared.reason.Reason.{Reason};
ghost use Rattle.stapl_lexer.specs.declared.lexing.LexRefused.TheVariants as refusals;
ghost use Rattle.stapl_lexer.specs.Pieces.{LiesIn, text_limit};
ghost use Rattle.stapl_lexer.specs.PieceTokens.{LiesBetween};
ghost use Rattle.stapl_lexer.specs.PieceFaults.{AreTokens, IsSmallestTokenReason};

use crate::byte_fault::reason_of_bytes;
use crate::reading::read_lexemes;
use crate::token_fault::reason_of_tokens;
use crate::{Piece, Reason, Token};
use std::alloc::Global;
use thiserror::Error;

/// Why a piece has no list of good tokens.
#[derive(Clone, Copy, Debug, PartialEq, Eq, Error)]
pub enum LexRefused {
    /// The piece has this reason.
    #[error("the piece is refused: {0:?}")]
    Because(Reason),
    /// There was no memory for the tokens.
    #[error("out of memory")]
    Memory,
}

/// The tokens of a piece of a text, as `cut` gives it (JESD71, statements). White space and comments separate tokens
/// and mean nothing else, and each token is as long as it can be.
///
/// The error `Because` has the smallest reason against the piece that lies in its bytes and its tokens. `Memory` is
/// want of memory. The time is linear in the length of the piece.
pub fn tokens(alloc: Global, text: &[u8], piece: &Piece) -> Result<Vec<Token>, LexRefused>
    requires small { length text.now ≤ text_limit }
    requires lies { LiesIn text.now piece.now }
    ensures ok { IfOk result (λ tokens. AreTokens text.now piece.now tokens.items) }
    ensures lie { IfOk result (λ tokens. All (LiesBetween piece.now.start piece.now.end) tokens.items) }
    ensures because { (reason : Reason) → result ≡ Err (refusals.Because reason)
        → IsSmallestTokenReason text.now piece.now reason }
{
    let Ok(lexed) = read_lexemes(alloc, text, piece.start as usize, piece.end as usize) else {
        return Err(LexRefused::Memory);
    };
    if let Some(reason) = reason_of_bytes(text, piece) {
        return Err(LexRefused::Because(reason));
    }
    if let Some(reason) = reason_of_tokens(&lexed) {
        return Err(LexRefused::Because(reason));
    }
    Ok(lexed.tokens)
}
