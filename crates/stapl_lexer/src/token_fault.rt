//! What is wrong with the tokens of a piece.
ghost use Rattle.std.specs.Prelude.{◌≡◌, ℕ, List};
ghost use Rattle.std.specs.List.{list_any};
ghost use Rattle.stapl_lexer.specs.declared.piece.Piece.{Piece};
ghost use Rattle.stapl_lexer.specs.PieceFaults.{is_long_word};
ghost use Rattle.stapl_lexer.specs.TokenReading.{IsReadPiece, IsTokenAnswer};

use crate::depth::is_too_deep;
use crate::reading::Lexed;
use crate::{Reason, Token, TokenKind};

// The most characters of a word.
pub(crate) const LONGEST_WORD: u32 = 32;

fn is_long_word(token: &Token) -> bool
    ensures { result ≡ is_long_word token.now }
{
    matches!(token.kind, TokenKind::Word) && token.end.saturating_sub(token.start) > LONGEST_WORD
}

fn has_long_word(tokens: &[Token]) -> bool
    ensures { result ≡ list_any is_long_word tokens.now }
{
    tokens.iter().any(|token| is_long_word(token))
}

// The smallest reason against a piece with these tokens, in whose bytes no reason lies.

pub(crate) fn reason_of_tokens(lexed: &Lexed) -> Option<Reason>
    ensures { (text : List ℕ) (piece : Piece)
        → IsReadPiece text piece lexed.now.tokens.items lexed.now.good lexed.now.large
        → IsTokenAnswer text piece lexed.now.good result }
{
    if has_long_word(&lexed.tokens) {
        return Some(Reason::NameTooLong);
    }
    if lexed.large {
        return Some(Reason::NumberTooLarge);
    }
    if is_too_deep(&lexed.tokens) {
        return Some(Reason::TooDeep);
    }
    if !lexed.good {
        return Some(Reason::Syntax);
    }
    None
}
