//! Laws of the definitions.
ghost use Rattle.std.specs.Prelude.{◌≡◌, ℕ, ◌≤◌, ◌↔◌, ◌⊎◌, List, [], ◌++◌, Bool, Option, None, false, length};
ghost use Rattle.std.specs.Str.{str_to_ascii_uppercase};
ghost use Rattle.stapl_lexer.specs.declared.piece.Piece.{Piece};
ghost use Rattle.stapl_lexer.specs.declared.token.TokenKind.{TokenKind};
ghost use Rattle.stapl_lexer.specs.Pieces.{IsCut};
ghost use Rattle.stapl_lexer.specs.PieceTokens.{SpacedDigits, digits_in, Lexeme, HasLexemes};
ghost use Rattle.stapl_lexer.specs.Segments.{Segment, Divides};
ghost use Rattle.stapl_lexer.specs.declared.reason.Reason.{Reason};
ghost use Rattle.stapl_lexer.specs.declared.token.Token.{Token};
ghost use Rattle.stapl_lexer.specs.PieceFaults.{IsSmallestTokenReason, AreGoodTokens, AreTokens};
ghost use Rattle.stapl_lexer.specs.ReservedWords.{word_terminal, is_reserved_word};

/// Each text is divided into some segments.
pub fn every_text_is_divided()
    ensures { (text : List ℕ) → (segments : List Segment) × Divides segments text [] }
{}

/// A text is divided into segments in at most one way.
pub fn divided_in_one_way()
    ensures { (a b : List Segment) (text : List ℕ) → Divides a text [] → Divides b text [] → a ≡ b }
{}

/// A text has at most one list of pieces.
pub fn cut_in_one_way()
    ensures { (text : List ℕ) (a b : List Piece) → IsCut text a → IsCut text b → a ≡ b }
{}

/// Each text has pieces.
pub fn every_text_has_pieces()
    ensures { (text : List ℕ) → (pieces : List Piece) × IsCut text pieces }
{}

/// The bytes between two places of a text have tokens, good and bad ones, whether the first word of the piece is known
/// or not.
pub fn all_bytes_have_tokens()
    ensures { (text : List ℕ) (first : Option Bool) (at limit : ℕ) → at ≤ limit → limit ≤ length text
        → (lexemes : List Lexeme) × HasLexemes text first at limit lexemes }
{}

/// Each piece has tokens, or a smallest reason against it.
pub fn each_piece_has_tokens_or_a_reason()
    ensures { (text : List ℕ) (piece : Piece) → piece.start ≤ piece.end → piece.end ≤ length text
        → ((tokens : List Token) × AreTokens text piece tokens)
        ⊎ ((reason : Reason) × IsSmallestTokenReason text piece reason) }
{}

/// A piece of a text has at most one list of good tokens.
pub fn one_list_of_tokens()
    ensures { (text : List ℕ) (piece : Piece) (a b : List Token)
        → AreGoodTokens text piece a → AreGoodTokens text piece b → a ≡ b }
{}

/// A piece has at most one smallest reason.
pub fn one_smallest_reason()
    ensures { (text : List ℕ) (piece : Piece) (a b : Reason)
        → IsSmallestTokenReason text piece a → IsSmallestTokenReason text piece b → a ≡ b }
{}

/// A piece that has tokens has no reason against it.
pub fn no_reason_against_tokens()
    ensures { (text : List ℕ) (piece : Piece) (tokens : List Token) (reason : Reason)
        → AreTokens text piece tokens → IsSmallestTokenReason text piece reason → ⊥ }
{}

/// A word is no terminal exactly if its bytes in upper case are not reserved.
pub fn free_words_are_no_terminals()
    ensures { (own : List ℕ) → (word_terminal own ≡ None) ↔ (is_reserved_word (str_to_ascii_uppercase own) ≡ false) }
{}

/// The digits of a literal are those of its bytes that stand outside comments.
pub fn digits_of_a_literal()
    ensures { (kind : TokenKind) (own after digits : List ℕ) → SpacedDigits kind (own ++ after) digits after
        → digits ≡ digits_in kind false own }
{}
