//! Laws of the grammar.
ghost use Rattle.std.specs.Prelude.{◌≡◌, ◌≤◌, ◌⊎◌, ℕ, List, length, false};
ghost use Rattle.stapl_lexer.specs.declared.piece.Piece.{Piece};
ghost use Rattle.stapl_lexer.specs.declared.reason.Reason.{Reason};
ghost use Rattle.stapl_syntax.specs.Symbols.{Symbol};
ghost use Rattle.stapl_syntax.specs.Trees.{StmtTree};
ghost use Rattle.stapl_syntax.specs.Statements.{Means, IsPieceStatement};
ghost use Rattle.stapl_syntax.specs.Reasons.{HasReason, SmallestReason, after_label, is_unknown, holds_left_out};

/// Symbols mean at most one statement.
pub fn one_statement()
    ensures { (s : List Symbol) (a b : StmtTree) → Means s a → Means s b → a ≡ b }
{}

/// A piece is at most one statement.
pub fn a_piece_is_one_statement()
    ensures { (text : List ℕ) (piece : Piece) (a b : StmtTree) → IsPieceStatement text piece a → IsPieceStatement text piece b → a ≡ b }
{}

/// Symbols that mean a statement begin as a statement, and hold no word that the profile leaves out. So if one of these
/// two reasons holds, the piece is not in the grammar.
pub fn a_statement_is_known_and_supported()
    ensures known { (s : List Symbol) (statement : StmtTree) → Means s statement → is_unknown (after_label s) ≡ false }
    ensures supported { (s : List Symbol) (statement : StmtTree) → Means s statement → holds_left_out s ≡ false }
{}

/// A piece that is a statement has no reason why it is none.
pub fn a_statement_has_no_reason()
    ensures { (text : List ℕ) (piece : Piece) (st : StmtTree) (reason : Reason) → IsPieceStatement text piece st → HasReason text piece reason → ⊥ }
{}

/// Each piece is a statement or has a smallest reason why it is none.
pub fn each_piece_is_a_statement_or_has_a_reason()
    ensures { (text : List ℕ) (piece : Piece) → piece.start ≤ piece.end → piece.end ≤ length text
        → ((st : StmtTree) × IsPieceStatement text piece st) ⊎ ((reason : Reason) × SmallestReason text piece reason) }
{}
