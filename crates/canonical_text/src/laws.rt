//! Laws of canonical text.
ghost use Rattle.std.specs.Prelude.{◌≡◌, ◌≤◌, ◌-◌, ◌↔◌, ◌++◌, ◌⊎◌, ℕ, List, [], ◌∷◌, None, Some, true, All, codes};
ghost use Rattle.std.specs.Prelude.{length, map, slice_get, slice_range, take};
ghost use Rattle.std.specs.List.{list_all};
ghost use Rattle.stapl_lexer.specs.declared.piece.Piece.{Piece};
ghost use Rattle.stapl_lexer.specs.declared.reason.Reason.{Reason};
ghost use Rattle.stapl_lexer.specs.declared.token.Token.{Token};
ghost use Rattle.stapl_lexer.specs.Depth.{IsTooDeep};
ghost use Rattle.stapl_lexer.specs.PieceFaults.{HasTokenReason, AreGoodTokens, AreTokens};
ghost use Rattle.stapl_lexer.specs.Pieces.{text_limit, IsCut};
ghost use Rattle.stapl_lexer.specs.Crc.{check_word};
ghost use Rattle.stapl_syntax.specs.Expressions.{IsExpr};
ghost use Rattle.stapl_syntax.specs.Programs.{IsProgram};
ghost use Rattle.stapl_syntax.specs.Statements.{Means, IsPieceStatement};
ghost use Rattle.stapl_syntax.specs.Symbols.{Symbol, symbols_of};
ghost use Rattle.stapl_syntax.specs.Trees.{ExprTree, StmtTree, crc};
ghost use Rattle.canonical_text.specs.CanonicalText.{canonical_text, checked_statements, plain, HasStatements};
ghost use Rattle.canonical_text.specs.Examples.{first_example, second_example, third_example};
ghost use Rattle.canonical_text.specs.InitialValues.{HoldsInitialValues};
ghost use Rattle.canonical_text.specs.Printable.{CanBePrinted};
ghost use Rattle.canonical_text.specs.PrintedStatements.{expr_tokens, stmt_tokens};
ghost use Rattle.canonical_text.specs.PrintedTokens.{Printed, seen};
ghost use Rattle.canonical_text.specs.Spacing.{spaced, stay_apart, is_ordinary};
ghost use Rattle.canonical_text.specs.Spellable.{is_spellable};

/// The tokens that are printed for an expression are that expression.
pub fn printed_expressions_are_read_back()
    ensures { (n : ℕ) (e : ExprTree) → IsExpr n (map seen (expr_tokens n e)) e }
{}

/// The tokens that are printed for a statement mean that statement, if any symbols do.
pub fn printed_statements_are_read_back()
    ensures { (s : List Symbol) (st : StmtTree) → Means s st → HoldsInitialValues st.body →
        Means (map seen (stmt_tokens st)) st }
{}

/// Tokens that can be spelled and that stay apart, printed with their spaces between the front of a text or a line feed
/// and a semicolon, are the tokens of that piece, and no reason stands against it but the depth rule.
pub fn printed_tokens_are_read_back()
    ensures { (text lead : List ℕ) (piece : Piece) (ts : List Printed) → piece.start ≤ piece.end →
        piece.end ≤ length text → piece.closed ≡ true → (lead ≡ []) ⊎ (lead ≡ 10 ∷ []) →
        slice_range text piece.start piece.end ≡ lead ++ spaced ts → list_all (λ t. is_spellable (seen t)) ts ≡ true →
        list_all is_ordinary ts ≡ true → stay_apart ts ≡ true → (tokens : List Token) ×
        AreGoodTokens text piece tokens × (symbols_of text tokens ≡ map seen ts) ×
        ((reason : Reason) → HasTokenReason text piece reason → IsTooDeep tokens) }
{}

/// A piece that holds what is printed for a statement that can be printed is that statement.
pub fn printed_pieces_are_statements()
    ensures { (text lead : List ℕ) (piece : Piece) (st : StmtTree) → piece.start ≤ piece.end →
        piece.end ≤ length text → piece.closed ≡ true → (lead ≡ []) ⊎ (lead ≡ 10 ∷ []) →
        slice_range text piece.start piece.end ≡ lead ++ spaced (stmt_tokens st) → CanBePrinted st →
        IsPieceStatement text piece st }
{}

/// The statement of each piece of each text can be printed, and so can the statements of a program.
pub fn statements_can_be_printed()
    ensures piece { (text : List ℕ) (piece : Piece) (st : StmtTree) → IsPieceStatement text piece st →
        CanBePrinted st }
    ensures program { (text : List ℕ) (statements : List StmtTree) → IsProgram text statements →
        All CanBePrinted statements }
{}

/// The pieces of the canonical text of statements that can be printed are these statements, but CRC has the check word
/// of the text.
pub fn canonical_text_is_read_back()
    ensures { (statements : List StmtTree) → All CanBePrinted statements →
        HasStatements (canonical_text statements) (checked_statements statements) }
{}

/// The canonical text of a program is a program of the same statements, but CRC has the check word of the text.
pub fn canonical_text_is_a_program()
    ensures program { (text : List ℕ) (statements : List StmtTree) → IsProgram text statements →
        length (canonical_text statements) ≤ text_limit →
        IsProgram (canonical_text statements) (checked_statements statements) }
    ensures same { (statements : List StmtTree) → map plain (checked_statements statements) ≡ map plain statements }
{}

/// Two programs have equal canonical texts exactly if their statements are equal with the values of CRC left out.
pub fn equal_texts_are_equal_statements()
    ensures { (text other : List ℕ) (a b : List StmtTree) → IsProgram text a → IsProgram other b →
        length (canonical_text a) ≤ text_limit → length (canonical_text b) ≤ text_limit →
        (canonical_text a ≡ canonical_text b) ↔ (map plain a ≡ map plain b) }
{}

/// What is printed of the statements of canonical text is that text again.
pub fn printing_twice_is_printing_once()
    ensures { (statements : List StmtTree) →
        canonical_text (checked_statements statements) ≡ canonical_text statements }
{}

/// The digits after CRC in canonical text are the check word of the bytes before the word CRC.
pub fn the_check_word_is_good()
    ensures { (statements : List StmtTree) (pieces : List Piece) (piece : Piece) (n : ℕ) (word : Token)
        (others : List Token) → All CanBePrinted statements → IsCut (canonical_text statements) pieces →
        slice_get pieces (length pieces - 1) ≡ Some piece →
        slice_get (checked_statements statements) (length (checked_statements statements) - 1)
        ≡ Some (record { label = None; body = crc n }) →
        AreTokens (canonical_text statements) piece (word ∷ others) →
        n ≡ check_word (take word.start (canonical_text statements)) }
{}

/// The canonical texts of three examples, written out.
pub fn examples_in_canonical_text()
    ensures first { canonical_text first_example
        ≡ codes "ACTION A = P;\nPROCEDURE P;\nPRINT \"x\", CHR$(65), (1 + 2) * 3, -4;\nENDPROC;\n" }
    ensures second { canonical_text second_example ≡ codes "BOOLEAN X[4] = $A;\nFREQUENCY 1000000 HZ;\n" }
    ensures third { canonical_text third_example ≡ codes "L: IF !OK && I == --4 THEN IF 1 THEN GOTO BAD;\n"
        ++ codes "DRSCAN 8, #11100, CAPTURE X[7 - (1 - 2)..0], COMPARE E[], BOOL(2147483648), R[3];\n"
        ++ codes "INTEGER N[3] = -5, -2147483648, 7;\nWAIT IDLE, 3 CYCLES, 10 USEC, IRPAUSE;\n"
        ++ codes "STATE RESET, IDLE;\nFOR I = 3 TO 1 STEP -1;\nACTION A \"t\" = P OPTIONAL, Q;\n" }
{}
