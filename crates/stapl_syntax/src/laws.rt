//! Laws of the definitions.
ghost use Rattle.std.specs.Prelude.{◌≡◌, ◌↔◌, ℕ, List, All, length, true, false};
ghost use Rattle.std.specs.Str.{str_to_ascii_uppercase};
ghost use Rattle.stapl_lexer.specs.declared.piece.Piece.{Piece};
ghost use Rattle.stapl_lexer.specs.declared.reason.Reason.{Reason};
ghost use Rattle.stapl_lexer.specs.Names.{is_name};
ghost use Rattle.stapl_lexer.specs.ReservedWords.{word_terminal, is_reserved_word};
ghost use Rattle.stapl_syntax.specs.declared.signs.Sign.TheVariants as signs;
ghost use Rattle.stapl_syntax.specs.Symbols.{word_sign};
ghost use Rattle.stapl_syntax.specs.Trees.{StmtTree};
ghost use Rattle.stapl_syntax.specs.Reasons.{SmallestReason};
ghost use Rattle.stapl_syntax.specs.Programs.{IsProgram};
ghost use Rattle.stapl_syntax.specs.Contents.{IsWellNamed, PrintsShortStrings, HoldsLiterals};

/// The names of the ACTIONs and PROCEDUREs of a program are spelled as names and no reserved words, and each ACTION
/// names a procedure.
pub fn blocks_are_well_named()
    ensures { (text : List ℕ) (statements : List StmtTree) →
        IsProgram text statements → All (λ st. IsWellNamed st.body) statements }
{}

/// A string that a program prints, or a key under which it exports, is no longer than the text of the program.
pub fn texts_of_prints_are_short()
    ensures { (text : List ℕ) (statements : List StmtTree) →
        IsProgram text statements → All (λ st. PrintsShortStrings (length text) st.body) statements }
{}

/// A literal that stands as an array in a declaration, an assignment, an EXPORT, a scan or a padding has at least one
/// bit, and at most four for each byte of the text.
pub fn literals_have_bits()
    ensures { (text : List ℕ) (statements : List StmtTree) →
        IsProgram text statements → All (λ st. HoldsLiterals (length text) st.body) statements }
{}

/// A piece has at most one smallest reason.
pub fn a_piece_has_one_smallest_reason()
    ensures { (text : List ℕ) (piece : Piece) (r s : Reason) → SmallestReason text piece r → SmallestReason text piece s → r ≡ s }
{}

/// A word is seen as a name exactly if it is spelled as one and is not reserved.
pub fn free_words_are_names()
    ensures { (own v : List ℕ) → (word_sign (word_terminal own) own ≡ signs.Name v)
        ↔ ((is_name own ≡ true) × (is_reserved_word (str_to_ascii_uppercase own) ≡ false) × (v ≡ str_to_ascii_uppercase own)) }
{}
