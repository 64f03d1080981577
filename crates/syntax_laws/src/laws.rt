//! Laws of the definitions.
ghost use Rattle.std.specs.Prelude.{◌≡◌, ◌≤◌, ◌++◌, ◌∷◌, [], ℕ, List, false};
ghost use Rattle.stapl_lexer.specs.declared.terminal.BinOp.{BinOp};
ghost use Rattle.stapl_lexer.specs.declared.terminal.Function.TheVariants as functions;
ghost use Rattle.stapl_lexer.specs.declared.piece.Piece.{Piece};
ghost use Rattle.stapl_lexer.specs.declared.token.Token.{Token};
ghost use Rattle.stapl_lexer.specs.Depth.{is_operator, is_condition, count_of};
ghost use Rattle.stapl_lexer.specs.PieceFaults.{AreGoodTokens};
ghost use Rattle.stapl_syntax.specs.declared.signs.UnOp.{UnOp};
ghost use Rattle.stapl_syntax.specs.Symbols.{Symbol, symbols_of};
ghost use Rattle.stapl_syntax.specs.Trees.{ExprTree, element, unary, binary, abs, ArrayTree, StmtTree};
ghost use Rattle.stapl_syntax.specs.Expressions.{operator, name, function, left_square, right_square, IsExpr, IsArray};
ghost use Rattle.stapl_syntax.specs.Statements.{Means, IsPieceStatement};
ghost use Rattle.canonical_text.specs.Printable.{is_integer_body, openings};
ghost use Rattle.canonical_text.specs.PrintedTokens.{unary_symbol};
ghost use Rattle.syntax_laws.specs.Sizes.{operators_in, conditions_in, nesting_in};
ghost use Rattle.syntax_laws.specs.Brackets.{printed, printed_array, printed_statement, in_brackets, HoldsOperand};

/// The depth rule counts exactly the operators of a statement, with one operand and with two, and its conditions: so
/// many tokens of a piece are one as the statement has that they mean. In a declaration of an INTEGER, signs of initial
/// values come on top.
pub fn the_depth_rule_counts_operators_and_conditions()
    ensures operators { (text : List ℕ) (piece : Piece) (tokens : List Token) (st : StmtTree) →
        AreGoodTokens text piece tokens → Means (symbols_of text tokens) st → is_integer_body st.body ≡ false →
        count_of is_operator tokens ≡ operators_in st.body }
    ensures conditions { (text : List ℕ) (piece : Piece) (tokens : List Token) (st : StmtTree) →
        AreGoodTokens text piece tokens → Means (symbols_of text tokens) st →
        count_of is_condition tokens ≡ conditions_in st.body }
{}

/// The statement of each piece of each text has at most 256 operators and 32 conditions, and at most 32 indexes and
/// functions stand in each other. A declaration of an INTEGER has no operators.
pub fn a_statement_keeps_the_limits()
    ensures operators { (text : List ℕ) (piece : Piece) (st : StmtTree) → IsPieceStatement text piece st →
        operators_in st.body ≤ 256 }
    ensures conditions { (text : List ℕ) (piece : Piece) (st : StmtTree) → IsPieceStatement text piece st →
        conditions_in st.body ≤ 32 }
    ensures nesting { (text : List ℕ) (piece : Piece) (st : StmtTree) → IsPieceStatement text piece st →
        nesting_in st.body ≤ 32 }
{}

/// In canonical text no operand of an operator stands in brackets that it does not need: without them the symbols are
/// not the expression. Around an index and what ABS takes stand only their own brackets.
pub fn operands_are_bracketed_only_if_needed()
    ensures left { (op : BinOp) (left right : ExprTree) →
        (rest : List Symbol) × HoldsOperand (binary op left right) [] (printed left) (operator op ∷ rest) }
    ensures right { (op : BinOp) (left right : ExprTree) →
        (front : List Symbol) × HoldsOperand (binary op left right) (front ++ operator op ∷ []) (printed right) [] }
    ensures only { (op : UnOp) (x : ExprTree) → HoldsOperand (unary op x) (unary_symbol op ∷ []) (printed x) [] }
    ensures index { (v : List ℕ) (x : ExprTree) →
        printed (element v x) ≡ name v ∷ left_square ∷ (printed x ++ right_square ∷ []) }
    ensures taken { (x : ExprTree) → printed (abs x) ≡ function functions.Abs ∷ in_brackets (printed x) }
{}

/// Of all symbols that are an expression, those that are printed for it have the fewest brackets, and no others have as
/// few. It is the same of an array.
pub fn printed_expressions_have_the_fewest_brackets()
    ensures fewest { (s : List Symbol) (e : ExprTree) → IsExpr 10 s e → openings (printed e) ≤ openings s }
    ensures only { (s : List Symbol) (e : ExprTree) → IsExpr 10 s e → openings s ≤ openings (printed e) →
        s ≡ printed e }
    ensures array_fewest { (s : List Symbol) (a : ArrayTree) → IsArray s a →
        openings (printed_array a) ≤ openings s }
    ensures array_only { (s : List Symbol) (a : ArrayTree) → IsArray s a → openings s ≤ openings (printed_array a) →
        s ≡ printed_array a }
{}

/// Of all symbols that mean a statement, those that are printed for it have the fewest brackets. Others may have as few,
/// since the grammar leaves open some commas and HZ.
pub fn printed_statements_have_the_fewest_brackets()
    ensures { (s : List Symbol) (st : StmtTree) → Means s st → openings (printed_statement st) ≤ openings s }
{}

/// No pair of brackets that is printed for a statement can be left out, however deep it stands: without it the symbols
/// mean another statement, or none. The two need not belong together: it is any bracket that opens, and any later one
/// that closes. It is the same of an expression and of an array.
pub fn no_brackets_can_be_left_out()
    ensures expression { (e : ExprTree) (before own after : List Symbol) →
        printed e ≡ before ++ (in_brackets own ++ after) → IsExpr 10 (before ++ (own ++ after)) e → ⊥ }
    ensures array { (a : ArrayTree) (before own after : List Symbol) →
        printed_array a ≡ before ++ (in_brackets own ++ after) → IsArray (before ++ (own ++ after)) a → ⊥ }
    ensures statement { (st : StmtTree) (before own after : List Symbol) →
        printed_statement st ≡ before ++ (in_brackets own ++ after) → Means (before ++ (own ++ after)) st → ⊥ }
{}
