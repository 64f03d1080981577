//! The statement that a piece of a text is.
ghost use Rattle.std.specs.Prelude.{◌≡◌, ◌≤◌, length, All, IfOk, Err};
ghost use Rattle.stapl_lexer.specs.declared.reason.Reason.{Reason};
ghost use Rattle.stapl_lexer.specs.Pieces.{LiesIn, text_limit};
ghost use Rattle.stapl_lexer.specs.PieceTokens.{LiesBetween};
ghost use Rattle.stapl_syntax.specs.Trees.{stmt_tree};
ghost use Rattle.stapl_syntax.specs.Statements.{IsPieceStatement};
ghost use Rattle.stapl_syntax.specs.Reasons.{SmallestReason};
ghost use Rattle.stapl_grammar.specs.declared.parsing.ParseRefused.TheVariants as refusals;
ghost use Rattle.stapl_grammar.specs.Seen.{seen};
ghost use Rattle.stapl_grammar.specs.Answers.{AnswersFor};

use crate::cursor::Cursor;
use crate::refused::Refused;
use stapl_lexer::{LexRefused, Piece, Reason, Token, tokens};
use stapl_syntax::Stmt;
use std::alloc::Global;
use thiserror::Error;

/// Why a piece is no statement.
#[derive(Clone, Copy, Debug, Error)]
pub enum ParseRefused {
    /// The piece has this reason.
    #[error("the piece is refused: {0:?}")]
    Because(Reason),
    /// There was no memory for its tokens or for the statement.
    #[error("out of memory")]
    Memory,
}

// The statement that some tokens of a text are.
#[tactic(auto, using(crate::proofs::ParsingLemmas::read_none, crate::proofs::ParsingLemmas::read_some))]
fn parse_tokens(alloc: Global, text: &[u8], tokens: &[Token]) -> Result<Stmt, ParseRefused>
    requires lie { All (LiesBetween 0 (length text.now)) tokens.now }
    requires small { length text.now ≤ text_limit }
    ensures { AnswersFor (seen text.now tokens.now) result }
{
    let cursor = Cursor::new(text, tokens);
    let mut ahead = cursor.ahead();
    let refused = match ahead.statement(alloc) {
        Ok(statement) => return Ok(statement),
        Err(refused) => refused,
    };
    match refused {
        Refused::Memory => Err(ParseRefused::Memory),
        Refused::Syntax => Err(ParseRefused::Because(cursor.reason())),
    }
}

/// The statement that a piece of a text is, as `cut` gives the piece (JESD71, statements). Operators group from the
/// left, the tightest first.
///
/// The answer is the statement exactly where nothing is wrong with the piece's bytes and single tokens, and its tokens
/// are a statement by the grammar. Otherwise the error `Because` has the smallest of the piece's reasons from
/// `Unterminated` to `Syntax`. `Memory` is want of memory. Each token is read a fixed number of times, and calls nest
/// only as deep as the depth rule of pieces allows.
pub fn parse(alloc: Global, text: &[u8], piece: &Piece) -> Result<Stmt, ParseRefused>
    requires small { length text.now ≤ text_limit }
    requires lies { LiesIn text.now piece.now }
    ensures ok { IfOk result (λ statement. IsPieceStatement text.now piece.now (stmt_tree statement)) }
    ensures because { (reason : Reason) → result ≡ Err (refusals.Because reason) → SmallestReason text.now piece.now reason }
{
    match tokens(alloc, text, piece) {
        Ok(tokens) => parse_tokens(alloc, text, &tokens),
        Err(LexRefused::Because(reason)) => Err(ParseRefused::Because(reason)),
        Err(LexRefused::Memory) => Err(ParseRefused::Memory),
    }
}
