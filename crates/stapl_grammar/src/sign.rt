//! What the grammar sees of a token.
ghost use Rattle.std.specs.Prelude.{◌≡◌, ℕ, List, length};
ghost use Rattle.std.specs.Str.{str_to_ascii_uppercase};
ghost use Rattle.stapl_lexer.specs.PieceTokens.{token_bytes, LiesBetween};
ghost use Rattle.stapl_syntax.specs.Symbols as symbols;
ghost use Rattle.stapl_grammar.specs.Seen.{seen_as};
ghost use Rattle.stapl_grammar.specs.Looks as looks;
ghost use Rattle.stapl_grammar.specs.Reading as reading;

use crate::looks::{is_join, is_mark, operator_of};
use stapl_lexer::{BinOp, JoinWord, Mark, Name, Terminal, Token, TokenKind};
use stapl_syntax::Sign;

// A reserved word or a mark.
#[tactic(auto, unfolding(stapl_syntax::specs::Symbols::terminal_sign))]
fn terminal_sign(terminal: Terminal) -> Sign
    ensures { result ≡ symbols.terminal_sign terminal }
{
    match terminal {
        Terminal::Operator(op) => Sign::Operator(op),
        Terminal::Mark(mark) => Sign::Mark(mark),
        Terminal::Outer(word) => Sign::Outer(word),
        Terminal::Inner(word) => Sign::Inner(word),
        Terminal::Simple(word) => Sign::Simple(word),
        Terminal::If => Sign::If,
        Terminal::Port(word) => Sign::Port(word),
        Terminal::Join(word) => Sign::Join(word),
        Terminal::Function(function) => Sign::Function(function),
        Terminal::State(state) => Sign::State(state),
        Terminal::LeftOutStatement => Sign::LeftOutStatement,
        Terminal::LeftOutWord => Sign::LeftOutWord,
    }
}

// A name, if the bytes spell one.
#[tactic(auto, using(stapl_lexer::proofs::NameLemmas::upper_is_name))]
fn name_sign(own: &[u8]) -> Sign
    ensures { result ≡ symbols.name_sign (str_to_ascii_uppercase own.now) }
{
    match Name::read(own) {
        Some(name) => Sign::Name(name),
        None => Sign::Other,
    }
}

// What a word is.
fn word_sign(text: &[u8], token: &Token) -> Sign
    requires { LiesBetween 0 (length text.now) token.now }
    ensures { result ≡ symbols.word_sign token.now.terminal (token_bytes text.now token.now) }
{
    match token.terminal {
        Some(terminal) => terminal_sign(terminal),
        None => name_sign(token.bytes(text)),
    }
}

// What a mark is.
fn mark_sign(token: &Token) -> Sign
    ensures { result ≡ symbols.mark_sign token.now.terminal }
{
    match token.terminal {
        Some(terminal) => terminal_sign(terminal),
        None => Sign::Other,
    }
}

// Whether a token is this mark. No name is read for that.
#[tactic(auto, using(crate::proofs::SignLemmas::no_name_is_mark), unfolding(crate::specs::Seen::seen_as, crate::specs::Looks::is_mark))]
pub(crate) fn is_mark_token(token: &Token, mark: Mark) -> bool
    ensures { (text : List ℕ) → result ≡ looks.is_mark (symbols.sign_of (seen_as text token.now)) mark }
{
    match token.kind {
        TokenKind::Word | TokenKind::Mark => match token.terminal {
            Some(terminal) => is_mark(terminal_sign(terminal), mark),
            None => false,
        },
        _ => false,
    }
}

// Whether a token is this word. No name is read for that.
#[tactic(auto, using(crate::proofs::SignLemmas::no_name_is_join), unfolding(crate::specs::Seen::seen_as, crate::specs::Looks::is_join))]
pub(crate) fn is_join_token(token: &Token, word: JoinWord) -> bool
    ensures { (text : List ℕ) → result ≡ looks.is_join (symbols.sign_of (seen_as text token.now)) word }
{
    match token.kind {
        TokenKind::Word | TokenKind::Mark => match token.terminal {
            Some(terminal) => is_join(terminal_sign(terminal), word),
            None => false,
        },
        _ => false,
    }
}

// The operator with two operands that a token is. No name is read for that.
#[tactic(auto, using(crate::proofs::SignLemmas::no_name_is_operator), unfolding(crate::specs::Seen::seen_as, crate::specs::Reading::operator_of))]
pub(crate) fn operator_of_token(token: &Token) -> Option<BinOp>
    ensures { (text : List ℕ) → result ≡ reading.operator_of (symbols.sign_of (seen_as text token.now)) }
{
    match token.kind {
        TokenKind::Word | TokenKind::Mark => match token.terminal {
            Some(terminal) => operator_of(terminal_sign(terminal)),
            None => None,
        },
        _ => None,
    }
}

// What the grammar sees of a token.
#[tactic(auto, unfolding(crate::specs::Seen::seen_as))]
pub(crate) fn sign_of(text: &[u8], token: &Token) -> Sign
    requires { LiesBetween 0 (length text.now) token.now }
    ensures { result ≡ symbols.sign_of (seen_as text.now token.now) }
{
    match token.kind {
        TokenKind::Word => word_sign(text, token),
        TokenKind::Number => Sign::Number(token.value),
        TokenKind::Mark => mark_sign(token),
        _ => Sign::Other,
    }
}
