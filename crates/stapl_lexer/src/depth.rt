//! The depth rule.
ghost use Rattle.std.specs.Prelude.{◌≡◌, ◌+◌, ◌-◌, ◌≤◌, if◌then◌else◌, true, false};
ghost use Rattle.stapl_lexer.specs.Depth.{is_opening, is_closing, is_condition, is_operator, is_colon, is_integer, count_of, is_label_word, after_label, begins_with_integer, HasOpenBrackets, IsTooDeep};

use crate::terminal::{InnerWord, Mark, Terminal};
use crate::token_fault::LONGEST_WORD;
use crate::{Token, TokenKind};

// The most brackets that may be open at once.
const MOST_OPEN: usize = 32;

// The most conditions of a piece.
const MOST_CONDITIONS: usize = 32;

// The most operator marks of a piece.
const MOST_OPERATORS: usize = 256;

#[tactic(auto, unfolding(crate::specs::Depth::is_opening))]
fn is_opening(terminal: Option<Terminal>) -> bool
    ensures { result ≡ is_opening terminal }
{
    matches!(
        terminal,
        Some(Terminal::Mark(Mark::LeftRound | Mark::LeftSquare))
    )
}

#[tactic(auto, unfolding(crate::specs::Depth::is_closing))]
fn is_closing(terminal: Option<Terminal>) -> bool
    ensures { result ≡ is_closing terminal }
{
    matches!(
        terminal,
        Some(Terminal::Mark(Mark::RightRound | Mark::RightSquare))
    )
}

#[tactic(auto, unfolding(crate::specs::Depth::is_condition))]
fn is_condition(terminal: Option<Terminal>) -> bool
    ensures { result ≡ is_condition terminal }
{
    matches!(terminal, Some(Terminal::If))
}

#[tactic(auto, unfolding(crate::specs::Depth::is_operator))]
fn is_operator(terminal: Option<Terminal>) -> bool
    ensures { result ≡ is_operator terminal }
{
    matches!(
        terminal,
        Some(Terminal::Operator(_) | Terminal::Mark(Mark::Tilde | Mark::Exclamation))
    )
}

#[tactic(auto, unfolding(crate::specs::Depth::is_colon))]
fn is_colon(terminal: Option<Terminal>) -> bool
    ensures { result ≡ is_colon terminal }
{
    matches!(terminal, Some(Terminal::Mark(Mark::Colon)))
}

#[tactic(auto, unfolding(crate::specs::Depth::is_integer))]
fn is_integer(terminal: Option<Terminal>) -> bool
    ensures { result ≡ is_integer terminal }
{
    matches!(terminal, Some(Terminal::Inner(InnerWord::Integer)))
}

// How many brackets are open after a token. A closing bracket closes the last open one, of whichever kind, and nothing
// if none is open.
fn open_after(terminal: Option<Terminal>, before: usize) -> usize
    requires { before ≤ 32 }
    ensures { result
        ≡ (if is_opening terminal then before + 1 else if is_closing terminal then before - 1 else before) }
{
    if is_opening(terminal) {
        before + 1
    } else if is_closing(terminal) {
        before.saturating_sub(1)
    } else {
        before
    }
}

// Whether too many brackets are open at some place.
fn has_open_brackets(tokens: &[Token]) -> bool
    ensures yes { result ≡ true → HasOpenBrackets tokens.now }
    ensures no { result ≡ false → HasOpenBrackets tokens.now → ⊥ }
{
    let mut depth = 0;
    for token in tokens {
        depth = open_after(token.terminal, depth);
        if depth > MOST_OPEN {
            return true;
        }
    }
    false
}

// How many times the word IF stands there.
fn count_conditions(tokens: &[Token]) -> usize
    ensures { result ≡ count_of is_condition tokens.now }
{
    let mut count = 0;
    for token in tokens {
        if is_condition(token.terminal) {
            count += 1;
        }
    }
    count
}

// How many operator marks stand there.
fn count_operators(tokens: &[Token]) -> usize
    ensures { result ≡ count_of is_operator tokens.now }
{
    let mut count = 0;
    for token in tokens {
        if is_operator(token.terminal) {
            count += 1;
        }
    }
    count
}

// Whether a token may be a label: a name that is not reserved.
fn is_label_word(token: &Token) -> bool
    ensures { result ≡ is_label_word token.now }
{
    matches!(token.kind, TokenKind::Word)
        && token.terminal.is_none()
        && token.end.saturating_sub(token.start) <= LONGEST_WORD
}

// The tokens after the label, if there is one.
fn after_label(tokens: &[Token]) -> &[Token]
    ensures { result.now ≡ after_label tokens.now }
{
    if tokens.len() >= 2 && is_label_word(&tokens[0]) && is_colon(tokens[1].terminal) {
        return &tokens[2..];
    }
    tokens
}

// Whether the first token is the word INTEGER.
fn begins_with_integer(tokens: &[Token]) -> bool
    ensures { result ≡ begins_with_integer tokens.now }
{
    !tokens.is_empty() && is_integer(tokens[0].terminal)
}

// Whether the piece of these tokens is too deep.
pub(crate) fn is_too_deep(tokens: &[Token]) -> bool
    ensures yes { result ≡ true → IsTooDeep tokens.now }
    ensures no { result ≡ false → IsTooDeep tokens.now → ⊥ }
{
    has_open_brackets(tokens)
        || count_conditions(tokens) > MOST_CONDITIONS
        || (!begins_with_integer(after_label(tokens)) && count_operators(tokens) > MOST_OPERATORS)
}
