//! The tokens of a piece that are still to be read.
use crate::contents::{binary_bits, check_number, hexadecimal_bits};
use crate::looks::{choice_of, is_assign_sign, is_character, is_hz, is_minus, is_state, level};
use crate::refused::Refused;
use crate::sign::{is_join_token, is_mark_token, operator_of_token, sign_of};
use base::ItemList;
use bit_list::Bits;
use stapl_lexer::{BinOp, JoinWord, Mark, Name, Token, TokenKind};
use stapl_syntax::Sign;
use std::alloc::Global;
use std::marker::Model;

// The tokens that are still to be read, seen as their symbols. After an error nothing is said of them.
#[derive(Drop)]
pub(crate) struct Cursor<'a> {
    text: &'a [u8],
    rest: &'a [Token],
}

impl<'a> Model for Cursor<'a> {
    ghost use Rattle.std.specs.Prelude.{List, All, length, ◌≤◌};
    ghost use Rattle.stapl_lexer.specs.Pieces.{text_limit};
    ghost use Rattle.stapl_lexer.specs.PieceTokens.{LiesBetween};
    ghost use Rattle.stapl_syntax.specs.Symbols.{Symbol};
    ghost use Rattle.stapl_grammar.specs.Seen.{seen};

    ghost Value = { List Symbol };

    ghost view = { λ c. seen c.text.now c.rest.now };

    ghost invariant = { λ c. (All (LiesBetween 0 (length c.text.now)) c.rest.now) × (length c.text.now ≤ text_limit) };
}

impl<'a> Cursor<'a> {
    ghost use Rattle.std.specs.Prelude.{◌≡◌, ◌<◌, ◌≤◌, All, length, [], ◌∷◌, IfSome, IfNone, OnOk, OnSome, MatchBool, Some, None, is_some};
    ghost use Rattle.std.specs.Bool.{OnTrue};
    ghost use Rattle.stapl_lexer.specs.Pieces.{text_limit};
    ghost use Rattle.stapl_lexer.specs.PieceTokens.{LiesBetween};
    ghost use Rattle.stapl_syntax.specs.Reasons.{is_assign_sign, first_sign};
    ghost use Rattle.stapl_grammar.specs.Given.{Gives};
    ghost use Rattle.stapl_grammar.specs.Looks.{after_mark, after_join, after_comma_join, begins_text, begins_state, begins_count, begins_choice, begins_anything};
    ghost use Rattle.stapl_grammar.specs.Reading.{next_sign, next_operator, name_at, literal_at};
    ghost use Rattle.stapl_grammar.specs.PartReading.{text_at, check_word_at, after_minus, after_character, after_hz};
    ghost use Rattle.stapl_grammar.specs.Seen.{seen, first_seen};

    // All of these tokens of a text.
    pub(crate) fn new(text: &'a [u8], rest: &'a [Token]) -> Cursor<'a>
        requires lie { All (LiesBetween 0 (length text.now)) rest.now }
        requires small { length text.now ≤ text_limit }
        ensures { result ≡ seen text.now rest.now }
    {
        Cursor { text, rest }
    }

    // The same tokens once more.
    pub(crate) fn ahead(&self) -> Cursor<'a>
        ensures { result ≡ self.now }
    {
        Cursor {
            text: self.text,
            rest: self.rest,
        }
    }

    // The sign of the first token.
    #[tactic(auto, unfolding(crate::specs::Seen::seen))]
    pub(crate) fn peek(&self) -> Option<Sign>
        ensures { result ≡ first_seen self.now }
    {
        let first = self.rest.first()?;
        Some(sign_of(self.text, first))
    }

    // The sign of the first token, and steps past it.
    #[tactic(auto, unfolding(crate::specs::Seen::seen, crate::specs::Reading::next_sign))]
    pub(crate) fn next(&mut self) -> Option<Sign>
        ensures some { IfSome result (λ g. next_sign self.old ≡ Some (g, self.new)) }
        ensures none { IfNone result (next_sign self.old ≡ None) }
        ensures shorter { OnSome result (length self.new < length self.old) }
    {
        let first = self.peek()?;
        self.rest = &self.rest[1..];
        Some(first)
    }

    // Steps past the first token, where it is this mark.
    #[tactic(auto, unfolding(crate::specs::Seen::seen, crate::specs::Looks::after_mark))]
    pub(crate) fn take_mark(&mut self, mark: Mark) -> bool
        ensures read { MatchBool result (after_mark mark self.old ≡ Some self.new) ((after_mark mark self.old ≡ None) × (self.new ≡ self.old)) }
        ensures shorter { OnTrue result (length self.new < length self.old) }
    {
        match self.rest.first() {
            Some(first) if is_mark_token(first, mark) => {
                self.rest = &self.rest[1..];
                true
            }
            _ => false,
        }
    }

    // Steps past the first token, where it is this word.
    #[tactic(auto, unfolding(crate::specs::Seen::seen, crate::specs::Looks::after_join))]
    pub(crate) fn take_join(&mut self, word: JoinWord) -> bool
        ensures read { MatchBool result (after_join word self.old ≡ Some self.new) ((after_join word self.old ≡ None) × (self.new ≡ self.old)) }
        ensures shorter { OnTrue result (length self.new < length self.old) }
    {
        match self.rest.first() {
            Some(first) if is_join_token(first, word) => {
                self.rest = &self.rest[1..];
                true
            }
            _ => false,
        }
    }

    // The operator of a level up to this one that stands first, and steps past it.
    #[tactic(auto, unfolding(crate::specs::Seen::seen, crate::specs::Reading::next_operator))]
    pub(crate) fn take_operator(&mut self, most: u32) -> Option<BinOp>
        ensures some { IfSome result (λ op. next_operator most self.old ≡ Some (op, self.new)) }
        ensures none { IfNone result ((next_operator most self.old ≡ None) × (self.new ≡ self.old)) }
        ensures shorter { OnSome result (length self.new < length self.old) }
    {
        let op = operator_of_token(self.rest.first()?)?;
        if level(op) <= most {
            self.rest = &self.rest[1..];
            Some(op)
        } else {
            None
        }
    }

    // Steps past the first token, where it is a minus.
    #[tactic(auto, unfolding(crate::specs::Seen::seen, crate::specs::PartReading::after_minus))]
    pub(crate) fn take_minus(&mut self) -> bool
        ensures read { MatchBool result (after_minus self.old ≡ Some self.new) ((after_minus self.old ≡ None) × (self.new ≡ self.old)) }
        ensures shorter { OnTrue result (length self.new < length self.old) }
    {
        match self.peek() {
            Some(first) if is_minus(first) => {
                self.rest = &self.rest[1..];
                true
            }
            _ => false,
        }
    }

    // Steps past the first token, where it is CHR$.
    #[tactic(auto, unfolding(crate::specs::Seen::seen, crate::specs::PartReading::after_character))]
    pub(crate) fn take_character(&mut self) -> bool
        ensures read { MatchBool result (after_character self.old ≡ Some self.new) ((after_character self.old ≡ None) × (self.new ≡ self.old)) }
        ensures shorter { OnTrue result (length self.new < length self.old) }
    {
        match self.peek() {
            Some(first) if is_character(first) => {
                self.rest = &self.rest[1..];
                true
            }
            _ => false,
        }
    }

    // Steps past a comma and this word, where they stand first.
    #[tactic(auto, unfolding(crate::specs::Looks::after_comma_join))]
    pub(crate) fn take_comma_join(&mut self, word: JoinWord) -> bool
        ensures read { MatchBool result (after_comma_join word self.old ≡ Some self.new) ((after_comma_join word self.old ≡ None) × (self.new ≡ self.old)) }
    {
        let mut ahead = self.ahead();
        if ahead.take_mark(Mark::Comma) && ahead.take_join(word) {
            *self = ahead;
            true
        } else {
            false
        }
    }

    // Steps past the word HZ, where it stands first.
    #[tactic(auto, unfolding(crate::specs::Seen::seen, crate::specs::PartReading::after_hz))]
    pub(crate) fn pass_hz(&mut self)
        ensures { self.new ≡ after_hz self.old }
    {
        if let Some(first) = self.peek()
            && is_hz(first)
        {
            self.rest = &self.rest[1..];
        }
    }

    // Whether a state stands first.
    #[tactic(auto, unfolding(crate::specs::Seen::seen, crate::specs::Looks::begins_state))]
    pub(crate) fn begins_state(&self) -> bool
        ensures { result ≡ begins_state self.now }
    {
        match self.peek() {
            Some(first) => is_state(first),
            None => false,
        }
    }

    // Whether a comma stands first, and no state after it.
    #[tactic(auto, unfolding(crate::specs::Looks::after_mark, crate::specs::Looks::begins_count))]
    pub(crate) fn begins_count(&self) -> bool
        ensures { result ≡ begins_count self.now }
    {
        let mut ahead = self.ahead();
        ahead.take_mark(Mark::Comma) && !ahead.begins_state()
    }

    // Whether OPTIONAL or RECOMMENDED stands first.
    #[tactic(auto, unfolding(crate::specs::Seen::seen, crate::specs::Looks::begins_choice))]
    pub(crate) fn begins_choice(&self) -> bool
        ensures { result ≡ begins_choice self.now }
    {
        match self.peek() {
            Some(first) => choice_of(first).is_some(),
            None => false,
        }
    }

    // Whether a mark stands first that may stand after the first name of an assignment.
    #[tactic(auto, unfolding(crate::specs::Seen::seen, stapl_syntax::specs::Reasons::is_assign_sign))]
    pub(crate) fn begins_assignment(&self) -> bool
        ensures { result ≡ is_assign_sign (first_sign self.now) }
    {
        match self.peek() {
            Some(first) => is_assign_sign(first),
            None => false,
        }
    }

    // Whether a token is left.
    #[tactic(auto, unfolding(crate::specs::Seen::seen))]
    pub(crate) fn begins_anything(&self) -> bool
        ensures { result ≡ begins_anything self.now }
    {
        match self.rest.first() {
            Some(_) => true,
            None => false,
        }
    }

    // Steps past the mark that stands first.
    pub(crate) fn expect_mark(&mut self, mark: Mark) -> Result<(), Refused>
        ensures read { Gives (λ _. self.new) result (after_mark mark self.old) }
        ensures shorter { OnOk result (length self.new < length self.old) }
    {
        if self.take_mark(mark) {
            Ok(())
        } else {
            Err(Refused::Syntax)
        }
    }

    // Steps past the word that stands first.
    pub(crate) fn expect_join(&mut self, word: JoinWord) -> Result<(), Refused>
        ensures read { Gives (λ _. self.new) result (after_join word self.old) }
        ensures shorter { OnOk result (length self.new < length self.old) }
    {
        if self.take_join(word) {
            Ok(())
        } else {
            Err(Refused::Syntax)
        }
    }

    // The name that stands first.
    #[tactic(auto, unfolding(crate::specs::Reading::name_at, crate::specs::Reading::name_of))]
    pub(crate) fn name(&mut self) -> Result<Name, Refused>
        ensures read { Gives (λ v. (v, self.new)) result (name_at self.old) }
        ensures shorter { OnOk result (length self.new < length self.old) }
    {
        let Some(first) = self.next() else {
            return Err(Refused::Syntax);
        };
        match first {
            Sign::Name(v) => Ok(v),
            _ => Err(Refused::Syntax),
        }
    }

    // Whether a string stands first.
    #[tactic(auto, unfolding(crate::specs::Seen::seen, crate::specs::Seen::seen_as, crate::specs::Looks::begins_text))]
    pub(crate) fn begins_text(&self) -> bool
        ensures { result ≡ begins_text self.now }
    {
        match self.rest.first() {
            Some(token) => matches!(token.kind, TokenKind::Text),
            None => false,
        }
    }

    // The bytes between the quotes of the string that stands first.
    #[tactic(auto, unfolding(crate::specs::Seen::seen, crate::specs::Seen::seen_as, crate::specs::PartReading::text_at))]
    pub(crate) fn text(&mut self, alloc: Global) -> Result<ItemList<u8>, Refused>
        ensures read { Gives (λ bytes. (bytes, self.new)) result (text_at self.old) }
        ensures shorter { OnOk result (length self.new < length self.old) }
    {
        let Some(token) = self.rest.first() else {
            return Err(Refused::Syntax);
        };
        match token.kind {
            TokenKind::Text => {
                let bytes = Vec::from_slice(alloc, token.inside(self.text))?;
                self.rest = &self.rest[1..];
                Ok(ItemList::of(bytes))
            }
            _ => Err(Refused::Syntax),
        }
    }

    // Whether a literal stands first.
    #[tactic(auto, unfolding(crate::specs::Seen::seen, crate::specs::Seen::seen_as, crate::specs::Reading::literal_at))]
    pub(crate) fn begins_literal(&self) -> bool
        ensures { result ≡ is_some (literal_at self.now) }
    {
        match self.rest.first() {
            Some(token) => matches!(token.kind, TokenKind::Binary | TokenKind::Hexadecimal),
            None => false,
        }
    }

    // The bits of the literal that stands first.
    #[tactic(auto, unfolding(crate::specs::Seen::seen, crate::specs::Seen::seen_as, crate::specs::Reading::literal_at))]
    pub(crate) fn literal(&mut self, alloc: Global) -> Result<Bits, Refused>
        ensures read { Gives (λ bits. (bits, self.new)) result (literal_at self.old) }
        ensures shorter { OnOk result (length self.new < length self.old) }
    {
        let Some(token) = self.rest.first() else {
            return Err(Refused::Syntax);
        };
        let own = token.bytes(self.text);
        let bits = match token.kind {
            TokenKind::Binary => binary_bits(alloc, &own[1..])?,
            TokenKind::Hexadecimal => hexadecimal_bits(alloc, &own[1..])?,
            _ => return Err(Refused::Syntax),
        };
        self.rest = &self.rest[1..];
        Ok(bits)
    }

    // The number of the digits after CRC, where they stand first.
    #[tactic(auto, unfolding(crate::specs::Seen::seen, crate::specs::Seen::seen_as, crate::specs::PartReading::check_word_at))]
    pub(crate) fn check_word(&mut self, alloc: Global) -> Result<u16, Refused>
        ensures read { Gives (λ number. (number, self.new)) result (check_word_at self.old) }
        ensures shorter { OnOk result (length self.new < length self.old) }
    {
        let Some(token) = self.rest.first() else {
            return Err(Refused::Syntax);
        };
        match token.kind {
            TokenKind::Hex4 => {
                let number = check_number(alloc, token.bytes(self.text))?;
                self.rest = &self.rest[1..];
                Ok(number)
            }
            _ => Err(Refused::Syntax),
        }
    }
}
