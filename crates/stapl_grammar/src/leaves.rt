//! The parts of statements that have no parts.
use crate::cursor::Cursor;
use crate::looks::choice_of;
use crate::refused::Refused;
use stapl_lexer::Mark;
use stapl_syntax::{Exported, ItemChoice, PrintPart, Sign};
use std::alloc::Global;

impl<'a> Cursor<'a> {
    ghost use Rattle.std.specs.Prelude.{◌≡◌, ◌<◌, length, OnOk};
    ghost use Rattle.stapl_syntax.specs.Trees.{part_tree, export_tree};
    ghost use Rattle.stapl_grammar.specs.Given.{Gives};
    ghost use Rattle.stapl_grammar.specs.PartReading.{state_at, number_at, signed_at, bit_at, choice_at, print_part_at, export_at};

    // The state that stands first, by its number.
    #[tactic(auto, unfolding(crate::specs::PartReading::state_at, crate::specs::PartReading::state_of))]
    pub(crate) fn state(&mut self) -> Result<u8, Refused>
        ensures read { Gives (λ k. (k, self.new)) result (state_at self.old) }
        ensures shorter { OnOk result (length self.new < length self.old) }
    {
        let Some(first) = self.next() else {
            return Err(Refused::Syntax);
        };
        match first {
            Sign::State(state) => Ok(state),
            _ => Err(Refused::Syntax),
        }
    }

    // The number that stands first.
    #[tactic(auto, unfolding(crate::specs::PartReading::number_at, crate::specs::PartReading::number_of))]
    pub(crate) fn number(&mut self) -> Result<i32, Refused>
        ensures read { Gives (λ z. (z, self.new)) result (number_at self.old) }
        ensures shorter { OnOk result (length self.new < length self.old) }
    {
        let Some(first) = self.next() else {
            return Err(Refused::Syntax);
        };
        match first {
            Sign::Number(number) => Ok(number),
            _ => Err(Refused::Syntax),
        }
    }

    // A number, or its wrapped negation after a minus.
    #[tactic(auto, unfolding(crate::specs::PartReading::signed_at))]
    pub(crate) fn signed(&mut self) -> Result<i32, Refused>
        ensures read { Gives (λ z. (z, self.new)) result (signed_at self.old) }
        ensures shorter { OnOk result (length self.new < length self.old) }
    {
        if self.take_minus() {
            let number = self.number()?;
            return Ok(number.wrapping_neg());
        }
        let number = self.number()?;
        Ok(number)
    }

    // The number 0 or 1.
    #[tactic(auto, unfolding(crate::specs::PartReading::bit_at, crate::specs::PartReading::bit_of))]
    pub(crate) fn bit(&mut self) -> Result<bool, Refused>
        ensures read { Gives (λ bit. (bit, self.new)) result (bit_at self.old) }
    {
        let number = self.number()?;
        match number {
            0 => Ok(false),
            1 => Ok(true),
            _ => Err(Refused::Syntax),
        }
    }

    // OPTIONAL or RECOMMENDED.
    #[tactic(auto, unfolding(crate::specs::PartReading::choice_at))]
    pub(crate) fn choice(&mut self) -> Result<ItemChoice, Refused>
        ensures read { Gives (λ c. (c, self.new)) result (choice_at self.old) }
        ensures shorter { OnOk result (length self.new < length self.old) }
    {
        let Some(first) = self.next() else {
            return Err(Refused::Syntax);
        };
        match choice_of(first) {
            Some(choice) => Ok(choice),
            None => Err(Refused::Syntax),
        }
    }

    // A part of what PRINT prints: a string, a character or an expression.
    #[tactic(auto, unfolding(crate::specs::PartReading::print_part_at, crate::specs::Reading::bracketed_by, crate::specs::Reading::closed_by))]
    pub(crate) fn print_part(&mut self, alloc: Global) -> Result<PrintPart, Refused>
        ensures read { Gives (λ p. (part_tree p, self.new)) result (print_part_at self.old) }
        ensures shorter { OnOk result (length self.new < length self.old) }
    {
        if self.begins_text() {
            let bytes = self.text(alloc)?;
            return Ok(PrintPart::Text(bytes));
        }
        if self.take_character() {
            self.expect_mark(Mark::LeftRound)?;
            let number = self.expr(alloc)?;
            self.expect_mark(Mark::RightRound)?;
            return Ok(PrintPart::Character(number));
        }
        let value = self.expr(alloc)?;
        Ok(PrintPart::Value(value))
    }

    // What EXPORT exports: an array, or where none stands there an expression.
    #[tactic(auto, unfolding(crate::specs::PartReading::export_at))]
    pub(crate) fn exported(&mut self, alloc: Global) -> Result<Exported, Refused>
        ensures read { Gives (λ x. (export_tree x, self.new)) result (export_at self.old) }
    {
        let mut ahead = self.ahead();
        match ahead.array(alloc) {
            Ok(array) => {
                *self = ahead;
                Ok(Exported::Array(array))
            }
            Err(Refused::Memory) => Err(Refused::Memory),
            Err(Refused::Syntax) => {
                let value = self.expr(alloc)?;
                Ok(Exported::Value(value))
            }
        }
    }
}
