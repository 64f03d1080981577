//! Lists with commas between their items.
#![tactic(auto, using(crate::proofs::WriterLemmas::written_append))]

ghost use Rattle.std.specs.Prelude.{◌≡◌, List, [], ◌∷◌, OnOk};
ghost use Rattle.stapl_syntax.specs.declared.signs.Sign.TheVariants as signs;
ghost use Rattle.stapl_syntax.specs.Expressions.{name};
ghost use Rattle.stapl_syntax.specs.Parts.{comma, item_part};
ghost use Rattle.stapl_syntax.specs.Symbols.{Plain};
ghost use Rattle.stapl_syntax.specs.Trees.{part_tree, item_tree};
ghost use Rattle.canonical_text.specs.PrintedTokens.{Printed, Seen};
ghost use Rattle.canonical_text.specs.PrintedStatements.{part_tokens, print_part_tokens, separated_tokens};
ghost use Rattle.canonical_text.specs.PrintedStatements.{signed_tokens};
ghost use Rattle.canonical_writer.specs.Written.{written};

use crate::writer::Writer;
use stapl_lexer::{Function, JoinWord, Mark, Name};
use stapl_syntax::{Item, ItemChoice, PrintPart, UnOp};
use std::alloc::AllocError;

/// What stands in a list.
pub(crate) trait ListItem {
    /// Its tokens.
    ghost tokens: { Self → List Printed };

    /// Puts it.
    fn put_on(&self, writer: &mut Writer) -> Result<(), AllocError>
        ensures { OnOk result (writer.new ≡ written writer.old (tokens self.now)) };
}

impl ListItem for Name {
    ghost tokens = { λ v. Seen (name v) ∷ [] };

    fn put_on(&self, writer: &mut Writer) -> Result<(), AllocError> {
        writer.put_name(self)
    }
}

/// An item of an action, with its choice.
impl ListItem for Item {
    ghost tokens = { λ item. part_tokens item_part (item_tree item) };

    #[tactic(auto, unfolding(canonical_text::specs::PrintedStatements::choice_tokens), using(crate::proofs::WriterLemmas::written_append))]
    fn put_on(&self, writer: &mut Writer) -> Result<(), AllocError> {
        writer.put_name(&self.procedure)?;
        match self.choice {
            None => Ok(()),
            Some(ItemChoice::Optional) => writer.put_join(JoinWord::Optional),
            Some(ItemChoice::Recommended) => writer.put_join(JoinWord::Recommended),
        }
    }
}

/// An initial value, with its sign.
impl ListItem for i32 {
    ghost tokens = { signed_tokens };

    fn put_on(&self, writer: &mut Writer) -> Result<(), AllocError> {
        writer.put_signed(*self)
    }
}

/// A state, by its number.
impl ListItem for u8 {
    ghost tokens = { λ state. Seen (Plain (signs.State state)) ∷ [] };

    fn put_on(&self, writer: &mut Writer) -> Result<(), AllocError> {
        writer.put_state(*self)
    }
}

/// A part of what PRINT prints.
impl ListItem for PrintPart {
    ghost tokens = { λ part. print_part_tokens (part_tree part) };

    fn put_on(&self, writer: &mut Writer) -> Result<(), AllocError> {
        match self {
            PrintPart::Text(bytes) => writer.put_text(bytes.as_slice()),
            PrintPart::Value(e) => writer.put_value(e),
            PrintPart::Character(e) => {
                writer.put_function(Function::Character)?;
                writer.put_mark(Mark::LeftRound)?;
                writer.put_value(e)?;
                writer.put_mark(Mark::RightRound)
            }
        }
    }
}

impl Writer {
    /// An initial value: its sign, and its digits.
    pub(crate) fn put_signed(&mut self, n: i32) -> Result<(), AllocError>
        ensures { OnOk result (self.new ≡ written self.old (signed_tokens n)) }
    {
        if n < 0 {
            self.put_unary(UnOp::Negate)?;
            self.put_number(n.wrapping_neg())
        } else {
            self.put_number(n)
        }
    }

    /// Items, with a comma between each two.
    pub(crate) fn put_list<T: ListItem>(&mut self, items: &[T]) -> Result<(), AllocError>
        ensures { OnOk result (self.new ≡ written self.old (separated_tokens T.tokens (Seen comma) items.now)) }
    {
        for (i, item) in items.iter().enumerate() {
            if i > 0 {
                self.put_mark(Mark::Comma)?;
            }
            item.put_on(self)?;
        }
        Ok(())
    }
}
