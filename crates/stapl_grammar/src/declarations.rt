//! ENDPROC and declarations.
use crate::cursor::Cursor;
use crate::refused::Refused;
use base::ItemList;
use bit_list::Bits;
use stapl_lexer::{InnerWord, Mark};
use stapl_syntax::Body;
use std::alloc::Global;

impl<'a> Cursor<'a> {
    ghost use Rattle.std.specs.Prelude.{◌≡◌};
    ghost use Rattle.std.specs.Box.{box_value};
    ghost use Rattle.std.specs.Option.{option_map};
    ghost use Rattle.stapl_syntax.specs.Trees.{body_tree};
    ghost use Rattle.stapl_syntax.specs.Parts.{bit_part, bits_part, signed_part, signed_list_part};
    ghost use Rattle.stapl_grammar.specs.Given.{Gives};
    ghost use Rattle.stapl_grammar.specs.PartReading.{part_at};
    ghost use Rattle.stapl_grammar.specs.BodyReading.{mapped, boolean_of, boolean_part, integer_of, integer_part, inner_from};

    // ["=" bit]
    #[tactic(auto, unfolding(crate::specs::PartReading::part_at))]
    fn start_bit(&mut self) -> Result<Option<bool>, Refused>
        ensures { Gives (λ start. (start, self.new)) result (part_at bit_part self.old) }
    {
        if !self.take_mark(Mark::Equals) {
            return Ok(None);
        }
        let bit = self.bit()?;
        Ok(Some(bit))
    }

    // ["=" literal]
    #[tactic(auto, unfolding(crate::specs::PartReading::part_at))]
    fn start_bits(&mut self, alloc: Global) -> Result<Option<Box<Bits>>, Refused>
        ensures { Gives (λ start. (option_map box_value start, self.new)) result (part_at bits_part self.old) }
    {
        if !self.take_mark(Mark::Equals) {
            return Ok(None);
        }
        let bits = self.literal(alloc)?;
        Ok(Some(Box::new(alloc, bits)?))
    }

    // ["=" signed]
    #[tactic(auto, unfolding(crate::specs::PartReading::part_at))]
    fn start_value(&mut self) -> Result<Option<i32>, Refused>
        ensures { Gives (λ start. (start, self.new)) result (part_at signed_part self.old) }
    {
        if !self.take_mark(Mark::Equals) {
            return Ok(None);
        }
        let value = self.signed()?;
        Ok(Some(value))
    }

    // ["=" signed {"," signed}]
    #[tactic(auto, unfolding(crate::specs::PartReading::part_at))]
    fn start_values(&mut self, alloc: Global) -> Result<Option<Box<ItemList<i32>>>, Refused>
        ensures { Gives (λ start. (option_map box_value start, self.new)) result (part_at signed_list_part self.old) }
    {
        if !self.take_mark(Mark::Equals) {
            return Ok(None);
        }
        let values = self.signed_list(alloc)?;
        Ok(Some(Box::new(alloc, values)?))
    }

    // BOOLEAN name, and then "[" number "]" ["=" literal] | ["=" bit]
    #[tactic(auto, unfolding(crate::specs::PartReading::part_at))]
    fn boolean(&mut self, alloc: Global) -> Result<Body, Refused>
        ensures { Gives (λ b. (body_tree b, self.new)) result (mapped boolean_of (part_at boolean_part self.old)) }
    {
        let name = self.name()?;
        if self.take_mark(Mark::LeftSquare) {
            let size = self.number()?;
            self.expect_mark(Mark::RightSquare)?;
            let start = self.start_bits(alloc)?;
            return Ok(Body::BooleanArray(name, size, start));
        }
        let start = self.start_bit()?;
        Ok(Body::Boolean(name, start))
    }

    // INTEGER name, and then "[" number "]" ["=" signed {"," signed}] | ["=" signed]
    #[tactic(auto, unfolding(crate::specs::PartReading::part_at))]
    fn integer(&mut self, alloc: Global) -> Result<Body, Refused>
        ensures { Gives (λ b. (body_tree b, self.new)) result (mapped integer_of (part_at integer_part self.old)) }
    {
        let name = self.name()?;
        if self.take_mark(Mark::LeftSquare) {
            let size = self.number()?;
            self.expect_mark(Mark::RightSquare)?;
            let start = self.start_values(alloc)?;
            return Ok(Body::IntegerArray(name, size, start));
        }
        let start = self.start_value()?;
        Ok(Body::Integer(name, start))
    }

    // ENDPROC or a declaration, after its first word.
    #[tactic(auto, unfolding(crate::specs::BodyReading::inner_from))]
    pub(crate) fn inner_statement(
        &mut self,
        alloc: Global,
        word: InnerWord,
    ) -> Result<Body, Refused>
        ensures { Gives (λ b. (body_tree b, self.new)) result (inner_from word self.old) }
    {
        match word {
            InnerWord::EndProcedure => Ok(Body::EndProcedure),
            InnerWord::Boolean => self.boolean(alloc),
            InnerWord::Integer => self.integer(alloc),
        }
    }
}
