//! Statements outside procedures.
use crate::cursor::Cursor;
use crate::refused::Refused;
use base::ItemList;
use stapl_lexer::{JoinWord, Mark, Name, OuterWord};
use stapl_syntax::Body;
use std::alloc::Global;

impl<'a> Cursor<'a> {
    ghost use Rattle.std.specs.Prelude.{◌≡◌};
    ghost use Rattle.std.specs.Box.{box_value};
    ghost use Rattle.std.specs.Option.{option_map};
    ghost use Rattle.stapl_syntax.specs.Trees.{body_tree};
    ghost use Rattle.stapl_syntax.specs.Parts.{note_part, action_part, procedure_part, uses_part, maybe, a_text};
    ghost use Rattle.stapl_grammar.specs.Given.{Gives};
    ghost use Rattle.stapl_grammar.specs.PartReading.{part_at};
    ghost use Rattle.stapl_grammar.specs.BodyReading.{mapped, note_of, action_of, procedure_of, outer_from};

    // NOTE string string
    #[tactic(auto, unfolding(crate::specs::PartReading::part_at))]
    fn note(&mut self, alloc: Global) -> Result<Body, Refused>
        ensures { Gives (λ b. (body_tree b, self.new)) result (mapped note_of (part_at note_part self.old)) }
    {
        let key = self.text(alloc)?;
        let text = self.text(alloc)?;
        Ok(Body::Note(key, text))
    }

    // [string]
    #[tactic(auto, unfolding(crate::specs::PartReading::part_at))]
    fn optional_text(&mut self, alloc: Global) -> Result<Option<ItemList<u8>>, Refused>
        ensures { Gives (λ text. (text, self.new)) result (part_at (maybe a_text) self.old) }
    {
        if !self.begins_text() {
            return Ok(None);
        }
        let text = self.text(alloc)?;
        Ok(Some(text))
    }

    // ACTION name [string] "=" item {"," item}
    #[tactic(auto, unfolding(crate::specs::PartReading::part_at))]
    fn action(&mut self, alloc: Global) -> Result<Body, Refused>
        ensures { Gives (λ b. (body_tree b, self.new)) result (mapped action_of (part_at action_part self.old)) }
    {
        let name = self.name()?;
        let text = self.optional_text(alloc)?;
        self.expect_mark(Mark::Equals)?;
        let items = self.items(alloc)?;
        Ok(Body::Action(Box::new(alloc, name)?, text, Box::new(alloc, items)?))
    }

    // [USES name {"," name}]
    #[tactic(auto, unfolding(crate::specs::PartReading::part_at))]
    fn uses(&mut self, alloc: Global) -> Result<Option<Box<ItemList<Name>>>, Refused>
        ensures { Gives (λ names. (option_map box_value names, self.new)) result (part_at uses_part self.old) }
    {
        if !self.take_join(JoinWord::Uses) {
            return Ok(None);
        }
        let names = self.names(alloc)?;
        Ok(Some(Box::new(alloc, names)?))
    }

    // PROCEDURE name [USES name {"," name}]
    #[tactic(auto, unfolding(crate::specs::PartReading::part_at))]
    fn procedure(&mut self, alloc: Global) -> Result<Body, Refused>
        ensures { Gives (λ b. (body_tree b, self.new)) result (mapped procedure_of (part_at procedure_part self.old)) }
    {
        let name = self.name()?;
        let uses = self.uses(alloc)?;
        Ok(Body::Procedure(name, uses))
    }

    // A statement outside procedures, after its first word.
    #[tactic(auto, unfolding(crate::specs::BodyReading::outer_from, crate::specs::PartReading::part_at))]
    pub(crate) fn outer_statement(
        &mut self,
        alloc: Global,
        word: OuterWord,
    ) -> Result<Body, Refused>
        ensures { Gives (λ b. (body_tree b, self.new)) result (outer_from word self.old) }
    {
        match word {
            OuterWord::Note => self.note(alloc),
            OuterWord::Action => self.action(alloc),
            OuterWord::Procedure => self.procedure(alloc),
            OuterWord::Data => {
                let name = self.name()?;
                Ok(Body::Data(name))
            }
            OuterWord::EndData => Ok(Body::EndData),
            OuterWord::Crc => {
                let number = self.check_word(alloc)?;
                Ok(Body::Crc(number))
            }
        }
    }
}
