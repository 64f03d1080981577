//! Parts that repeat.
use crate::cursor::Cursor;
use crate::refused::Refused;
use base::ItemList;
use stapl_lexer::{Mark, Name};
use stapl_syntax::{Item, PrintPart};
use std::alloc::Global;

impl<'a> Cursor<'a> {
    ghost use Rattle.std.specs.Prelude.{◌≡◌, ◌<◌, length, OnOk, map};
    ghost use Rattle.stapl_syntax.specs.Trees.{item_tree, part_tree};
    ghost use Rattle.stapl_syntax.specs.Parts.{comma, item_part};
    ghost use Rattle.stapl_grammar.specs.Given.{Gives};
    ghost use Rattle.stapl_grammar.specs.Reading.{name_at};
    ghost use Rattle.stapl_grammar.specs.PartReading.{part_at, signed_at, print_part_at, listed_by, states_at, StepsOn};

    // Names with commas between them.
    #[tactic(auto, using(crate::proofs::ListSteps::name_starts, crate::proofs::ListSteps::name_starts_not, crate::proofs::ListSteps::name_goes_on, crate::proofs::ListSteps::name_goes_on_not, crate::proofs::ListSteps::name_is_done))]
    pub(crate) fn names(&mut self, alloc: Global) -> Result<ItemList<Name>, Refused>
        ensures { Gives (λ names. (names, self.new)) result (listed_by name_at comma self.old) }
    {
        let mut names = Vec::new(alloc);
        let first = self.name()?;
        names.push(first)?;
        'names: while self.take_mark(Mark::Comma) {
            let name = self.name()?;
            names.push(name)?;
        }
        Ok(ItemList::of(names))
    }

    // An item of an action: a name, and its choice.
    #[tactic(auto, unfolding(crate::specs::PartReading::part_at))]
    fn item(&mut self) -> Result<Item, Refused>
        ensures read { Gives (λ item. (item_tree item, self.new)) result (part_at item_part self.old) }
        ensures shorter { OnOk result (length self.new < length self.old) }
    {
        let procedure = self.name()?;
        if !self.begins_choice() {
            return Ok(Item {
                procedure,
                choice: None,
            });
        }
        let choice = self.choice()?;
        Ok(Item {
            procedure,
            choice: Some(choice),
        })
    }

    // Items of an action with commas between them.
    #[tactic(auto, using(crate::proofs::ListSteps::item_starts, crate::proofs::ListSteps::item_starts_not, crate::proofs::ListSteps::item_goes_on, crate::proofs::ListSteps::item_goes_on_not, crate::proofs::ListSteps::item_is_done))]
    pub(crate) fn items(&mut self, alloc: Global) -> Result<ItemList<Item>, Refused>
        ensures { Gives (λ items. (map item_tree items, self.new)) result (listed_by (part_at item_part) comma self.old) }
    {
        let mut items = Vec::new(alloc);
        let first = self.item()?;
        items.push(first)?;
        'items: while self.take_mark(Mark::Comma) {
            let item = self.item()?;
            items.push(item)?;
        }
        Ok(ItemList::of(items))
    }

    // Numbers, each after a minus or not, with commas between them.
    #[tactic(auto, using(crate::proofs::ListSteps::signed_starts, crate::proofs::ListSteps::signed_starts_not, crate::proofs::ListSteps::signed_goes_on, crate::proofs::ListSteps::signed_goes_on_not, crate::proofs::ListSteps::signed_is_done))]
    pub(crate) fn signed_list(&mut self, alloc: Global) -> Result<ItemList<i32>, Refused>
        ensures { Gives (λ values. (values, self.new)) result (listed_by signed_at comma self.old) }
    {
        let mut values = Vec::new(alloc);
        let first = self.signed()?;
        values.push(first)?;
        'values: while self.take_mark(Mark::Comma) {
            let value = self.signed()?;
            values.push(value)?;
        }
        Ok(ItemList::of(values))
    }

    // Parts of what PRINT prints, with commas between them.
    #[tactic(auto, using(crate::proofs::ListSteps::part_starts, crate::proofs::ListSteps::part_starts_not, crate::proofs::ListSteps::part_goes_on, crate::proofs::ListSteps::part_goes_on_not, crate::proofs::ListSteps::part_is_done))]
    pub(crate) fn print_parts(&mut self, alloc: Global) -> Result<ItemList<PrintPart>, Refused>
        ensures { Gives (λ parts. (map part_tree parts, self.new)) result (listed_by print_part_at comma self.old) }
    {
        // Most PRINTs have one part, for which a vector that grows by itself takes room for four.
        let mut parts = Vec::with_capacity(alloc, 1)?;
        let first = self.print_part(alloc)?;
        parts.push(first)?;
        'parts: while self.take_mark(Mark::Comma) {
            let part = self.print_part(alloc)?;
            parts.push(part)?;
        }
        Ok(ItemList::of(parts))
    }

    // The next state, after a comma or not; none where neither a comma nor a state stands first.
    #[tactic(auto, using(crate::proofs::ListSteps::state_next, crate::proofs::ListSteps::state_next_not, crate::proofs::ListSteps::state_after_comma, crate::proofs::ListSteps::state_after_comma_not, crate::proofs::ListSteps::state_is_done))]
    fn next_state(&mut self) -> Result<Option<u8>, Refused>
        ensures { StepsOn result self.old self.new }
    {
        if self.take_mark(Mark::Comma) {
            let state = self.state()?;
            return Ok(Some(state));
        }
        if !self.begins_state() {
            return Ok(None);
        }
        let state = self.state()?;
        Ok(Some(state))
    }

    // States, with or without a comma between two of them.
    #[tactic(auto, using(crate::proofs::ListSteps::states_start, crate::proofs::ListSteps::states_start_not, crate::proofs::ListSteps::states_go_on, crate::proofs::ListSteps::states_fail, crate::proofs::ListSteps::states_done))]
    pub(crate) fn states(&mut self, alloc: Global) -> Result<ItemList<u8>, Refused>
        ensures { Gives (λ states. (states, self.new)) result (states_at self.old) }
    {
        let mut states = Vec::new(alloc);
        let first = self.state()?;
        states.push(first)?;
        'states: while let Some(state) = self.next_state()? {
            states.push(state)?;
        }
        Ok(ItemList::of(states))
    }
}
