//! Statements that stand outside procedures, or begin or end such a block from outside.
#![tactic(auto, using(crate::proofs::WriterLemmas::written_append, crate::proofs::WriterLemmas::separated_of_mapped))]

ghost use Rattle.std.specs.Prelude.{◌≡◌, map, OnOk};
ghost use Rattle.std.specs.Box.{box_value};
ghost use Rattle.std.specs.Option.{option_map};
ghost use Rattle.stapl_syntax.specs.Trees.{item_tree, note, action, procedure, data_block, crc};
ghost use Rattle.canonical_text.specs.PrintedStatements.{body_tokens};
ghost use Rattle.canonical_writer.specs.Written.{written};

use crate::writer::Writer;
use base::ItemList;
use stapl_lexer::{JoinWord, Mark, Name, OuterWord};
use stapl_syntax::Item;
use std::alloc::AllocError;

impl Writer {
    /// NOTE: key and text.
    pub(crate) fn put_note(&mut self, key: &[u8], text: &[u8]) -> Result<(), AllocError>
        ensures { OnOk result (self.new ≡ written self.old (body_tokens (note key.now text.now))) }
    {
        self.put_outer(OuterWord::Note)?;
        self.put_text(key)?;
        self.put_text(text)
    }

    /// ACTION: its name, its text, and its items.
    pub(crate) fn put_action(
        &mut self,
        v: &Name,
        text: &Option<ItemList<u8>>,
        items: &[Item],
    ) -> Result<(), AllocError>
        ensures { OnOk result (self.new ≡ written self.old
            (body_tokens (action v.now text.now (map item_tree items.now)))) }
    {
        self.put_outer(OuterWord::Action)?;
        self.put_name(v)?;
        if let Some(text) = text {
            self.put_text(text.as_slice())?;
        }
        self.put_mark(Mark::Equals)?;
        self.put_list(items)
    }

    /// PROCEDURE: its name, and the names after USES.
    pub(crate) fn put_procedure(
        &mut self,
        v: &Name,
        uses: &Option<Box<ItemList<Name>>>,
    ) -> Result<(), AllocError>
        ensures { OnOk result (self.new ≡ written self.old
            (body_tokens (procedure v.now (option_map box_value uses.now)))) }
    {
        self.put_outer(OuterWord::Procedure)?;
        self.put_name(v)?;
        if let Some(names) = uses {
            self.put_join(JoinWord::Uses)?;
            self.put_list(names.as_slice())?;
        }
        Ok(())
    }

    /// DATA.
    pub(crate) fn put_data(&mut self, v: &Name) -> Result<(), AllocError>
        ensures { OnOk result (self.new ≡ written self.old (body_tokens (data_block v.now))) }
    {
        self.put_outer(OuterWord::Data)?;
        self.put_name(v)
    }

    /// CRC, with this check word.
    pub(crate) fn put_crc(&mut self, word: u16) -> Result<(), AllocError>
        ensures { OnOk result (self.new ≡ written self.old (body_tokens (crc word))) }
    {
        self.put_outer(OuterWord::Crc)?;
        self.put_check_word(word)
    }
}
