//! Declarations of variables.
#![tactic(auto, using(crate::proofs::WriterLemmas::written_append))]

ghost use Rattle.std.specs.Prelude.{◌≡◌, OnOk};
ghost use Rattle.std.specs.Box.{box_value};
ghost use Rattle.std.specs.Option.{option_map};
ghost use Rattle.stapl_syntax.specs.Parts.{size_part};
ghost use Rattle.stapl_syntax.specs.Trees.{boolean, boolean_array, integer, integer_array};
ghost use Rattle.canonical_text.specs.PrintedStatements.{part_tokens, body_tokens, bit_tokens};
ghost use Rattle.canonical_writer.specs.Written.{written};

use crate::writer::Writer;
use base::ItemList;
use bit_list::Bits;
use stapl_lexer::{InnerWord, Mark, Name};
use std::alloc::AllocError;

impl Writer {
    // The size of an array.
    fn put_size(&mut self, n: i32) -> Result<(), AllocError>
        ensures { OnOk result (self.new ≡ written self.old (part_tokens size_part n)) }
    {
        self.put_mark(Mark::LeftSquare)?;
        self.put_number(n)?;
        self.put_mark(Mark::RightSquare)
    }

    // 0 or 1.
    fn put_bit(&mut self, bit: bool) -> Result<(), AllocError>
        ensures { OnOk result (self.new ≡ written self.old (bit_tokens bit)) }
    {
        if bit {
            self.put_number(1)
        } else {
            self.put_number(0)
        }
    }

    /// BOOLEAN: a scalar, and its initial value.
    pub(crate) fn put_boolean(&mut self, v: &Name, start: Option<bool>) -> Result<(), AllocError>
        ensures { OnOk result (self.new ≡ written self.old (body_tokens (boolean v.now start))) }
    {
        self.put_inner(InnerWord::Boolean)?;
        self.put_name(v)?;
        if let Some(bit) = start {
            self.put_mark(Mark::Equals)?;
            self.put_bit(bit)?;
        }
        Ok(())
    }

    /// BOOLEAN: an array, its size, and its initial value.
    pub(crate) fn put_boolean_array(
        &mut self,
        v: &Name,
        n: i32,
        start: &Option<Box<Bits>>,
    ) -> Result<(), AllocError>
        ensures { OnOk result (self.new ≡ written self.old
            (body_tokens (boolean_array v.now n (option_map box_value start.now)))) }
    {
        self.put_inner(InnerWord::Boolean)?;
        self.put_name(v)?;
        self.put_size(n)?;
        if let Some(bits) = start {
            self.put_mark(Mark::Equals)?;
            self.put_literal(bits)?;
        }
        Ok(())
    }

    /// INTEGER: a scalar, and its initial value.
    pub(crate) fn put_integer(&mut self, v: &Name, start: Option<i32>) -> Result<(), AllocError>
        ensures { OnOk result (self.new ≡ written self.old (body_tokens (integer v.now start))) }
    {
        self.put_inner(InnerWord::Integer)?;
        self.put_name(v)?;
        if let Some(n) = start {
            self.put_mark(Mark::Equals)?;
            self.put_signed(n)?;
        }
        Ok(())
    }

    /// INTEGER: an array, its size, and its initial values.
    pub(crate) fn put_integer_array(
        &mut self,
        v: &Name,
        n: i32,
        start: &Option<Box<ItemList<i32>>>,
    ) -> Result<(), AllocError>
        ensures { OnOk result (self.new ≡ written self.old
            (body_tokens (integer_array v.now n (option_map box_value start.now)))) }
    {
        self.put_inner(InnerWord::Integer)?;
        self.put_name(v)?;
        self.put_size(n)?;
        if let Some(values) = start {
            self.put_mark(Mark::Equals)?;
            self.put_list(values.as_slice())?;
        }
        Ok(())
    }
}
