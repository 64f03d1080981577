//! Statements that may follow THEN, other than assignments and those that drive the test access port.
#![tactic(auto, using(crate::proofs::WriterLemmas::written_append, crate::proofs::WriterLemmas::separated_of_mapped))]

ghost use Rattle.std.specs.Prelude.{◌≡◌, map, OnOk};
ghost use Rattle.std.specs.Box.{box_value};
ghost use Rattle.std.specs.Option.{option_map};
ghost use Rattle.stapl_syntax.specs.Trees.{expr_tree, part_tree, export_tree};
ghost use Rattle.stapl_syntax.specs.Trees.{call, goto, for_loop, next, push, pop, print, export, exit};
ghost use Rattle.canonical_text.specs.PrintedStatements.{body_tokens};
ghost use Rattle.canonical_writer.specs.Written.{written};

use crate::writer::Writer;
use stapl_lexer::{JoinWord, Mark, Name, SimpleWord};
use stapl_syntax::{Exported, Expr, PrintPart};
use std::alloc::AllocError;

impl Writer {
    /// CALL.
    pub(crate) fn put_call(&mut self, v: &Name) -> Result<(), AllocError>
        ensures { OnOk result (self.new ≡ written self.old (body_tokens (call v.now))) }
    {
        self.put_simple(SimpleWord::Call)?;
        self.put_name(v)
    }

    /// GOTO.
    pub(crate) fn put_goto(&mut self, v: &Name) -> Result<(), AllocError>
        ensures { OnOk result (self.new ≡ written self.old (body_tokens (goto v.now))) }
    {
        self.put_simple(SimpleWord::Goto)?;
        self.put_name(v)
    }

    /// FOR: its variable, the first and the last value, and the step.
    pub(crate) fn put_for(
        &mut self,
        v: &Name,
        from: &Expr,
        to: &Expr,
        step: &Option<Box<Expr>>,
    ) -> Result<(), AllocError>
        ensures { OnOk result (self.new ≡ written self.old
            (body_tokens (for_loop v.now (expr_tree from.now) (expr_tree to.now)
            (option_map (λ e. expr_tree (box_value e)) step.now)))) }
    {
        self.put_simple(SimpleWord::For)?;
        self.put_name(v)?;
        self.put_mark(Mark::Equals)?;
        self.put_value(from)?;
        self.put_join(JoinWord::To)?;
        self.put_value(to)?;
        if let Some(step) = step {
            self.put_join(JoinWord::Step)?;
            self.put_value(step)?;
        }
        Ok(())
    }

    /// NEXT.
    pub(crate) fn put_next(&mut self, v: &Name) -> Result<(), AllocError>
        ensures { OnOk result (self.new ≡ written self.old (body_tokens (next v.now))) }
    {
        self.put_simple(SimpleWord::Next)?;
        self.put_name(v)
    }

    /// PUSH.
    pub(crate) fn put_push(&mut self, e: &Expr) -> Result<(), AllocError>
        ensures { OnOk result (self.new ≡ written self.old (body_tokens (push (expr_tree e.now)))) }
    {
        self.put_simple(SimpleWord::Push)?;
        self.put_value(e)
    }

    /// POP.
    pub(crate) fn put_pop(&mut self, cell: &Expr) -> Result<(), AllocError>
        ensures { OnOk result (self.new ≡ written self.old (body_tokens (pop (expr_tree cell.now)))) }
    {
        self.put_simple(SimpleWord::Pop)?;
        self.put_value(cell)
    }

    /// PRINT.
    pub(crate) fn put_print(&mut self, parts: &[PrintPart]) -> Result<(), AllocError>
        ensures { OnOk result (self.new ≡ written self.old (body_tokens (print (map part_tree parts.now)))) }
    {
        self.put_simple(SimpleWord::Print)?;
        self.put_list(parts)
    }

    /// EXPORT: the key, and what is exported.
    pub(crate) fn put_export(&mut self, key: &[u8], what: &Exported) -> Result<(), AllocError>
        ensures { OnOk result (self.new ≡ written self.old
            (body_tokens (export key.now (export_tree what.now)))) }
    {
        self.put_simple(SimpleWord::Export)?;
        self.put_text(key)?;
        self.put_mark(Mark::Comma)?;
        match what {
            Exported::Value(e) => self.put_value(e),
            Exported::Array(a) => self.put_array(a),
        }
    }

    /// EXIT.
    pub(crate) fn put_exit(&mut self, e: &Expr) -> Result<(), AllocError>
        ensures { OnOk result (self.new ≡ written self.old (body_tokens (exit (expr_tree e.now)))) }
    {
        self.put_simple(SimpleWord::Exit)?;
        self.put_value(e)
    }
}
