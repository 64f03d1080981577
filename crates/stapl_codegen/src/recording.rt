//! The instructions of statements that put records on the record stack or take them off, and of EXPORT.
ghost use Rattle.std.specs.Prelude.{◌≡◌, [], ◌∷◌, option_map, OnOk};
ghost use Rattle.std.specs.Box.{box_value};
ghost use Rattle.stapl_syntax.specs.Trees.{for_loop, push, scalar, element, pop, exported_value, exported_array, export, expr_tree, array_tree, export_tree};
ghost use Rattle.stapl_meaning.specs.Operands.{step_or_one};
ghost use Rattle.stapl_codegen.specs.Emit.{array_literals, row_literals};
ghost use Rattle.stapl_codegen.specs.Drafts.{with_code, with_texts, with_literals, expr_code_in, body_code_in};

use crate::emit::Emitter;
use crate::tables::{NO_OPERATOR, export_part, given_kind, printed_kind};
use stapl_code::{ExportPart, Instr};
use stapl_lexer::Name;
use stapl_meaning::ValueKind;
use stapl_names::{VariableKinds, expr_kind};
use stapl_syntax::{ArrayExpr, Exported, Expr};
use std::alloc::AllocError;

impl<'a> Emitter<'a> {
    // The step of a FOR more, which is 1 if none is written.
    fn step(&mut self, step: &Option<Box<Expr>>) -> Result<(), AllocError>
        ensures { OnOk result (self.new ≡ with_code self.old (expr_code_in self.old ValueKind.Int
            (step_or_one (option_map (λ e. expr_tree (box_value e)) step.now)))) }
    {
        match step {
            Some(e) => self.expr(ValueKind::Int, e),
            None => self.put(Instr::Push(1)),
        }
    }

    /// A FOR more.
    #[tactic(auto, using(crate::proofs::Lists::expr_before, std::proofs::Common::append_assoc))]
    pub(crate) fn begin_loop(
        &mut self,
        name: &Name,
        from: &Expr,
        to: &Expr,
        step: &Option<Box<Expr>>,
    ) -> Result<(), AllocError>
        ensures { OnOk result (self.new ≡ with_code self.old (body_code_in self.old
            (for_loop name.now (expr_tree from.now) (expr_tree to.now)
            (option_map (λ e. expr_tree (box_value e)) step.now)))) }
    {
        let number = self.variable(name);
        let follow = self.piece;
        self.expr(ValueKind::Int, from)?;
        self.expr(ValueKind::Int, to)?;
        self.step(step)?;
        self.put(Instr::For(number, follow))?;
        Ok(())
    }

    /// A PUSH more.
    #[tactic(auto, using(crate::proofs::Lists::expr_before, std::proofs::Common::append_assoc))]
    pub(crate) fn push(&mut self, e: &Expr) -> Result<(), AllocError>
        ensures { OnOk result (self.new ≡ with_code self.old (body_code_in self.old (push (expr_tree e.now)))) }
    {
        let kind = printed_kind(expr_kind(self, e));
        self.expr(kind, e)?;
        self.put(Instr::PushRecord(kind))?;
        Ok(())
    }

    // A POP into a scalar more.
    fn pop_scalar(&mut self, name: &Name) -> Result<(), AllocError>
        ensures { OnOk result (self.new ≡ with_code self.old (body_code_in self.old (pop (scalar name.now)))) }
    {
        let kind = given_kind(self.kind(name));
        let number = self.variable(name);
        self.put(Instr::PopRecord(kind))?;
        self.put(Instr::Store(number))?;
        Ok(())
    }

    // A POP into an element more.
    #[tactic(auto, using(crate::proofs::Lists::expr_before, std::proofs::Common::append_assoc))]
    fn pop_element(&mut self, name: &Name, index: &Expr) -> Result<(), AllocError>
        ensures { OnOk result (self.new ≡
            with_code self.old (body_code_in self.old (pop (element name.now (expr_tree index.now))))) }
    {
        let kind = given_kind(self.kind(name));
        let array = self.variable(name);
        self.index(array, index)?;
        self.put(Instr::PopRecord(kind))?;
        self.put(Instr::StoreAt(array))?;
        Ok(())
    }

    /// A POP more.
    pub(crate) fn pop(&mut self, cell: &Expr) -> Result<(), AllocError>
        ensures { OnOk result (self.new ≡ with_code self.old (body_code_in self.old (pop (expr_tree cell.now)))) }
    {
        match cell {
            Expr::Scalar(name) => {
                self.pop_scalar(name)?;
                Ok(())
            }
            Expr::Element(name, index) => {
                self.pop_element(name, index)?;
                Ok(())
            }
            _ => self.put(Instr::Binary(NO_OPERATOR)),
        }
    }

    // An EXPORT of a value more.
    #[tactic(auto, using(crate::proofs::Lists::expr_before, std::proofs::Common::append_assoc))]
    fn export_value(&mut self, key: &[u8], e: &Expr) -> Result<(), AllocError>
        ensures { OnOk result (self.new ≡ with_texts (with_code self.old
            (body_code_in self.old (export key.now (exported_value (expr_tree e.now))))) (key.now ∷ [])) }
    {
        let number = self.text(key)?;
        let kind = printed_kind(expr_kind(self, e));
        self.expr(kind, e)?;
        self.put(Instr::Export(number, export_part(kind)))?;
        Ok(())
    }

    // An EXPORT of an array more.
    #[tactic(auto, using(crate::proofs::Lists::operands_before, std::proofs::Common::append_assoc))]
    fn export_array(&mut self, key: &[u8], a: &ArrayExpr) -> Result<(), AllocError>
        ensures { OnOk result (self.new ≡ with_literals (with_texts (with_code self.old
            (body_code_in self.old (export key.now (exported_array (array_tree a.now))))) (key.now ∷ []))
            (array_literals (array_tree a.now))) }
    {
        let number = self.text(key)?;
        let source = self.source(a)?;
        self.put(Instr::Export(number, ExportPart::Array(source)))?;
        Ok(())
    }

    /// An EXPORT more.
    pub(crate) fn export(&mut self, key: &[u8], x: &Exported) -> Result<(), AllocError>
        ensures { OnOk result (self.new ≡ with_literals (with_texts (with_code self.old
            (body_code_in self.old (export key.now (export_tree x.now)))) (key.now ∷ []))
            (row_literals (export key.now (export_tree x.now)))) }
    {
        match x {
            Exported::Value(e) => {
                self.export_value(key, e)?;
                Ok(())
            }
            Exported::Array(a) => {
                self.export_array(key, a)?;
                Ok(())
            }
        }
    }
}
