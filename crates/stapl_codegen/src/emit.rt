//! The instructions of statements. Their targets are places of the program.
ghost use Rattle.std.specs.Prelude.{◌≡◌, [], ◌∷◌, ◌++◌, ◌<◌, ◌^◌, ◌-◌, true, length, map, OnOk, IfOk};
ghost use Rattle.stapl_syntax.specs.Trees.{assign, assign_element, assign_array, assign_range, exit, print, end_data, expr_tree, array_tree, part_tree, body_tree, stmt_tree};
ghost use Rattle.stapl_meaning.specs.Values.{sides};
ghost use Rattle.stapl_meaning.specs.Operands.{a_character, an_index, a_range};
ghost use Rattle.stapl_code.specs.declared.instr.Instr.TheVariants.{Store, SetBits, SetInts, JumpIfZero};
ghost use Rattle.stapl_codegen.specs.Emit.{part_texts, array_literals, row_texts, row_literals, body_texts, body_literals};
ghost use Rattle.stapl_meaning.specs.Scopes.{has_initial_value};
ghost use Rattle.stapl_codegen.specs.Drafts.{scope_of_site, with_code, with_texts, with_literals, passed};
ghost use Rattle.stapl_codegen.specs.Drafts.{expr_code_in, int_code_in, operands_code_in, array_operands_in, source_in, part_operands_in, print_parts_in, body_code_in, piece_code_in, initial_code_in, preset_code_in};

use crate::definitions::Numbers;
use crate::tables::{
    ABSOLUTE, NO_OPERATOR, bit_number, given_kind, kind_at, literal, literal_integer, number_at,
    operator_number, printed_kind, shown_part, side, sign_number, unary_side,
};
use base::ItemList;
use bit_list::Bits;
use stapl_code::{Dest, Instr, Source};
use stapl_lexer::{BinOp, Name};
use stapl_meaning::{Text, ValueKind};
use stapl_names::{Names, VariableKinds, expr_kind, inside_next};
use stapl_syntax::{ArrayExpr, Body, Expr, Found, PrintPart, Stmt, VarKind};
use std::alloc::{AllocError, Global};
use std::marker::Model;

/// What is written so far of the code of a program, and where the next piece stands.
#[derive(Drop)]
pub(crate) struct Emitter<'a> {
    pub(crate) alloc: Global,
    code: Vec<Instr>,
    texts: Vec<Text>,
    literals: Vec<Bits>,
    names: &'a Names,
    /// At each block and after them, the number of the next procedure.
    next: &'a [u32],
    /// How many pieces the program has: the place of a label that there is not.
    count: u32,
    /// The block that is open before the piece.
    inside: Option<Name>,
    /// The number of the piece, counted from 1: the place after it.
    pub(crate) piece: u32,
}

impl<'a> Model for Emitter<'a> {
    ghost use Rattle.stapl_codegen.specs.Drafts.{Draft};

    ghost Value = { Draft };

    ghost view = { λ e. record {
      code = e.code.items;
      texts = e.texts.items;
      literals = e.literals.items;
      site = record { names = e.names.now; next = e.next.now; count = e.count; inside = e.inside; piece = e.piece };
    } };
}

impl<'a> VariableKinds for Emitter<'a> {
    ghost kinds = { λ e. (scope_of_site e.site).look.kind };

    fn kind(&self, name: &Name) -> Option<VarKind> {
        let names = self.names;
        match names.found(&self.inside, name) {
            Found::Variable(number) => kind_at(names, number),
            Found::Hidden | Found::Absent => None,
        }
    }
}

impl<'a> Emitter<'a> {
    /// Nothing is written yet, and the first of so many pieces follows.
    pub(crate) fn new(alloc: Global, numbers: &'a Numbers<'a>, count: u32) -> Emitter<'a>
        ensures { result ≡ record {
          code = [];
          texts = [];
          literals = [];
          site = record {
            names = numbers.now.names.now;
            next = numbers.now.next.items;
            count = count;
            inside = None;
            piece = 1;
          };
        } }
    {
        Emitter {
            alloc,
            code: Vec::new(alloc),
            texts: Vec::new(alloc),
            literals: Vec::new(alloc),
            names: numbers.names,
            next: &numbers.next,
            count,
            inside: None,
            piece: 1,
        }
    }

    /// The number of the variable that a name stands for.
    pub(crate) fn variable(&self, name: &Name) -> u32
        ensures { result ≡ (scope_of_site self.now.site).look.variable name.now }
    {
        let names = self.names;
        match names.found(&self.inside, name) {
            Found::Variable(number) => number,
            Found::Hidden | Found::Absent => names.variables(),
        }
    }

    // The place of a label of the block that is open.
    fn label(&self, name: &Name) -> u32
        ensures { result ≡ (scope_of_site self.now.site).label name.now }
    {
        let names = self.names;
        let Some(block) = &self.inside else {
            return self.count;
        };
        match names.label_in(block, name) {
            Some(piece) => piece.saturating_sub(1),
            None => self.count,
        }
    }

    // The number of a procedure, by its name.
    #[tactic(auto, using(crate::proofs::Numbers::block_place))]
    fn procedure(&self, name: &Name) -> u32
        ensures { result ≡ (scope_of_site self.now.site).procedure name.now }
    {
        let names = self.names;
        let block = names.block(name).unwrap_or(names.blocks());
        number_at(self.next, block)
    }

    // The kind of both sides of an operator between two expressions.
    fn sides(&self, op: BinOp, a: &Expr, b: &Expr) -> ValueKind
        ensures { result ≡ sides (scope_of_site self.now.site).look op (expr_tree a.now) (expr_tree b.now) }
    {
        let left = expr_kind(self, a);
        let right = expr_kind(self, b);
        side(op, left, right)
    }

    /// An instruction more.
    pub(crate) fn put(&mut self, instr: Instr) -> Result<(), AllocError>
        ensures { OnOk result (self.new ≡ with_code self.old (instr ∷ [])) }
    {
        self.code.push(instr)?;
        Ok(())
    }

    /// An expression more, where a value of a kind is wanted.
    #[cycle(expressions)]
    #[tactic(auto, using(crate::proofs::Lists::expr_before, std::proofs::Common::append_assoc))]
    pub(crate) fn expr(&mut self, kind: ValueKind, e: &Expr) -> Result<(), AllocError>
        ensures { OnOk result (self.new ≡ with_code self.old (expr_code_in self.old kind (expr_tree e.now))) }
    {
        match e {
            Expr::Number(n) => self.put(literal(kind, *n)),
            Expr::Scalar(name) => {
                let number = self.variable(name);
                self.put(Instr::Load(number))
            }
            Expr::Unary(op, a) => {
                self.expr(unary_side(*op), a)?;
                self.put(Instr::Unary(sign_number(*op)))?;
                Ok(())
            }
            Expr::Binary(op, a, b) => {
                let kind = self.sides(*op, a, b);
                self.expr(kind, a)?;
                self.expr(kind, b)?;
                self.put(Instr::Binary(operator_number(*op, kind)))?;
                Ok(())
            }
            Expr::Abs(a) => {
                self.expr(ValueKind::Int, a)?;
                self.put(Instr::Unary(ABSOLUTE))?;
                Ok(())
            }
            Expr::Element(name, index) => {
                let number = self.variable(name);
                self.expr(ValueKind::Int, index)?;
                self.put(Instr::LoadAt(number))?;
                Ok(())
            }
            Expr::Int(a) => self.integer(a),
        }
    }

    // INT of an array more; that of a literal is its number.
    #[cycle(expressions)]
    #[tactic(auto, using(crate::proofs::Lists::expr_before, std::proofs::Common::append_assoc))]
    fn integer(&mut self, a: &ArrayExpr) -> Result<(), AllocError>
        ensures { OnOk result (self.new ≡ with_code self.old (int_code_in self.old (array_tree a.now))) }
    {
        match a {
            ArrayExpr::Literal(bits) => self.put(Instr::Push(literal_integer(bits))),
            ArrayExpr::Whole(name) => {
                let number = self.variable(name);
                self.put(Instr::ToInt(Source::Whole(number)))
            }
            ArrayExpr::Range(name, high, low) => {
                let number = self.variable(name);
                self.expr(ValueKind::Int, high)?;
                self.expr(ValueKind::Int, low)?;
                self.put(Instr::ToInt(Source::Range(number)))?;
                Ok(())
            }
            ArrayExpr::OfInt(e) => {
                self.expr(ValueKind::Int, e)?;
                self.put(Instr::ToInt(Source::FromInt))?;
                Ok(())
            }
        }
    }

    // The number of a character more, with its test.
    #[tactic(auto, using(crate::proofs::Lists::expr_before, std::proofs::Common::append_assoc))]
    fn character(&mut self, e: &Expr) -> Result<(), AllocError>
        ensures { OnOk result (self.new ≡
            with_code self.old (operands_code_in self.old (a_character (expr_tree e.now) ∷ []))) }
    {
        self.expr(ValueKind::Int, e)?;
        self.put(Instr::CheckChar)?;
        Ok(())
    }

    /// A text more, and its number.
    pub(crate) fn text(&mut self, bytes: &[u8]) -> Result<u32, AllocError>
        ensures drafted { OnOk result (self.new ≡ with_texts self.old (bytes.now ∷ [])) }
        ensures number { IfOk result (λ number. number ≡ length self.old.texts) }
    {
        let number = u32::try_from(self.texts.len()).map_err(|_| AllocError)?;
        let copy = Vec::from_slice(self.alloc, bytes)?;
        self.texts.push(Text::of(copy))?;
        Ok(number)
    }

    // A part of a PRINT more: its operand and its text, and what it prints.
    fn part(&mut self, part: &PrintPart) -> Result<stapl_code::PrintPart, AllocError>
        ensures drafted { OnOk result (self.new ≡ with_texts (with_code self.old
            (operands_code_in self.old (part_operands_in self.old (part_tree part.now ∷ []))))
            (part_texts (part_tree part.now ∷ []))) }
        ensures printed { IfOk result
            (λ printed. printed ∷ [] ≡ print_parts_in self.old (part_tree part.now ∷ [])) }
    {
        match part {
            PrintPart::Text(bytes) => {
                let number = self.text(bytes.as_slice())?;
                Ok(stapl_code::PrintPart::Text(number))
            }
            PrintPart::Value(e) => {
                let kind = printed_kind(expr_kind(self, e));
                self.expr(kind, e)?;
                Ok(shown_part(kind))
            }
            PrintPart::Character(e) => {
                self.character(e)?;
                Ok(stapl_code::PrintPart::Char)
            }
        }
    }

    // The parts of a PRINT more: their operands and texts, and what they print.
    fn parts(&mut self, parts: &[PrintPart]) -> Result<Vec<stapl_code::PrintPart>, AllocError>
        ensures drafted { OnOk result (self.new ≡ with_texts (with_code self.old
            (operands_code_in self.old (part_operands_in self.old (map part_tree parts.now))))
            (part_texts (map part_tree parts.now))) }
        ensures printed { IfOk result
            (λ list. list.items ≡ print_parts_in self.old (map part_tree parts.now)) }
    {
        let mut list = Vec::new(self.alloc);
        for part in parts {
            list.push(self.part(part)?)?;
        }
        Ok(list)
    }

    // A PRINT more.
    #[tactic(auto, using(crate::proofs::Lists::operands_before, std::proofs::Common::append_assoc))]
    fn print(&mut self, parts: &[PrintPart]) -> Result<(), AllocError>
        ensures { OnOk result (self.new ≡ with_texts (with_code self.old
            (body_code_in self.old (print (map part_tree parts.now)))) (part_texts (map part_tree parts.now))) }
    {
        let list = self.parts(parts)?;
        self.put(Instr::Print(ItemList::of(list)))?;
        Ok(())
    }

    // The condition of an IF more, and the jump after the piece.
    #[tactic(auto, using(crate::proofs::Lists::expr_before, std::proofs::Common::append_assoc))]
    fn condition(&mut self, e: &Expr) -> Result<(), AllocError>
        ensures { OnOk result (self.new ≡ with_code self.old
            (expr_code_in self.old ValueKind.Bit (expr_tree e.now) ++ JumpIfZero self.old.site.piece ∷ [])) }
    {
        let follow = self.piece;
        self.expr(ValueKind::Bit, e)?;
        self.put(Instr::JumpIfZero(follow))?;
        Ok(())
    }

    // A literal more, and its number.
    fn literal(&mut self, bits: &Bits) -> Result<u32, AllocError>
        ensures drafted { OnOk result (self.new ≡ with_literals self.old (bits.now ∷ [])) }
        ensures number { IfOk result (λ number. number ≡ length self.old.literals) }
    {
        let number = u32::try_from(self.literals.len()).map_err(|_| AllocError)?;
        let copy = bits.copied(self.alloc)?;
        self.literals.push(copy)?;
        Ok(number)
    }

    /// The index of an array more, with its test.
    #[tactic(auto, using(crate::proofs::Lists::expr_before, std::proofs::Common::append_assoc))]
    pub(crate) fn index(&mut self, number: u32, index: &Expr) -> Result<(), AllocError>
        ensures { OnOk result (self.new ≡
            with_code self.old (operands_code_in self.old (an_index number (expr_tree index.now) ∷ []))) }
    {
        self.expr(ValueKind::Int, index)?;
        self.put(Instr::CheckIndex(number))?;
        Ok(())
    }

    /// The indexes of a range of an array more, with their test.
    #[tactic(auto, using(crate::proofs::Lists::expr_before, std::proofs::Common::append_assoc))]
    pub(crate) fn range(&mut self, number: u32, high: &Expr, low: &Expr) -> Result<(), AllocError>
        ensures { OnOk result (self.new ≡
            with_code self.old (operands_code_in self.old (a_range number (expr_tree high.now) (expr_tree low.now)))) }
    {
        self.expr(ValueKind::Int, high)?;
        self.expr(ValueKind::Int, low)?;
        self.put(Instr::CheckRange(number))?;
        Ok(())
    }

    /// The operands of an array more, and where its bits come from.
    pub(crate) fn source(&mut self, a: &ArrayExpr) -> Result<Source, AllocError>
        ensures drafted { OnOk result (self.new ≡ with_literals (with_code self.old
            (operands_code_in self.old (array_operands_in self.old (array_tree a.now))))
            (array_literals (array_tree a.now))) }
        ensures source { IfOk result (λ source. source ≡ source_in self.old (array_tree a.now)) }
    {
        match a {
            ArrayExpr::Literal(bits) => {
                let number = self.literal(bits)?;
                Ok(Source::Literal(number))
            }
            ArrayExpr::Whole(name) => Ok(Source::Whole(self.variable(name))),
            ArrayExpr::Range(name, high, low) => {
                let number = self.variable(name);
                self.range(number, high, low)?;
                Ok(Source::Range(number))
            }
            ArrayExpr::OfInt(e) => {
                self.expr(ValueKind::Int, e)?;
                Ok(Source::FromInt)
            }
        }
    }

    // An initial value of a scalar more.
    fn start_scalar(&mut self, name: &Name, value: Instr) -> Result<(), AllocError>
        ensures { OnOk result (self.new ≡
            with_code self.old (value ∷ Store ((scope_of_site self.old.site).look.variable name.now) ∷ [])) }
    {
        let number = self.variable(name);
        self.put(value)?;
        self.put(Instr::Store(number))?;
        Ok(())
    }

    // The bits of an array more, which are set to the literal of a number.
    fn set_bits(&mut self, name: &Name, literal: u32) -> Result<(), AllocError>
        ensures { OnOk result (self.new ≡
            with_code self.old (SetBits ((scope_of_site self.old.site).look.variable name.now) literal ∷ [])) }
    {
        let number = self.variable(name);
        self.put(Instr::SetBits(number, literal))
    }

    // The initial bits of an array more.
    fn start_bits(&mut self, name: &Name, bits: &Bits) -> Result<(), AllocError>
        ensures { OnOk result (self.new ≡ with_literals (with_code self.old
            (SetBits ((scope_of_site self.old.site).look.variable name.now) (length self.old.literals) ∷ []))
            (bits.now ∷ [])) }
    {
        let literal = self.literal(bits)?;
        self.set_bits(name, literal)?;
        Ok(())
    }

    // The initial integers of an array more.
    fn start_integers(&mut self, name: &Name, values: &[i32]) -> Result<(), AllocError>
        ensures { OnOk result (self.new ≡
            with_code self.old (SetInts ((scope_of_site self.old.site).look.variable name.now) values.now ∷ [])) }
    {
        let number = self.variable(name);
        let copy = Vec::from_slice(self.alloc, values)?;
        self.put(Instr::SetInts(number, ItemList::of(copy)))?;
        Ok(())
    }

    // An assignment to a scalar more.
    #[tactic(auto, using(crate::proofs::Lists::expr_before, std::proofs::Common::append_assoc))]
    fn assign(&mut self, name: &Name, value: &Expr) -> Result<(), AllocError>
        ensures { OnOk result (self.new ≡
            with_code self.old (body_code_in self.old (assign name.now (expr_tree value.now)))) }
    {
        let kind = given_kind(self.kind(name));
        let number = self.variable(name);
        self.expr(kind, value)?;
        self.put(Instr::Store(number))?;
        Ok(())
    }

    // An EXIT more.
    #[tactic(auto, using(crate::proofs::Lists::expr_before, std::proofs::Common::append_assoc))]
    fn exit(&mut self, e: &Expr) -> Result<(), AllocError>
        ensures { OnOk result (self.new ≡ with_code self.old (body_code_in self.old (exit (expr_tree e.now)))) }
    {
        self.expr(ValueKind::Int, e)?;
        self.put(Instr::Exit)?;
        Ok(())
    }

    // An assignment to an element more.
    #[tactic(auto, using(crate::proofs::Lists::expr_before, std::proofs::Common::append_assoc))]
    fn assign_element(&mut self, name: &Name, index: &Expr, value: &Expr) -> Result<(), AllocError>
        ensures { OnOk result (self.new ≡ with_code self.old (body_code_in self.old
            (assign_element name.now (expr_tree index.now) (expr_tree value.now)))) }
    {
        let kind = given_kind(self.kind(name));
        let number = self.variable(name);
        self.index(number, index)?;
        self.expr(kind, value)?;
        self.put(Instr::StoreAt(number))?;
        Ok(())
    }

    // An assignment to a whole array more.
    #[tactic(auto, using(crate::proofs::Lists::operands_before, std::proofs::Common::append_assoc))]
    fn assign_array(&mut self, name: &Name, a: &ArrayExpr) -> Result<(), AllocError>
        ensures { OnOk result (self.new ≡ with_literals (with_code self.old
            (body_code_in self.old (assign_array name.now (array_tree a.now)))) (array_literals (array_tree a.now))) }
    {
        let number = self.variable(name);
        let source = self.source(a)?;
        self.put(Instr::CopyBits(Dest::Whole(number), source))?;
        Ok(())
    }

    // An assignment to a range more.
    fn assign_range(
        &mut self,
        name: &Name,
        high: &Expr,
        low: &Expr,
        a: &ArrayExpr,
    ) -> Result<(), AllocError>
        ensures { OnOk result (self.new ≡ with_literals (with_code self.old
            (body_code_in self.old (assign_range name.now (expr_tree high.now) (expr_tree low.now) (array_tree a.now))))
            (array_literals (array_tree a.now))) }
    {
        let number = self.variable(name);
        self.range(number, high, low)?;
        let source = self.source(a)?;
        self.put(Instr::CopyBits(Dest::Range(number), source))?;
        Ok(())
    }

    // A statement more.
    fn body(&mut self, b: &Body) -> Result<(), AllocError>
        ensures { OnOk result (self.new ≡ with_literals (with_texts (with_code self.old
            (body_code_in self.old (body_tree b.now))) (body_texts (body_tree b.now)))
            (body_literals (body_tree b.now))) }
    {
        match b {
            Body::Boolean(_, None)
            | Body::BooleanArray(_, _, None)
            | Body::Integer(_, None)
            | Body::IntegerArray(_, _, None) => Ok(()),
            Body::Boolean(name, Some(bit)) => {
                self.start_scalar(name, literal(ValueKind::Bit, bit_number(*bit)))
            }
            Body::BooleanArray(name, _, Some(bits)) => self.start_bits(name, bits),
            Body::Integer(name, Some(value)) => self.start_scalar(name, Instr::Push(*value)),
            Body::IntegerArray(name, _, Some(values)) => self.start_integers(
                name,
                values.as_slice(),
            ),
            Body::EndProcedure => self.put(Instr::EndProc),
            Body::Assign(name, e) => self.assign(name, e),
            Body::AssignElement(name, index, e) => self.assign_element(name, index, e),
            Body::AssignArray(name, a) => self.assign_array(name, a),
            Body::AssignRange(name, high, low, a) => self.assign_range(name, high, low, a),
            Body::Call(name) => {
                let number = self.procedure(name);
                self.put(Instr::Call(number))
            }
            Body::For(name, from, to, step) => self.begin_loop(name, from, to, step),
            Body::Next(name) => {
                let number = self.variable(name);
                self.put(Instr::Next(number))
            }
            Body::Push(e) => self.push(e),
            Body::Pop(cell) => self.pop(cell),
            Body::Export(key, x) => self.export(key.as_slice(), x),
            Body::Goto(name) => {
                let place = self.label(name);
                self.put(Instr::Jump(place))
            }
            Body::If(e, inner) => {
                self.condition(e)?;
                self.body(inner)?;
                Ok(())
            }
            Body::Print(parts) => self.print(parts.as_slice()),
            Body::Exit(e) => self.exit(e),
            Body::Scan(scan) => self.scan(scan),
            Body::Stop(register, state) => self.stop(*register, *state),
            Body::Pad(which, length, bits) => self.pad(*which, length, bits),
            Body::State(states) => self.state(states.as_slice()),
            Body::WaitCycles(state, cycles, usec, last) => self.wait_cycles(
                *state, cycles, usec, *last,
            ),
            Body::WaitUsec(state, usec, last) => self.wait_usec(*state, usec, *last),
            Body::Frequency(hertz) => self.frequency(hertz),
            _ => self.put(Instr::Binary(NO_OPERATOR)),
        }
    }

    // The turn of a statement more, and what it does; a statement outside procedures has no code.
    fn turn(&mut self, st: &Stmt) -> Result<(), AllocError>
        ensures { OnOk result (self.new ≡ with_literals (with_texts (with_code self.old
            (piece_code_in self.old (stmt_tree st.now))) (body_texts (body_tree st.now.body)))
            (body_literals (body_tree st.now.body))) }
    {
        if st.body.is_outer() {
            return Ok(());
        }
        let piece = self.piece;
        self.put(Instr::Turn(piece))?;
        self.body(&st.body)?;
        Ok(())
    }

    /// A statement of the program more, after which the next piece follows.
    pub(crate) fn statement(&mut self, st: &Stmt) -> Result<(), AllocError>
        requires { self.old.site.piece < 2 ^ 32 - 1 }
        ensures { OnOk result (self.new ≡ passed
            (with_literals (with_texts (with_code self.old (piece_code_in self.old (stmt_tree st.now)))
            (body_texts (body_tree st.now.body))) (body_literals (body_tree st.now.body))) (body_tree st.now.body)) }
    {
        self.turn(st)?;
        self.inside = inside_next(&self.inside, &st.body);
        self.piece += 1;
        Ok(())
    }

    /// A piece that does nothing, after which the next piece follows.
    pub(crate) fn skip(&mut self)
        requires { self.old.site.piece < 2 ^ 32 - 1 }
        ensures { self.new ≡ passed self.old end_data }
    {
        self.inside = None;
        self.piece += 1;
    }

    // An initial value more, whose literal, if it has one, has this number.
    fn initial(&mut self, body: &Body, number: u32) -> Result<(), AllocError>
        requires starts { has_initial_value (body_tree body.now) ≡ true }
        ensures { OnOk result (self.new ≡
            with_code self.old (initial_code_in self.old.site number (body_tree body.now))) }
    {
        match body {
            Body::Boolean(name, Some(bit)) => {
                self.start_scalar(name, literal(ValueKind::Bit, bit_number(*bit)))
            }
            Body::BooleanArray(name, _, Some(_)) => self.set_bits(name, number),
            Body::Integer(name, Some(value)) => self.start_scalar(name, Instr::Push(*value)),
            Body::IntegerArray(name, _, Some(values)) => self.start_integers(
                name,
                values.as_slice(),
            ),
            _ => Ok(()),
        }
    }

    /// The initial value of a declaration of a DATA block more, whose literal, if it has one, has this number.
    pub(crate) fn preset(
        &mut self,
        block: &Name,
        body: &Body,
        number: u32,
    ) -> Result<(), AllocError>
        requires starts { has_initial_value (body_tree body.now) ≡ true }
        requires outside { self.old.site.inside ≡ None }
        ensures { OnOk result (self.new ≡ with_code self.old (preset_code_in self.old number
            (Some record { block = block.now; body = body_tree body.now }))) }
    {
        self.inside = Some(*block);
        self.initial(body, number)?;
        self.inside = None;
        Ok(())
    }

    /// The literal of an initial value more, if it has one.
    pub(crate) fn keep(&mut self, body: &Body) -> Result<(), AllocError>
        requires starts { has_initial_value (body_tree body.now) ≡ true }
        ensures { OnOk result (self.new ≡ with_literals self.old (row_literals (body_tree body.now))) }
    {
        match body {
            Body::BooleanArray(_, _, Some(bits)) => {
                let _number = self.literal(bits)?;
                Ok(())
            }
            _ => Ok(()),
        }
    }

    /// How many instructions are written.
    pub(crate) fn len(&self) -> usize
        ensures { result ≡ length self.now.code }
    {
        self.code.len()
    }

    /// The instructions, the texts and the literals.
    pub(crate) fn into_parts(self) -> (Vec<Instr>, Vec<Text>, Vec<Bits>)
        ensures code { result.0.items ≡ self.entry.code }
        ensures texts { result.1.items ≡ self.entry.texts }
        ensures literals { result.2.items ≡ self.entry.literals }
    {
        let Emitter {
            code,
            texts,
            literals,
            ..
        } = self;
        (code, texts, literals)
    }
}
