//! Statements with their labels, and lines of them.
ghost use Rattle.std.specs.Prelude.{◌≡◌, ◌++◌, OnOk};
ghost use Rattle.std.specs.Box.{box_value};
ghost use Rattle.std.specs.Option.{option_map};
ghost use Rattle.stapl_syntax.specs.Rules.{is_crc};
ghost use Rattle.stapl_syntax.specs.Trees.{body_tree, stmt_tree};
ghost use Rattle.canonical_text.specs.CanonicalText.{line, checked};
ghost use Rattle.canonical_text.specs.PrintedStatements.{body_tokens, label_tokens};
ghost use Rattle.canonical_writer.specs.Written.{written, check_statement};

use crate::writer::Writer;
use stapl_lexer::{InnerWord, JoinWord, Mark, Name, OuterWord, crc_of};
use stapl_syntax::{Body, Stmt};
use std::alloc::AllocError;

impl Writer {
    // A statement without its label.
    #[tactic(auto, using(crate::proofs::WriterLemmas::written_append))]
    fn put_body(&mut self, body: &Body) -> Result<(), AllocError>
        ensures { OnOk result (self.new ≡ written self.old (body_tokens (body_tree body.now))) }
    {
        match body {
            Body::Note(key, text) => self.put_note(key.as_slice(), text.as_slice()),
            Body::Action(v, text, items) => self.put_action(v, text, items.as_slice()),
            Body::Procedure(v, uses) => self.put_procedure(v, uses),
            Body::Data(v) => self.put_data(v),
            Body::EndData => self.put_outer(OuterWord::EndData),
            Body::Crc(word) => self.put_crc(*word),
            Body::EndProcedure => self.put_inner(InnerWord::EndProcedure),
            Body::Boolean(v, start) => self.put_boolean(v, *start),
            Body::BooleanArray(v, n, start) => self.put_boolean_array(v, *n, start),
            Body::Integer(v, start) => self.put_integer(v, *start),
            Body::IntegerArray(v, n, start) => self.put_integer_array(v, *n, start),
            Body::Assign(v, e) => self.put_assign(v, e),
            Body::AssignElement(v, index, e) => self.put_assign_element(v, index, e),
            Body::AssignArray(v, a) => self.put_assign_array(v, a),
            Body::AssignRange(v, high, low, a) => self.put_assign_range(v, high, low, a),
            Body::Call(v) => self.put_call(v),
            Body::Goto(v) => self.put_goto(v),
            Body::If(e, then) => {
                self.put_if()?;
                self.put_value(e)?;
                self.put_join(JoinWord::Then)?;
                self.put_body(then)
            }
            Body::For(v, from, to, step) => self.put_for(v, from, to, step),
            Body::Next(v) => self.put_next(v),
            Body::Push(e) => self.put_push(e),
            Body::Pop(cell) => self.put_pop(cell),
            Body::Print(parts) => self.put_print(parts.as_slice()),
            Body::Export(key, what) => self.put_export(key.as_slice(), what),
            Body::Exit(e) => self.put_exit(e),
            Body::Scan(scan) => self.put_scan(scan),
            Body::Stop(register, state) => self.put_stop(*register, *state),
            Body::Pad(padding, length, bits) => self.put_pad(*padding, length, bits),
            Body::State(states) => self.put_states(states.as_slice()),
            Body::WaitCycles(state, cycles, usec, last) => {
                self.put_wait_cycles(*state, cycles, usec, *last)
            }
            Body::WaitUsec(state, usec, last) => self.put_wait_usec(*state, usec, *last),
            Body::Frequency(hertz) => self.put_frequency(hertz),
        }
    }

    #[tactic(auto, using(crate::proofs::WriterLemmas::written_append))]
    fn put_label(&mut self, label: &Option<Box<Name>>) -> Result<(), AllocError>
        ensures { OnOk result (self.new ≡ written self.old (label_tokens (option_map box_value label.now))) }
    {
        if let Some(label) = label {
            self.put_name(label)?;
            self.put_mark(Mark::Colon)?;
        }
        Ok(())
    }
}

// Whether a statement is CRC.
fn is_check(body: &Body) -> bool
    ensures { result ≡ is_crc (body_tree body.now) }
{
    matches!(body, Body::Crc(_))
}

impl Writer {
    // A line that is CRC, with the check word of the bytes before it.
    fn put_check_line(&mut self, label: &Option<Box<Name>>) -> Result<(), AllocError>
        ensures { OnOk result (self.new.bytes ≡ self.old.bytes
            ++ line (check_statement (option_map box_value label.now) self.old.bytes)) }
    {
        let word = crc_of(self.bytes());
        self.begin_line();
        self.put_label(label)?;
        self.put_crc(word)?;
        self.put_bytes(b";\n")
    }

    // A line that is any other statement.
    fn put_plain_line(&mut self, statement: &Stmt) -> Result<(), AllocError>
        ensures { OnOk result (self.new.bytes ≡ self.old.bytes ++ line (stmt_tree statement.now)) }
    {
        self.begin_line();
        self.put_label(&statement.label)?;
        self.put_body(&statement.body)?;
        self.put_bytes(b";\n")
    }

    /// Puts the line of a statement.
    pub fn put_line(&mut self, statement: &Stmt) -> Result<(), AllocError>
        ensures { OnOk result (self.new.bytes ≡ self.old.bytes
            ++ line (checked self.old.bytes (stmt_tree statement.now))) }
    {
        if is_check(&statement.body) {
            self.put_check_line(&statement.label)
        } else {
            self.put_plain_line(statement)
        }
    }
}
