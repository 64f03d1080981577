//! Whole statements.
use crate::cursor::Cursor;
use crate::refused::Refused;
use stapl_lexer::{Mark, Name};
use stapl_syntax::{Body, Sign, Stmt};
use std::alloc::Global;

impl<'a> Cursor<'a> {
    ghost use Rattle.std.specs.Prelude.{◌≡◌};
    ghost use Rattle.std.specs.Box.{box_value};
    ghost use Rattle.std.specs.Option.{option_map};
    ghost use Rattle.stapl_syntax.specs.Trees.{body_tree};
    ghost use Rattle.stapl_grammar.specs.Given.{Gives};
    ghost use Rattle.stapl_grammar.specs.BodyReading.{labelled_from, labelled_at, any_from, any_at, label_at, with_label_at, statement_of};

    // A statement that may bear a label, after its first sign.
    #[tactic(auto, unfolding(crate::specs::BodyReading::labelled_from))]
    fn labelled_after(&mut self, alloc: Global, first: Sign) -> Result<Body, Refused>
        ensures { Gives (λ b. (body_tree b, self.new)) result (labelled_from first self.old) }
    {
        match first {
            Sign::Inner(word) => self.inner_statement(alloc, word),
            _ => self.simple_after(alloc, first),
        }
    }

    // A statement that may bear a label.
    fn labelled(&mut self, alloc: Global) -> Result<Body, Refused>
        ensures { Gives (λ b. (body_tree b, self.new)) result (labelled_at self.old) }
    {
        let Some(first) = self.next() else {
            return Err(Refused::Syntax);
        };
        self.labelled_after(alloc, first)
    }

    // A statement without a label, after its first sign.
    #[tactic(auto, unfolding(crate::specs::BodyReading::any_from))]
    fn any_after(&mut self, alloc: Global, first: Sign) -> Result<Body, Refused>
        ensures { Gives (λ b. (body_tree b, self.new)) result (any_from first self.old) }
    {
        match first {
            Sign::Outer(word) => self.outer_statement(alloc, word),
            _ => self.labelled_after(alloc, first),
        }
    }

    // A statement without a label.
    fn any(&mut self, alloc: Global) -> Result<Body, Refused>
        ensures { Gives (λ b. (body_tree b, self.new)) result (any_at self.old) }
    {
        let Some(first) = self.next() else {
            return Err(Refused::Syntax);
        };
        self.any_after(alloc, first)
    }

    // The label that stands first, and steps past it and its colon.
    #[tactic(auto, unfolding(crate::specs::BodyReading::label_at, crate::specs::Reading::name_at, crate::specs::Reading::name_of))]
    pub(crate) fn label(&mut self) -> Option<Name>
        ensures label { result ≡ (label_at self.old).0 }
        ensures rest { self.new ≡ (label_at self.old).1 }
    {
        let mut ahead = self.ahead();
        let first = ahead.next()?;
        match first {
            Sign::Name(v) => {
                if !ahead.take_mark(Mark::Colon) {
                    return None;
                }
                *self = ahead;
                Some(v)
            }
            _ => None,
        }
    }

    // The statement with this label, after it, or with none.
    #[tactic(auto, unfolding(crate::specs::BodyReading::after_label_at))]
    fn with_label(&mut self, alloc: Global, label: Option<Name>) -> Result<Stmt, Refused>
        ensures { Gives (λ st. ((option_map box_value st.label, body_tree st.body), self.new)) result (with_label_at label self.old) }
    {
        match label {
            Some(name) => {
                let name = Box::new(alloc, name)?;
                let body = self.labelled(alloc)?;
                Ok(Stmt {
                    label: Some(name),
                    body,
                })
            }
            None => {
                let body = self.any(alloc)?;
                Ok(Stmt { label: None, body })
            }
        }
    }

    // A statement with its label, and nothing after it.
    #[tactic(auto, unfolding(crate::specs::BodyReading::statement_of))]
    pub(crate) fn statement(&mut self, alloc: Global) -> Result<Stmt, Refused>
        ensures { Gives (λ st. (option_map box_value st.label, body_tree st.body)) result (statement_of self.old) }
    {
        let label = self.label();
        let statement = self.with_label(alloc, label)?;
        if self.begins_anything() {
            // Dropped by a call, which is cheap to prove for an enum of many variants.
            drop(statement);
            return Err(Refused::Syntax);
        }
        Ok(statement)
    }
}
