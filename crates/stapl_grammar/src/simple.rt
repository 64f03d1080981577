//! Statements that may stand after THEN.
use crate::cursor::Cursor;
use crate::refused::Refused;
use stapl_lexer::{JoinWord, Mark, Name, SimpleWord};
use stapl_syntax::{Body, Expr, Sign};
use std::alloc::Global;

impl<'a> Cursor<'a> {
    ghost use Rattle.std.specs.Prelude.{◌≡◌, ◌<◌, length};
    ghost use Rattle.std.specs.Option.{option_map};
    ghost use Rattle.std.specs.Box.{box_value};
    ghost use Rattle.stapl_syntax.specs.Trees.{expr_tree, body_tree, print};
    ghost use Rattle.stapl_syntax.specs.Parts.{step_part, for_part, print_part, export_part};
    ghost use Rattle.stapl_grammar.specs.Given.{Gives};
    ghost use Rattle.stapl_grammar.specs.PartReading.{part_at};
    ghost use Rattle.stapl_grammar.specs.BodyReading.{mapped, range_or_element_of, range_or_element_part, indexed_of, indexed_part, assign_of, assign_part, for_of, export_of, simple_word_from, if_from, simple_from, simple_at};

    // After a name, its bracket and an expression: ".." expr "]" "=" array | "]" "=" expr
    #[tactic(auto, unfolding(crate::specs::PartReading::part_at))]
    fn range_or_element(
        &mut self,
        alloc: Global,
        v: Name,
        first: Box<Expr>,
    ) -> Result<Body, Refused>
        ensures { Gives (λ b. (body_tree b, self.new)) result
            (mapped (range_or_element_of v (expr_tree (box_value first))) (part_at range_or_element_part self.old)) }
    {
        if self.take_mark(Mark::Dots) {
            let low = self.boxed_expr(alloc)?;
            self.expect_mark(Mark::RightSquare)?;
            self.expect_mark(Mark::Equals)?;
            let array = self.boxed_array(alloc)?;
            return Ok(Body::AssignRange(Box::new(alloc, v)?, first, low, array));
        }
        self.expect_mark(Mark::RightSquare)?;
        self.expect_mark(Mark::Equals)?;
        let value = self.boxed_expr(alloc)?;
        Ok(Body::AssignElement(v, first, value))
    }

    // After a name and its bracket: "]" "=" array | expr ".." expr "]" "=" array | expr "]" "=" expr
    #[tactic(auto, unfolding(crate::specs::PartReading::part_at))]
    fn indexed(&mut self, alloc: Global, v: Name) -> Result<Body, Refused>
        ensures { Gives (λ b. (body_tree b, self.new)) result (mapped (indexed_of v) (part_at indexed_part self.old)) }
    {
        if self.take_mark(Mark::RightSquare) {
            self.expect_mark(Mark::Equals)?;
            let array = self.boxed_array(alloc)?;
            return Ok(Body::AssignArray(v, array));
        }
        let first = self.boxed_expr(alloc)?;
        self.range_or_element(alloc, v, first)
    }

    // After a name: "=" expr, or what stands after "[".
    #[tactic(auto, unfolding(crate::specs::PartReading::part_at))]
    fn assignment(&mut self, alloc: Global, v: Name) -> Result<Body, Refused>
        ensures { Gives (λ b. (body_tree b, self.new)) result (mapped (assign_of v) (part_at assign_part self.old)) }
    {
        if self.take_mark(Mark::Equals) {
            let value = self.boxed_expr(alloc)?;
            return Ok(Body::Assign(v, value));
        }
        self.expect_mark(Mark::LeftSquare)?;
        self.indexed(alloc, v)
    }

    // [STEP expr]
    #[tactic(auto, unfolding(crate::specs::PartReading::part_at))]
    fn step(&mut self, alloc: Global) -> Result<Option<Box<Expr>>, Refused>
        ensures { Gives (λ e. (option_map (λ e. expr_tree (box_value e)) e, self.new)) result (part_at step_part self.old) }
    {
        if !self.take_join(JoinWord::Step) {
            return Ok(None);
        }
        let step = self.boxed_expr(alloc)?;
        Ok(Some(step))
    }

    // FOR name "=" expr TO expr [STEP expr]
    #[tactic(auto, unfolding(crate::specs::PartReading::part_at))]
    fn for_loop(&mut self, alloc: Global) -> Result<Body, Refused>
        ensures { Gives (λ b. (body_tree b, self.new)) result (mapped for_of (part_at for_part self.old)) }
    {
        let name = self.name()?;
        self.expect_mark(Mark::Equals)?;
        let from = self.boxed_expr(alloc)?;
        self.expect_join(JoinWord::To)?;
        let to = self.boxed_expr(alloc)?;
        let step = self.step(alloc)?;
        Ok(Body::For(Box::new(alloc, name)?, from, to, step))
    }

    // EXPORT string "," (expr | array)
    #[tactic(auto, unfolding(crate::specs::PartReading::part_at))]
    fn export(&mut self, alloc: Global) -> Result<Body, Refused>
        ensures { Gives (λ b. (body_tree b, self.new)) result (mapped export_of (part_at export_part self.old)) }
    {
        let key = self.text(alloc)?;
        self.expect_mark(Mark::Comma)?;
        let exported = self.exported(alloc)?;
        Ok(Body::Export(key, Box::new(alloc, exported)?))
    }

    // PRINT part {"," part}
    #[tactic(auto, unfolding(crate::specs::PartReading::part_at))]
    fn print(&mut self, alloc: Global) -> Result<Body, Refused>
        ensures { Gives (λ b. (body_tree b, self.new)) result (mapped print (part_at print_part self.old)) }
    {
        let parts = self.print_parts(alloc)?;
        Ok(Body::Print(parts))
    }

    // A statement after its first word.
    #[tactic(auto, unfolding(crate::specs::BodyReading::simple_word_from, crate::specs::PartReading::part_at))]
    fn simple_statement(&mut self, alloc: Global, word: SimpleWord) -> Result<Body, Refused>
        ensures { Gives (λ b. (body_tree b, self.new)) result (simple_word_from word self.old) }
    {
        match word {
            SimpleWord::Call => {
                let name = self.name()?;
                Ok(Body::Call(name))
            }
            SimpleWord::Goto => {
                let name = self.name()?;
                Ok(Body::Goto(name))
            }
            SimpleWord::For => self.for_loop(alloc),
            SimpleWord::Next => {
                let name = self.name()?;
                Ok(Body::Next(name))
            }
            SimpleWord::Push => {
                let value = self.expr(alloc)?;
                Ok(Body::Push(value))
            }
            SimpleWord::Pop => {
                let cell = self.cell(alloc)?;
                Ok(Body::Pop(cell))
            }
            SimpleWord::Print => self.print(alloc),
            SimpleWord::Export => self.export(alloc),
            SimpleWord::Exit => {
                let code = self.expr(alloc)?;
                Ok(Body::Exit(code))
            }
        }
    }

    // After IF: an expression, THEN and a statement.
    #[cycle(statements)]
    #[tactic(auto, unfolding(crate::specs::BodyReading::if_from))]
    fn if_then(&mut self, alloc: Global) -> Result<Body, Refused>
        ensures { Gives (λ b. (body_tree b, self.new)) result (if_from simple_at self.old) }
    {
        let test = self.expr(alloc)?;
        self.expect_join(JoinWord::Then)?;
        let then = self.boxed_simple(alloc)?;
        Ok(Body::If(test, then))
    }

    // A statement after its first sign.
    #[cycle(statements)]
    #[tactic(auto, unfolding(crate::specs::BodyReading::simple_from))]
    pub(crate) fn simple_after(&mut self, alloc: Global, first: Sign) -> Result<Body, Refused>
        ensures { Gives (λ b. (body_tree b, self.new)) result (simple_from simple_at first self.old) }
    {
        match first {
            Sign::Name(v) => self.assignment(alloc, v),
            Sign::Simple(word) => self.simple_statement(alloc, word),
            Sign::If => self.if_then(alloc),
            Sign::Port(word) => self.port_statement(alloc, word),
            _ => Err(Refused::Syntax),
        }
    }

    // A statement that may stand after THEN.
    #[cycle(statements)]
    #[tactic(auto, using(crate::proofs::BodyComplete::simple_at_is))]
    fn simple(&mut self, alloc: Global) -> Result<Body, Refused>
        ensures { Gives (λ b. (body_tree b, self.new)) result (simple_at self.old) }
    {
        let Some(first) = self.next() else {
            return Err(Refused::Syntax);
        };
        self.simple_after(alloc, first)
    }

    // The same, after a pointer.
    #[cycle(statements)]
    fn boxed_simple(&mut self, alloc: Global) -> Result<Box<Body>, Refused>
        ensures { Gives (λ b. (body_tree (box_value b), self.new)) result (simple_at self.old) }
    {
        let statement = self.simple(alloc)?;
        Ok(Box::new(alloc, statement)?)
    }
}
