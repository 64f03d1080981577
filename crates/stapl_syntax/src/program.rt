//! A whole program.
ghost use Rattle.std.specs.Prelude.{◌≡◌};
ghost use Rattle.stapl_syntax.specs.Trees.{trees};
ghost use Rattle.stapl_syntax.specs.Programs.{IsProgram};
ghost use Rattle.stapl_syntax.specs.ProgramValues.{trees_of};

use crate::Stmt;
use std::marker::Model;

/// A program: a text without a fault, and its statements, one a piece (JESD71, program structure).
#[derive(Drop)]
pub struct Program {
    text: Vec<u8>,
    statements: Vec<Stmt>,
}

impl Model for Program {
    ghost use Rattle.stapl_syntax.specs.Trees.{trees};
    ghost use Rattle.stapl_syntax.specs.Programs.{IsProgram};
    ghost use Rattle.stapl_syntax.specs.ProgramValues.{ProgramValue};
    ghost use Rattle.stapl_syntax.specs.contracts.statement.Stmt as stmt;
    ghost use Rattle.std.specs.Coded.{codes};

    ghost Value = { ProgramValue };

    ghost coded = { Prim.hlevel (codes, stmt.the_row.coded) };

    ghost view = { λ p. record { text = p.text.items; statements = p.statements.items } };

    ghost invariant = { λ p. IsProgram p.text.items (trees p.statements.items) };
}

impl Program {
    /// The program of a text, whose statements these are.
    pub fn of(text: Vec<u8>, statements: Vec<Stmt>) -> Program
        requires { IsProgram text.items (trees statements.items) }
        ensures text { result.text ≡ text.items }
        ensures statements { result.statements ≡ statements.items }
    {
        Program { text, statements }
    }

    /// The bytes of the text.
    pub fn text(&self) -> &[u8]
        ensures text { result.now ≡ self.now.text }
        ensures program { IsProgram self.now.text (trees_of self.now) }
    {
        &self.text
    }

    /// The statements, one a piece.
    pub fn statements(&self) -> &[Stmt]
        ensures statements { result.now ≡ self.now.statements }
        ensures program { IsProgram self.now.text (trees_of self.now) }
    {
        &self.statements
    }
}
