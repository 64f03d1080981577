//! Which statements declare again what an earlier piece declares (JESD71, PROCEDURE, DATA, ACTION, variables, labels).
ghost use Rattle.std.specs.Prelude.{◌≡◌};
ghost use Rattle.std.specs.Box.{box_value};
ghost use Rattle.std.specs.Option.{option_map};
ghost use Rattle.stapl_syntax.specs.Trees.{body_tree, stmt_tree};
ghost use Rattle.stapl_syntax.specs.Names.{declaration, block_of_body, action_of_body, variable_in, label_in};
ghost use Rattle.stapl_syntax.specs.Rules.{is_again, declares_again};
ghost use Rattle.checker_rules.specs.Earlier.{declared_below};

use crate::scope::Scope;
use stapl_lexer::Name;
use stapl_syntax::{Body, Stmt};

fn declares_block_again(scope: &Scope, number: u32, body: &Body) -> bool
    ensures { result ≡ is_again (declared_below scope.now.names number).block (block_of_body 0 (body_tree body.now)) }
{
    match body {
        Body::Procedure(name, _) | Body::Data(name) => scope.has_earlier_block(number, name),
        _ => false,
    }
}

fn declares_action_again(scope: &Scope, number: u32, body: &Body) -> bool
    ensures { result ≡ is_again (declared_below scope.now.names number).action (action_of_body 0 (body_tree body.now)) }
{
    match body {
        Body::Action(name, _, _) => scope.has_earlier_action(number, name),
        _ => false,
    }
}

#[tactic(auto, using(crate::proofs::ScopeLemmas::variable_again, crate::proofs::ScopeLemmas::no_variable))]
fn declares_variable_again(scope: &Scope, number: u32, body: &Body) -> bool
    ensures { result ≡
        is_again (declared_below scope.now.names number).variable (variable_in scope.now.inside 0 (declaration
        (body_tree body.now))) }
{
    match body.declaration() {
        Some(declaration) => scope.has_earlier_variable(number, &declaration.name),
        None => false,
    }
}

#[tactic(auto, using(crate::proofs::ScopeLemmas::label_again, crate::proofs::ScopeLemmas::no_label))]
fn declares_label_again(scope: &Scope, number: u32, label: &Option<Box<Name>>) -> bool
    ensures { result ≡ is_again (declared_below scope.now.names number).label (label_in scope.now.inside 0 (option_map box_value label.now)) }
{
    match label {
        Some(name) => scope.has_earlier_label(number, name),
        None => false,
    }
}

/// Whether the statement of the piece with this number declares again what a piece with a lower number declares.
pub(crate) fn declares_again(scope: &Scope, number: u32, statement: &Stmt) -> bool
    ensures { result ≡
        declares_again (declared_below scope.now.names number) scope.now.inside (stmt_tree statement.now) }
{
    declares_block_again(scope, number, &statement.body)
        || declares_action_again(scope, number, &statement.body)
        || declares_variable_again(scope, number, &statement.body)
        || declares_label_again(scope, number, &statement.label)
}
