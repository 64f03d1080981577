//! What is known of names at a piece.
ghost use Rattle.std.specs.Prelude.{◌≡◌, is_some};
ghost use Rattle.std.specs.Option.{option_map};
ghost use Rattle.stapl_syntax.specs.Rules.{is_data_block, known_from};
ghost use Rattle.stapl_names.specs.Tables.{StandsIn};
ghost use Rattle.checker_rules.specs.Scopes.{named, IsInside, known_of, variable_in_block};
ghost use Rattle.checker_rules.specs.Earlier.{declared_below, passes_in};

use stapl_lexer::Name;
use stapl_names::{Names, VariableKinds};
use stapl_syntax::{Found, VarKind, Variable};
use std::marker::Model;

/// The names of a program, seen from inside a block or from outside blocks.
#[derive(Drop)]
pub(crate) struct Scope<'a> {
    names: &'a Names,
    // The number of the open block.
    inside: Option<u32>,
}

impl<'a> Model for Scope<'a> {
    ghost use Rattle.checker_rules.specs.Scopes.{Seen, named, IsInside};

    ghost Value = { Seen };

    ghost view = { λ s. record { names = s.names.now; inside = named s.names.now s.inside } };

    ghost invariant = { λ s. IsInside s.names.now s.inside };
}

#[tactic(auto, using(crate::proofs::ScopeLemmas::has_number, crate::proofs::ScopeLemmas::no_number, crate::proofs::ScopeLemmas::no_earlier, crate::proofs::ScopeLemmas::own_some, crate::proofs::ScopeLemmas::own_none), unfolding(crate::specs::Scopes::known_of))]
impl<'a> Scope<'a> {
    /// The names seen from inside the block with this number, or from outside blocks.
    pub(crate) fn new(names: &'a Names, inside: Option<u32>) -> Scope<'a>
        requires { IsInside names.now inside }
        ensures names { result.names ≡ names.now }
        ensures inside { result.inside ≡ named names.now inside }
        ensures known { known_of result ≡ known_from names.now (named names.now inside) }
    {
        Scope { names, inside }
    }

    /// What a name of a variable stands for.
    pub(crate) fn found(&self, name: &Name) -> Found
        ensures found { result ≡ (known_of self.now).found name.now }
        ensures within { StandsIn self.now.names result }
    {
        match self.inside {
            Some(block) => self.names.look_up(block, name),
            None => self.names.look_up_outside(name),
        }
    }

    /// The kind of the variable that a name stands for.
    fn kind_of(&self, name: &Name) -> Option<VarKind>
        ensures { result ≡ (known_of self.now).kind name.now }
    {
        match self.found(name) {
            Found::Variable(number) => Some(self.names.variable(number).kind),
            Found::Hidden | Found::Absent => None,
        }
    }

    /// Whether there is a block of this name.
    pub(crate) fn is_block(&self, name: &Name) -> bool
        ensures { result ≡ is_some ((known_of self.now).block name.now) }
    {
        self.names.block(name).is_some()
    }

    /// Whether there is a DATA block of this name.
    pub(crate) fn is_data(&self, name: &Name) -> bool
        ensures { result ≡ is_data_block ((known_of self.now).block name.now) }
    {
        match self.names.block(name) {
            Some(number) => self.names.block_at(number).is_data,
            None => false,
        }
    }

    /// Whether the open procedure has a label of this name.
    pub(crate) fn has_label(&self, name: &Name) -> bool
        ensures { result ≡ (known_of self.now).label name.now }
    {
        match self.inside {
            Some(block) => self.names.label(block, name).is_some(),
            None => false,
        }
    }

    /// Whether a piece with a lower number declares the block of this name.
    pub(crate) fn has_earlier_block(&self, number: u32, name: &Name) -> bool
        ensures { result ≡ (declared_below self.now.names number).block name.now }
    {
        match self.names.block(name) {
            Some(block) => self.names.block_at(block).piece < number,
            None => false,
        }
    }

    /// Whether a piece with a lower number declares the action of this name.
    pub(crate) fn has_earlier_action(&self, number: u32, name: &Name) -> bool
        ensures { result ≡ (declared_below self.now.names number).action name.now }
    {
        match self.names.action(name) {
            Some(piece) => piece < number,
            None => false,
        }
    }

    /// Whether a piece with a lower number declares the variable of this name in the open block.
    pub(crate) fn has_earlier_variable(&self, number: u32, name: &Name) -> bool
        ensures { result ≡ passes_in (declared_below self.now.names number).variable self.now.inside name.now }
    {
        match self.own_variable(name) {
            Some(variable) => variable.piece < number,
            None => false,
        }
    }

    // The variable of this name in the open block.
    fn own_variable(&self, name: &Name) -> Option<&Variable>
        ensures { option_map (λ v. v.now) result ≡ variable_in_block self.now.names self.now.inside name.now }
    {
        let Some(block) = self.inside else {
            return None;
        };
        match self.names.variable_of(block, name) {
            Some(number) => Some(self.names.variable(number)),
            None => None,
        }
    }

    /// Whether a piece with a lower number declares the label of this name in the open block.
    pub(crate) fn has_earlier_label(&self, number: u32, name: &Name) -> bool
        ensures { result ≡ passes_in (declared_below self.now.names number).label self.now.inside name.now }
    {
        let Some(block) = self.inside else {
            return false;
        };
        match self.names.label(block, name) {
            Some(piece) => piece < number,
            None => false,
        }
    }
}

impl<'a> VariableKinds for Scope<'a> {
    ghost kinds = { λ s. (known_of s).kind };

    fn kind(&self, name: &Name) -> Option<VarKind> {
        self.kind_of(name)
    }
}
