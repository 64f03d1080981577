//! The names of a program: tables of its blocks, actions, variables and labels, each by the first piece that declares
//! it, and what a name of a variable stands for.
#![tactic(auto)]

mod blocks;
mod kinds;
mod names;
mod tables;
mod variables;

pub use kinds::{
    VariableKinds, element_kind, expr_kind, is_array, is_bit, is_bit_alone, is_bit_array, is_int,
    is_integer, scalar_kind,
};
pub use names::{Names, collect};
pub use tables::inside_next;
