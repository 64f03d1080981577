//! Statements of the STAPL language, which texts are programs, and where the first fault of every other text is.
#![tactic(auto)]

pub mod laws;
mod lines;
mod names;
mod program;
mod signs;
mod statement;

pub use lines::line_of_index;
pub use names::{Block, Declaration, Found, Key, Kind, VarKind, Variable};
pub use program::Program;
pub use signs::{Sign, UnOp};
pub use statement::{
    ArrayExpr, Body, Compare, Exported, Expr, Item, ItemChoice, PrintPart, Scan, Stmt,
};
