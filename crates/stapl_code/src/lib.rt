//! The code of the stack machine, and what it means.
#![tactic(auto)]

mod instr;
pub mod laws;
mod operators;
mod raw;
mod reason;
mod takes;

pub use instr::{Cell, Compare, Dest, ExportPart, Instr, PrintPart, Scan, Source};
pub use operators::{Operator, operator_of, unary_kind};
pub use raw::{ActionDef, CodeLists, FILE_LIMIT, ItemDef, ProcDef, RawCode, VarDef};
pub use reason::CodeReason;
pub use takes::{export_takes, operands_taken};
