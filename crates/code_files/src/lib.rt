//! Codes as files.
#![tactic(auto)]

mod decoding;
mod encoding;
mod fault;
mod fields;
mod instrs;
pub mod laws;
mod read_code;
mod read_instrs;
mod read_lists;
mod read_literals;
mod read_names;
mod read_parts;
mod read_sections;
mod read_variables;
mod reading;

pub use decoding::{DecodeRefused, decode_code};
pub use encoding::encode_code;
