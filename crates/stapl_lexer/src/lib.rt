//! The lowest layer of the STAPL language: the pieces of a text and their tokens, names, and the reasons of refusals.
#![tactic(auto)]

mod byte_fault;
mod crc;
mod cutting;
mod depth;
mod front;
pub mod laws;
mod lexing;
mod literal;
mod name;
mod number;
mod piece;
mod reading;
mod reason;
mod run;
mod spelling;
mod terminal;
mod token;
mod token_fault;

pub use crc::crc_of;
pub use cutting::{TEXT_LIMIT, cut, segment_len};
pub use lexing::{LexRefused, tokens};
pub use literal::literal_digits;
pub use name::Name;
pub use number::capped_digits;
pub use piece::Piece;
pub use reason::Reason;
pub use terminal::{
    BinOp, Function, InnerWord, JoinWord, Mark, OuterWord, Padding, PortWord, Register, SimpleWord,
    Terminal,
};
pub use token::{Token, TokenKind};
