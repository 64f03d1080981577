//! The outside as the tool sees it: a store of named files, a sink of bytes, and the calls over them.
#![tactic(auto)]

mod block;
mod count;
mod lines;
mod mem_shelf;
mod mem_sink;
mod outside;
mod reading;
mod std_edge;
mod texts;

pub use lines::Lines;
pub use mem_shelf::MemShelf;
pub use mem_sink::MemSink;
pub use outside::{Failed, Shelf, Sink};
pub use reading::{ReadRefused, read_whole};
pub use std_edge::{FileShelf, StdSink};
pub use texts::{
    put_count, put_count_line, put_escaped, put_hex, put_labelled, put_labelled_text,
    put_number_line, put_size, put_word_line,
};
