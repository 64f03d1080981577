//! The server of a link: bytes of the protocol remote bitbang, taken against the devices at some places of a rack.
#![tactic(auto)]

mod client;
pub mod laws;
mod link;
mod orders;

pub use client::{clock_bytes, is_last, raise, with_bit};
pub use link::{Fed, Link, LinkState};
