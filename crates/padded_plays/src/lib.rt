//! A run of neighbours, alone and at its place in a board with base padding around it, through moves, stays and scans
//! and through whole plays; which of these are quiet, and the first deed of a play that is not, with why: definitions
//! and laws.
#![tactic(auto)]

pub mod laws;
mod unquiet;

pub use unquiet::Unquiet;
