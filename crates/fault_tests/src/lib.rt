//! Tests of what fails outside: each call of a cable in turn.
#![tactic(auto)]

#[cfg(test)]
mod cable;
#[cfg(test)]
mod plays;
