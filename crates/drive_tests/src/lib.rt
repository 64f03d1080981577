//! Tests of a cable that is driven by bytes.
#![tactic(auto)]

#[cfg(test)]
mod cable;
