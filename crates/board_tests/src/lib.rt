//! Tests of boards as texts.
#![tactic(auto)]

#[cfg(test)]
mod boards;
