//! Tests of plays over a wire to a link.
#![tactic(auto)]

#[cfg(test)]
mod plays;
