//! Tests of chains of devices, and of the cable to them.
#![tactic(auto)]

#[cfg(test)]
mod blocks;
#[cfg(test)]
mod cable;
#[cfg(test)]
mod chain;
