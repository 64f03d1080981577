//! Tests of the whole tool over a store and a sink in memory.
#![tactic(auto)]

#[cfg(test)]
mod faults;
#[cfg(test)]
mod plays;
