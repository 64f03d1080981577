//! Tests of codes and of the machine that runs them.
#![tactic(auto)]

#[cfg(test)]
mod codes;
#[cfg(test)]
mod machines;
#[cfg(test)]
mod wire;
