//! Tests of the library calls that read programs.
#![tactic(auto)]

#[cfg(test)]
mod checking;
#[cfg(test)]
mod grammar;
#[cfg(test)]
mod names;
#[cfg(test)]
mod pieces;
#[cfg(test)]
mod tokens;
