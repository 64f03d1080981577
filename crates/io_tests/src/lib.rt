//! Tests of stores of files and of sinks.
#![tactic(auto)]

#[cfg(test)]
mod listing;
#[cfg(test)]
mod outside;
