//! Tests of descriptions of devices, and of the devices themselves.
#![tactic(auto)]

#[cfg(test)]
mod blocks;
mod cards;
#[cfg(test)]
mod devices;
#[cfg(test)]
mod kinds;
#[cfg(test)]
mod scans;
