//! Where a run of clocks is kept.

/// Where the bits of a run stand in two lists: its first bit and how many it has, and true for the instruction
/// registers.
#[derive(Clone, Copy)]
pub struct RunPlace {
    pub ir: bool,
    pub low: u32,
    pub count: u32,
}
