//! A scan that is shifted.

/// How many bits of a scan have gone in, and how many the registers have.
#[derive(Clone, Copy)]
pub struct Counting {
    pub shifted: u64,
    pub registers: u64,
}
