//! What a WAIT waits for.

/// What a WAIT counts.
#[derive(Clone, Copy)]
pub enum WaitKind {
    /// Clocks alone.
    Cycles,
    /// Microseconds alone.
    Usec,
    /// Clocks, and then microseconds.
    Both,
}
