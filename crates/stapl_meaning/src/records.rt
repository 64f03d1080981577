//! What the record stack holds.

/// A loop that FOR began.
#[derive(Clone, Copy)]
pub struct Loop {
    /// The number of its variable, from 0.
    pub variable: u32,
    /// The bound at which it is over.
    pub limit: i32,
    /// What NEXT adds to the variable: not 0.
    pub step: i32,
    /// Where its body begins: the place after FOR.
    pub place: u32,
}

/// A record of the record stack. Places are those of pieces, or of instructions where a code runs, from 0.
#[derive(Clone, Copy)]
pub enum Record {
    /// A value, by PUSH. A Boolean is 0 or 1.
    Pushed(i32),
    /// The place after a CALL.
    Called(u32),
    /// A loop, by FOR.
    Looped(Loop),
}
