//! How ranges are meant that are written from a low index to a high one.

/// What a range means whose first index is below its second (JESD71, Boolean array ranges).
#[derive(Clone, Copy)]
pub enum Profile {
    /// It is a run fault.
    One,
    /// Its elements are those from the second index down to the first.
    Two,
}
