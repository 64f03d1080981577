//! Why a deed is not quiet.

/// Why a move, a stay or a scan of a run of devices that stands alone is not quiet. Which deeds are quiet is this
/// profile's. If several reasons hold of one deed, the first in this order is told.
#[derive(Clone, Copy)]
pub enum Unquiet {
    /// A scan of the instruction registers: how many bits the program shifts, and how many the registers have.
    Instruction(u64, u64),
    /// A scan of the data registers: how many bits the program shifts, and how many the selected registers have.
    Data(u64, u64),
    /// A scan of the data registers before any scan of the instruction registers since the last reset.
    NotLoaded,
    /// A walk into a shift state or into Capture-IR: a move, a stay, or the way to the stop state of a scan.
    ScanState,
}
