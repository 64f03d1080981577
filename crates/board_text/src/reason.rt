//! The reasons of refused boards.
ghost use Rattle.std.specs.Prelude.{◌≡◌};
ghost use Rattle.board_text.specs.Reasons.{reason_number, reason_name};

/// Why a board is refused. Of the reasons that hold of a line, the one with the smallest number is named. The reasons
/// and their numbers are this profile's.
#[derive(Clone, Copy, Debug, PartialEq, Eq)]
pub enum BoardReason {
    /// The words of the line have none of the shapes of a board's line.
    Form = 1,
    /// A number, an opcode, an identity or a constant is outside its limits.
    Range = 2,
    /// The name of a device stands in the board already, or the name of a register or an opcode in its device.
    Duplicate = 3,
    /// The line of a register, and the last device is none of kind `Regs`.
    Misplaced = 4,
    /// A device's line, or the end, comes while the last device is a `Regs` without a register; or the end comes
    /// without a device.
    Empty = 5,
    /// The 17th device of the board, or the 65th register of its device.
    TooMany = 6,
    /// The text has more than 1,048,576 bytes.
    TooLong = 7,
}

impl BoardReason {
    /// The number of the reason, 1 to 7.
    pub fn number(self) -> u8
        ensures { result ≡ reason_number self }
    {
        self as u8
    }

    /// The name of the reason, as a refusal's line has it.
    pub fn name(self) -> &'static [u8]
        ensures { result.now ≡ reason_name self }
    {
        match self {
            BoardReason::Form => b"Form",
            BoardReason::Range => b"Range",
            BoardReason::Duplicate => b"Duplicate",
            BoardReason::Misplaced => b"Misplaced",
            BoardReason::Empty => b"Empty",
            BoardReason::TooMany => b"TooMany",
            BoardReason::TooLong => b"TooLong",
        }
    }
}
