//! How a run of the tool ends.
ghost use Rattle.std.specs.Prelude.{◌≡◌};
ghost use Rattle.trace_tool.specs.Statuses.{exit_code_of};

use board_text::BoardReason;

/// How a run of the tool ends.
#[derive(Clone, Copy)]
pub enum TraceStatus {
    /// The clocks of the trace are those of the board, and so many.
    Good(u32),
    /// The first clock, counted from 1, that the board answers otherwise.
    Differs(u32),
    /// The first line, counted from 1, that begins as a line of clocks and is none.
    BadLine(u32),
    /// The trace has more than 67,108,864 bytes.
    TooLong,
    /// The board is refused: the first faulty line, counted from 1, or 0 where the text is too long, and the reason.
    BoardRefused(u32, BoardReason),
    /// The first word, counted from 1, that is not as stated, or the number of words plus 1 where words are missing.
    Usage(u32),
}

impl TraceStatus {
    /// The exit code of the process.
    pub fn exit_code(&self) -> u8
        ensures { result ≡ exit_code_of self.now }
    {
        match self {
            TraceStatus::Good(_) => 0,
            TraceStatus::BoardRefused(_, _) => 5,
            TraceStatus::Usage(_) => 7,
            TraceStatus::TooLong => 12,
            TraceStatus::Differs(_) => 15,
            TraceStatus::BadLine(_) => 16,
        }
    }
}
