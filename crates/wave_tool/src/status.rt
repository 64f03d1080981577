//! How a run of the tool ends.
ghost use Rattle.std.specs.Prelude.{◌≡◌};
ghost use Rattle.wave_tool.specs.Statuses.{exit_code_of};

/// How a run of the tool ends.
#[derive(Clone, Copy)]
pub enum WaveStatus {
    /// The wave is written.
    Written,
    /// The first line, counted from 1, that begins as a line of clocks and is none.
    BadLine(u32),
    /// The trace has more than 67,108,864 bytes.
    TooLong,
    /// The first word, counted from 1, that is not as stated, or 1 where there is none.
    Usage(u32),
}

impl WaveStatus {
    /// The exit code of the process.
    pub fn exit_code(&self) -> u8
        ensures { result ≡ exit_code_of self.now }
    {
        match self {
            WaveStatus::Written => 0,
            WaveStatus::Usage(_) => 7,
            WaveStatus::TooLong => 12,
            WaveStatus::BadLine(_) => 16,
        }
    }
}
