//! How a run of the tool ends.
ghost use Rattle.std.specs.Prelude.{◌≡◌};
ghost use Rattle.link_tool.specs.Statuses.{exit_code_of};

use board_text::BoardReason;

/// How a run of the tool ends.
#[derive(Clone, Copy)]
pub enum LinkStatus {
    /// The session ended with a `Q`, or with the file.
    Done,
    /// A byte was refused: its offset in the file, counted from 0.
    BadByte(u32),
    /// The session took 16,777,216 bytes, did not end with them, and the file has more.
    TooLong,
    /// The board is refused: the first faulty line, counted from 1, or 0 where the text is too long, and the reason.
    BoardRefused(u32, BoardReason),
    /// The first word, counted from 1, that is not as stated, or the number of words plus 1 where words are missing.
    Usage(u32),
    /// A file that the words name could not be read. The answers to the bytes that were read are written.
    ReadFault,
    /// The output could not be written. What is written is a prefix of the answers.
    WriteFault,
    /// There was no memory. Nothing is written.
    Memory,
}

impl LinkStatus {
    /// The exit code of the process.
    pub fn exit_code(&self) -> u8
        ensures { result ≡ exit_code_of self.now }
    {
        match self {
            LinkStatus::Done => 0,
            LinkStatus::BoardRefused(_, _) => 5,
            LinkStatus::Usage(_) => 7,
            LinkStatus::ReadFault => 9,
            LinkStatus::WriteFault => 10,
            LinkStatus::Memory => 11,
            LinkStatus::TooLong => 12,
            LinkStatus::BadByte(_) => 14,
        }
    }
}
