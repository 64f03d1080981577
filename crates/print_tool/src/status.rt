//! How the program ends.
ghost use Rattle.std.specs.Prelude.{◌≡◌};
ghost use Rattle.print_tool.specs.Statuses.{exit_code_of};

use stapl_lexer::Reason;

/// How the program ends.
#[derive(Clone, Copy)]
pub enum PrintStatus {
    /// The canonical text is written.
    Done,
    /// The program is refused: the piece, counted from 1, of its first fault, or 0 if the text is too long, and the
    /// reason.
    Refused(u32, Reason),
    /// The canonical text has more than 4,194,304 bytes.
    TooLarge,
    /// The first word, counted from 1, that is not as stated, or the number of words plus 1 if one is missing.
    Usage(u32),
}

impl PrintStatus {
    /// The exit code of the process.
    pub fn exit_code(&self) -> u8
        ensures { result ≡ exit_code_of self.now }
    {
        match self {
            PrintStatus::Done => 0,
            PrintStatus::Refused(_, _) => 4,
            PrintStatus::Usage(_) => 7,
            PrintStatus::TooLarge => 12,
        }
    }
}
