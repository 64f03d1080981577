//! How the program ends.
ghost use Rattle.std.specs.Prelude.{◌≡◌};
ghost use Rattle.rewrite_tool.specs.Statuses.{exit_code_of};

use board_text::BoardReason;
use stapl_lexer::Reason;

/// How the program ends.
#[derive(Clone, Copy)]
pub enum RewriteStatus {
    /// The new program is written.
    Done,
    /// The program is refused: the piece, counted from 1, of its first fault, or 0 if the text is too long, and the
    /// reason.
    Refused(u32, Reason),
    /// The board is refused: the first faulty line, counted from 1, or 0 if the text is too long, and the reason.
    BoardRefused(u32, BoardReason),
    /// The board lacks a device of the run.
    BadPlace,
    /// The program sets a padding itself, first in this piece, counted from 1.
    OwnPadding(u32),
    /// The new program would have more than 100,000 pieces or 4,194,304 bytes.
    TooLarge,
    /// The first word, counted from 1, that is not as stated, or the number of words plus 1 if one is missing.
    Usage(u32),
}

impl RewriteStatus {
    /// The exit code of the process.
    pub fn exit_code(&self) -> u8
        ensures { result ≡ exit_code_of self.now }
    {
        match self {
            RewriteStatus::Done => 0,
            RewriteStatus::Refused(_, _) => 4,
            RewriteStatus::BoardRefused(_, _) => 5,
            RewriteStatus::BadPlace => 6,
            RewriteStatus::Usage(_) => 7,
            RewriteStatus::TooLarge => 12,
            RewriteStatus::OwnPadding(_) => 13,
        }
    }
}
