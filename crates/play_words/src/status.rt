//! How a run of the tool ends.
ghost use Rattle.std.specs.Prelude.{◌≡◌};
ghost use Rattle.play_words.specs.Codes.{exit_code_of};

use board_text::BoardReason;
use stapl_code::CodeReason;
use stapl_lexer::Reason;
use stapl_meaning::RunFault;

/// How a run of the tool ends.
#[derive(Clone, Copy, PartialEq, Eq)]
pub enum Status {
    /// The work is done, 0; or a play ended with this code.
    Done(i32),
    /// A fault ended the play, in the turn of this piece. Pieces are counted from 1.
    Fault(RunFault, u32),
    /// The play still goes on after the turns that it was given.
    Spent,
    /// The program is refused: the piece, counted from 1, of its first fault, or 0 where the text is too long, and the
    /// reason.
    Refused(u32, Reason),
    /// The board is refused: the first faulty line, counted from 1, or 0 where the text is too long, and the reason.
    /// The end of a board without a device is the line after the last.
    BoardRefused(u32, BoardReason),
    /// The code is refused: the offset of the first fault of its file, and the reason.
    CodeRefused(u32, CodeReason),
    /// The program has no action of the name that the words give.
    NoAction,
    /// A name of `do` is not that of an OPTIONAL procedure of the action, or a name of `skip` not that of a RECOMMENDED
    /// one.
    BadChoice,
    /// The board has no device at the place that the words name.
    BadPlace,
    /// The first word, counted from 1, that is not as stated, or the number of words plus 1 where words are missing.
    Usage(u32),
    /// A file that the words name could not be read. Nothing is written.
    ReadFault,
    /// The output could not be written. What is written is a prefix of the text.
    WriteFault,
    /// There was no memory. Nothing is written.
    Memory,
}

impl Status {
    /// The exit code of the process: 0 for work that is done and for a play that ended with code 0, 1 for a play that
    /// ended with another, 2 for one that a fault ended, 3 for one whose turns are spent, and from 4 on one for each
    /// cause.
    pub fn exit_code(&self) -> u8
        ensures { result ≡ exit_code_of self.now }
    {
        match self {
            Status::Done(0) => 0,
            Status::Done(_) => 1,
            Status::Fault(_, _) => 2,
            Status::Spent => 3,
            Status::Refused(_, _) => 4,
            Status::BoardRefused(_, _) => 5,
            Status::NoAction | Status::BadChoice | Status::BadPlace => 6,
            Status::Usage(_) => 7,
            Status::CodeRefused(_, _) => 8,
            Status::ReadFault => 9,
            Status::WriteFault => 10,
            Status::Memory => 11,
        }
    }
}
