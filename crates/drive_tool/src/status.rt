//! How a run of the tool ends.
ghost use Rattle.std.specs.Prelude.{◌≡◌};
ghost use Rattle.drive_tool.specs.Statuses.{exit_code_of, done_with};

use board_text::BoardReason;
use stapl_lexer::Reason;
use stapl_meaning::{Ending, RunFault};

/// How a run of the tool ends.
#[derive(Clone, Copy)]
pub enum DriveStatus {
    /// The play ended with this code.
    Done(i32),
    /// A fault ended the play, in the turn of this piece. Pieces are counted from 1.
    Fault(RunFault, u32),
    /// The play still goes on after the turns that it was given.
    Spent,
    /// The program is refused: the piece, counted from 1, of its first fault, or 0 if the text is too long, and the
    /// reason.
    Refused(u32, Reason),
    /// The board is refused: the first faulty line, counted from 1, or 0 if the text is too long, and the reason.
    BoardRefused(u32, BoardReason),
    /// The program has no action of the name that the words give.
    NoAction,
    /// A name of `do` is not that of an OPTIONAL procedure of the action, or a name of `skip` not that of a RECOMMENDED
    /// one.
    BadChoice,
    /// The board lacks a device of the run that the words name.
    BadPlace,
    /// The first word, counted from 1, that is not as stated, or the number of words plus 1 if one is missing.
    Usage(u32),
    /// The board or the program could not be read. Nothing is written, and nothing is sent.
    ReadFault,
    /// The output could not be written. What is written is a prefix of the text.
    WriteFault,
    /// There was no memory. Nothing is written, and nothing is sent.
    Memory,
    /// The wire could not be opened, sent over or received from, or an answer was no digit of a bit. What is written is
    /// a prefix of the text.
    WireFault,
}

impl DriveStatus {
    /// The exit code of the process: those of a play, and 18 for the wire.
    pub fn exit_code(&self) -> u8
        ensures { result ≡ exit_code_of self.now }
    {
        match self {
            DriveStatus::Done(0) => 0,
            DriveStatus::Done(_) => 1,
            DriveStatus::Fault(_, _) => 2,
            DriveStatus::Spent => 3,
            DriveStatus::Refused(_, _) => 4,
            DriveStatus::BoardRefused(_, _) => 5,
            DriveStatus::NoAction | DriveStatus::BadChoice | DriveStatus::BadPlace => 6,
            DriveStatus::Usage(_) => 7,
            DriveStatus::ReadFault => 9,
            DriveStatus::WriteFault => 10,
            DriveStatus::Memory => 11,
            DriveStatus::WireFault => 18,
        }
    }

    /// The status of a play that ends so.
    pub(crate) fn of(ending: Ending) -> DriveStatus
        ensures { result ≡ done_with ending }
    {
        match ending {
            Ending::Exit(code) => DriveStatus::Done(code),
            Ending::Fault(fault, piece) => DriveStatus::Fault(fault, piece),
            Ending::Spent => DriveStatus::Spent,
        }
    }
}
