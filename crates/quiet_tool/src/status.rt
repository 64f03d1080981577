//! How the program ends.
ghost use Rattle.std.specs.Prelude.{◌≡◌};
ghost use Rattle.quiet_tool.specs.Statuses.{exit_code_of, first_unquiet};

use board_text::BoardReason;
use padded_plays::Unquiet;
use stapl_lexer::Reason;

/// How the program ends. If the words ask about the play of each action, this is how the first one ends that is not
/// quiet.
#[derive(Clone, Copy)]
pub enum QuietStatus {
    /// The play is quiet for its turns, or each play is.
    Quiet,
    /// The play is not quiet: the turn and the piece of its first deed that is not, counted from 1, or 0 of what sets
    /// the play up, and why it is not.
    NotQuiet(u32, u32, Unquiet),
    /// The program is refused: the piece, counted from 1, of its first fault, or 0 if the text is too long, and the
    /// reason.
    Refused(u32, Reason),
    /// The board is refused: the first faulty line, counted from 1, or 0 if the text is too long, and the reason.
    BoardRefused(u32, BoardReason),
    /// The program has no action of the name that the words give.
    NoAction,
    /// A name of `do` is not that of an OPTIONAL procedure of the action, or a name of `skip` not that of a RECOMMENDED
    /// one.
    BadChoice,
    /// The board lacks a device of the run that the words name.
    BadPlace,
    /// The first word, counted from 1, that is not as stated, or the number of words plus 1 if one is missing.
    Usage(u32),
}

impl QuietStatus {
    /// The exit code of the process: those of a play for what is refused, and 17 for a play that is not quiet.
    pub fn exit_code(&self) -> u8
        ensures { result ≡ exit_code_of self.now }
    {
        match self {
            QuietStatus::Quiet => 0,
            QuietStatus::Refused(_, _) => 4,
            QuietStatus::BoardRefused(_, _) => 5,
            QuietStatus::NoAction | QuietStatus::BadChoice | QuietStatus::BadPlace => 6,
            QuietStatus::Usage(_) => 7,
            QuietStatus::NotQuiet(_, _, _) => 17,
        }
    }

    /// This status if the play is not quiet, and else that of other plays.
    pub(crate) fn or(self, others: QuietStatus) -> QuietStatus
        ensures { result ≡ first_unquiet self others }
    {
        match self {
            QuietStatus::Quiet => others,
            _ => self,
        }
    }
}
