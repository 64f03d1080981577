//! How the program ends.
ghost use Rattle.std.specs.Prelude.{◌≡◌};
ghost use Rattle.counting_tests.specs.Statuses.{exit_code_of};

use board_text::BoardReason;

/// How the program ends.
#[derive(Clone, Copy)]
pub enum CountStatus {
    /// The devices of the board are counted.
    Counted,
    /// The board is refused: its first faulty line, and the reason.
    Refused(u32, BoardReason),
    /// The words are not `board=PATH` alone.
    Usage,
}

impl CountStatus {
    /// The exit code of the process.
    pub fn exit_code(&self) -> u8
        ensures { result ≡ exit_code_of self.now }
    {
        match self {
            CountStatus::Counted => 0,
            CountStatus::Refused(_, _) => 5,
            CountStatus::Usage => 7,
        }
    }
}
