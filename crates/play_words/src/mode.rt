//! The modes of the tool, and the keys of their words.
ghost use Rattle.std.specs.Prelude.{◌≡◌};

/// What the tool is asked to do. The first word of a command names it.
#[derive(Clone, Copy)]
pub enum Mode {
    /// To play an action of a program.
    Play,
    /// To check a program.
    Check,
    /// To list what a program offers.
    List,
    /// To write a program as the file of a code.
    Compile,
    /// To play an action of a code that a file holds.
    Run,
    /// To play a program that is made from a number, on a board that is made from it.
    Soak,
}

/// The keys of the words after the mode.
#[derive(Clone, Copy)]
pub enum WordKey {
    /// The file of the board.
    Board,
    /// The file of the program.
    Program,
    /// The file of the code.
    Code,
    /// The name of the action.
    Action,
    /// The names of OPTIONAL procedures that are to run.
    Do,
    /// The names of RECOMMENDED procedures that are to be left out.
    Skip,
    /// The place of the device that the program is for, or the places of a run of neighbours.
    Place,
    /// The most turns of the play.
    Turns,
    /// Whether the pins are to be written.
    Pins,
    /// Whether the devices are to be reported.
    Report,
    /// The number that a soak is made from.
    Seed,
}

impl Mode {
    ghost use Rattle.play_words.specs.Words.{takes};

    /// Whether words with this key may stand after the mode.
    pub(crate) fn takes(self, key: WordKey) -> bool
        ensures { result ≡ takes self key }
    {
        match self {
            Mode::Play => !matches!(key, WordKey::Code | WordKey::Seed),
            Mode::Check | Mode::List | Mode::Compile => matches!(key, WordKey::Program),
            Mode::Run => !matches!(key, WordKey::Program | WordKey::Seed),
            Mode::Soak => matches!(key, WordKey::Seed),
        }
    }
}
