//! What the words of a command ask for.
use base::ItemList;
use command_words::{FileName, PlaceRun};
use stapl_lexer::Name;

/// What is asked of a play: an action, which of its procedures run, and how it is played.
#[derive(Drop)]
pub struct PlayRequest {
    /// The name of the action.
    pub action: Name,
    /// The names of OPTIONAL procedures of the action that are to run.
    pub todo: ItemList<Name>,
    /// The names of RECOMMENDED procedures of the action that are to be left out.
    pub skip: ItemList<Name>,
    /// The run of devices that the program is for: the scans are padded for the other devices of the board. Without one
    /// the program is for the whole board.
    pub place: Option<PlaceRun>,
    /// The most turns that the play may take, or the usual number if the words say none.
    pub turns: u32,
    /// Whether the clocks are to be written, as the pins see them; no if the words do not say it.
    pub pins: bool,
    /// Whether what the devices hold after the play is to be written; no if the words do not say it.
    pub report: bool,
}

/// A play of what a file holds, on the board in another. The names of the files are not empty.
#[derive(Drop)]
pub struct FilePlay {
    /// The file of the board.
    pub board: FileName,
    /// The file of the program or of the code.
    pub source: FileName,
    /// What is asked of the play.
    pub request: PlayRequest,
}

/// What the words ask for. The names of the files are not empty.
#[derive(Drop)]
pub enum Request {
    /// To play an action of a program.
    Play(FilePlay),
    /// To play an action of a code.
    Run(FilePlay),
    /// To check the program in a file.
    Check(FileName),
    /// To list what the program in a file offers.
    List(FileName),
    /// To write the program in a file as the file of a code.
    Compile(FileName),
    /// To play a program that is made from this number, on a board that is made from it.
    Soak(u32),
}
