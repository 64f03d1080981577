//! What is refused before anything is sent.
ghost use Rattle.std.specs.Prelude.{◌≡◌, OnOk, OnErr};
ghost use Rattle.tool_io.specs.Bytes.{then_bytes, MovesFront};
ghost use Rattle.tool_io.specs.Causes.{HasCause};
ghost use Rattle.tool_io.specs.Lines.{IsWhole, HasPut};
ghost use Rattle.drive_tool.specs.Steps.{line_of, status_of};

use crate::DriveStatus;
use board_text::BoardReason;
use named_files::{put_board_refusal, put_refusal, put_usage};
use stapl_lexer::Reason;
use tool_io::{Failed, Lines, Sink};

/// Why nothing is played.
#[derive(Clone, Copy)]
pub enum Refusal {
    /// The first word, counted from 1, that is not as stated, or the number of words plus 1 if one is missing.
    Usage(u32),
    /// The first faulty line of the board, and the reason.
    Board(u32, BoardReason),
    /// The piece of the first fault of the program, the line of that, and the reason.
    Program(u32, u32, Reason),
    /// The program has no such action.
    Action,
    /// A name cannot be chosen in it.
    Choice,
    /// The board lacks a device of the run.
    Place,
}

impl Refusal {
    /// Its status.
    pub(crate) fn status(self) -> DriveStatus
        ensures { result ≡ status_of self }
    {
        match self {
            Refusal::Usage(n) => DriveStatus::Usage(n),
            Refusal::Board(line, reason) => DriveStatus::BoardRefused(line, reason),
            Refusal::Program(piece, _, reason) => DriveStatus::Refused(piece, reason),
            Refusal::Action => DriveStatus::NoAction,
            Refusal::Choice => DriveStatus::BadChoice,
            Refusal::Place => DriveStatus::BadPlace,
        }
    }

    // Puts its line.
    fn put<K: Sink>(self, lines: &mut Lines<K>) -> Result<(), Failed>
        requires { IsWhole lines.old }
        ensures { HasPut K.Sink lines.old (line_of self) lines.new result }
    {
        match self {
            Refusal::Usage(n) => put_usage(lines, n),
            Refusal::Board(line, reason) => put_board_refusal(lines, line, reason),
            Refusal::Program(piece, line, reason) => put_refusal(lines, piece, line, reason),
            Refusal::Action => lines.put(b"R action\n"),
            Refusal::Choice => lines.put(b"R choice\n"),
            Refusal::Place => lines.put(b"R place\n"),
        }
    }

    /// Writes its line and nothing else.
    ///
    /// `Failed` as of the sink. Then a front of the line is written.
    #[tactic(auto, using(tool_io::proofs::PutLemmas::front_written, tool_io::proofs::PutLemmas::front_end, tool_io::proofs::PutLemmas::all_written, tool_io::proofs::PutLemmas::puts_end))]
    pub(crate) fn write<K: Sink>(self, out: &mut K) -> Result<(), Failed>
        ensures ok { OnOk result (K.written out.new ≡ then_bytes (K.written out.old) (line_of self)) }
        ensures front { OnErr result (MovesFront (K.written out.old) (line_of self) (K.written out.new)) }
        ensures cause { HasCause K.faults K.is_last out.old out.new result }
    {
        let mut lines = Lines::new(out);
        self.put(&mut lines)?;
        lines.finish()?;
        Ok(())
    }
}
