//! The tool that answers questions.
ghost use Rattle.std.specs.Prelude.{map, string_bytes};
ghost use Rattle.tool_io.specs.Lines.{IsWhole};
ghost use Rattle.tool_frame.specs.Files.{OfFiles, NamesOne, first_of, KeepsShelf};
ghost use Rattle.tool_frame.specs.Frame.{SaysAndLeaves};
ghost use Rattle.play_words.specs.Codes.{exit_code_of};
ghost use Rattle.play_words.specs.declared.help.TheConstants.{HELP, VERSION};
ghost use Rattle.tool_questions.specs.Questions.{QuestionAnswer, IsAskedOf};
ghost use Rattle.tool_questions.specs.Statuses.{answer_code};

use crate::ask::{answer_word, refuse};
use crate::board::{ask_board, ask_line};
use crate::piece::ask_piece;
use crate::words::words_after;
use play_words::{HELP, Status, VERSION};
use std::alloc::Global;
use tool_frame::{NoAnswer, Tool};
use tool_io::{Lines, Shelf, Sink};

/// Answers questions: `--explain WORD` is answered by what is said of a reason, a fault, an exit code or a statement;
/// `--piece N program=PATH` by the line and the text of the piece N of the program, counted from 1, and if the program
/// is refused there, by the line of the refusal and what is said of its reason; `--line N board=PATH` by the text of the
/// line N of the board, and if the board is refused there, by the refusal and what is said of its reason; `--board
/// board=PATH` by the number of devices of the board, or as `--line` for its first faulty line. Words after these are
/// refused at the first that is not as stated, and words that are no question at the first.
///
/// All memory is taken before the first byte is put.
pub struct Questioner;

impl Tool for Questioner {
    type Ending = Status;

    type Loan = ();

    ghost ready = { λ _. Unit {0} };

    ghost names = { λ words. NamesOne (IsAskedOf words) };

    ghost reached = { λ _ words. IsAskedOf words };

    ghost answers = { λ words contents. QuestionAnswer (first_of contents) words };

    ghost leaves = { λ _ _ _ _ _. Unit {0} };

    ghost exit_code_of = { exit_code_of };

    ghost help_text = { HELP.now };

    ghost version_text = { VERSION.now };

    fn help(&self) -> &'static [u8] {
        HELP
    }

    fn version(&self) -> &'static [u8] {
        VERSION
    }

    fn exit_code(&self, ending: Status) -> u8 {
        ending.exit_code()
    }

    fn answer<S: Shelf, K: Sink>(
        &self,
        alloc: Global,
        words: &[String],
        shelf: &mut S,
        _loan: &mut (),
        lines: &mut Lines<K>,
    ) -> Result<Status, NoAnswer> {
        if let Some(rest) = words_after("--explain", words) {
            return answer_word(alloc, rest, lines);
        }
        if let Some(rest) = words_after("--piece", words) {
            return ask_piece(alloc, rest, shelf, lines);
        }
        if let Some(rest) = words_after("--line", words) {
            return ask_line(alloc, rest, shelf, lines);
        }
        if let Some(rest) = words_after("--board", words) {
            return ask_board(alloc, rest, shelf, lines);
        }
        refuse(1, lines)
    }

    ghost leaves_at_write_fault = { λ words contents before after ending left. left };

    ghost answers_are_no_faults = { λ words contents text ending answer.
        answer_code (first_of contents) words text ending answer };
}
