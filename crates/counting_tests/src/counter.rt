//! The tool.
ghost use Rattle.std.specs.Prelude.{map, string_bytes};
ghost use Rattle.tool_io.specs.Lines.{IsWhole};
ghost use Rattle.tool_frame.specs.Files.{OfFiles, NamesOne, first_of, KeepsShelf};
ghost use Rattle.tool_frame.specs.Frame.{SaysAndLeaves};
ghost use Rattle.counting_tests.specs.declared.help.TheConstants.{HELP, VERSION};
ghost use Rattle.counting_tests.specs.Statuses.{exit_code_of, no_fault_codes};
ghost use Rattle.counting_tests.specs.Words.{NamesBoard};
ghost use Rattle.counting_tests.specs.Answers.{WordsAnswer};

use crate::answering::answer_file;
use crate::words::board_path;
use crate::{CountStatus, help};
use named_files::put_usage;
use std::alloc::Global;
use tool_frame::{NoAnswer, Tool};
use tool_io::{Lines, Shelf, Sink};

/// Counts the devices of the board in the file that the one word `board=PATH` names. What is refused has a line: other
/// words, and a text that is no board.
pub struct Counter;

impl Tool for Counter {
    type Ending = CountStatus;

    type Loan = ();

    ghost ready = { λ _. Unit {0} };

    ghost names = { λ words. NamesOne (NamesBoard words) };

    ghost reached = { λ _ words. NamesBoard words };

    ghost answers = { λ words contents. WordsAnswer (first_of contents) words };

    ghost leaves = { λ _ _ _ _ _. Unit {0} };

    ghost exit_code_of = { exit_code_of };

    ghost help_text = { HELP.now };

    ghost version_text = { VERSION.now };

    fn help(&self) -> &'static [u8] {
        help::HELP
    }

    fn version(&self) -> &'static [u8] {
        help::VERSION
    }

    fn exit_code(&self, ending: CountStatus) -> u8 {
        ending.exit_code()
    }

    fn answer<S: Shelf, K: Sink>(
        &self,
        alloc: Global,
        words: &[String],
        shelf: &mut S,
        _loan: &mut (),
        lines: &mut Lines<K>,
    ) -> Result<CountStatus, NoAnswer> {
        match board_path(words) {
            Some(path) => answer_file(alloc, path, shelf, lines),
            None => {
                put_usage(lines, 1)?;
                Ok(CountStatus::Usage)
            }
        }
    }

    ghost leaves_at_write_fault = { λ words contents before after ending left. left };

    ghost answers_are_no_faults = { λ words contents text ending answer. no_fault_codes ending };
}
