//! The tool.
ghost use Rattle.std.specs.Prelude.{map, string_bytes};
ghost use Rattle.tool_io.specs.Lines.{IsWhole};
ghost use Rattle.tool_frame.specs.Files.{OfFiles, NamesOne, first_of, KeepsShelf};
ghost use Rattle.tool_frame.specs.Frame.{SaysAndLeaves};
ghost use Rattle.print_tool.specs.declared.help.TheConstants.{HELP, VERSION};
ghost use Rattle.print_tool.specs.Statuses.{exit_code_of, no_fault_codes};
ghost use Rattle.print_tool.specs.Words.{NamesProgram};
ghost use Rattle.print_tool.specs.Canonical.{PromisedAnswer};

use crate::answering::answer_file;
use crate::words::program_path;
use crate::{PrintStatus, help};
use named_files::put_usage;
use std::alloc::Global;
use tool_frame::{NoAnswer, Tool};
use tool_io::{Lines, Shelf, Sink};

/// Writes the canonical text of the program in the file that the one word `program=PATH` names. What is refused has a
/// line: other words, a text that is no program, and a canonical text of more than 4,194,304 bytes.
///
/// All memory is taken before the first byte is put.
pub struct Printer;

impl Tool for Printer {
    type Ending = PrintStatus;

    type Loan = ();

    ghost ready = { λ _. Unit {0} };

    ghost names = { λ words. NamesOne (NamesProgram words) };

    ghost reached = { λ _ words. NamesProgram words };

    ghost answers = { λ words contents. PromisedAnswer (first_of contents) words };

    ghost leaves = { λ _ _ _ _ _. Unit {0} };

    ghost exit_code_of = { exit_code_of };

    ghost help_text = { HELP.now };

    ghost version_text = { VERSION.now };

    fn help(&self) -> &'static [u8] {
        help::HELP
    }

    fn version(&self) -> &'static [u8] {
        help::VERSION
    }

    fn exit_code(&self, ending: PrintStatus) -> u8 {
        ending.exit_code()
    }

    fn answer<S: Shelf, K: Sink>(
        &self,
        alloc: Global,
        words: &[String],
        shelf: &mut S,
        _loan: &mut (),
        lines: &mut Lines<K>,
    ) -> Result<PrintStatus, NoAnswer> {
        match program_path(words) {
            Ok(path) => answer_file(alloc, path, shelf, lines),
            Err(n) => {
                put_usage(lines, n)?;
                Ok(PrintStatus::Usage(n))
            }
        }
    }

    ghost leaves_at_write_fault = { λ words contents before after ending left. left };

    ghost answers_are_no_faults = { λ words contents text ending answer. no_fault_codes ending };
}
