//! The tool.
ghost use Rattle.std.specs.Prelude.{map, string_bytes};
ghost use Rattle.tool_io.specs.Lines.{IsWhole};
ghost use Rattle.tool_frame.specs.Files.{OfFiles, KeepsShelf};
ghost use Rattle.tool_frame.specs.Frame.{SaysAndLeaves};
ghost use Rattle.named_files.specs.Contents.{NamesBoth, both_of, IsAskedAndReached};
ghost use Rattle.rewrite_tool.specs.declared.help.TheConstants.{HELP, VERSION};
ghost use Rattle.rewrite_tool.specs.Statuses.{exit_code_of, no_fault_codes};
ghost use Rattle.rewrite_tool.specs.Words.{Asks};
ghost use Rattle.rewrite_tool.specs.PlayedAlike.{PromisedAnswer};

use crate::requests::answer_request;
use crate::words::read_words;
use crate::{RewriteStatus, help};
use board_text::laws::each_board_can_be_fitted;
use carried_padding::laws::a_carried_text_plays_as_its_program_with_base_padding;
use named_files::put_usage;
use std::alloc::Global;
use tool_frame::{NoAnswer, Tool};
use tool_io::{Lines, Shelf, Sink};

/// Writes a program that plays on the whole chain of a board as the program of a file does at a run of its devices: the
/// same program in canonical text, with the padding for that run set by a procedure that each action runs first. The
/// words are `program=PATH`, `board=PATH` and `place=RUN`, in this order.
///
/// It reads the board first, and then the program. What is refused is told in a line: words, a board, a text that is no
/// program, a run that the board lacks, a program with a padding of its own, and a new program that is too large, in
/// this order.
///
/// All memory is taken before the first byte is put.
pub struct Rewriter;

impl Tool for Rewriter {
    type Ending = RewriteStatus;

    type Loan = ();

    ghost ready = { λ _. Unit {0} };

    ghost names = { λ words. NamesBoth (Asks words) };

    ghost reached = { λ told words. IsAskedAndReached (Asks words) told };

    ghost answers = { λ words contents. PromisedAnswer words (both_of contents) };

    ghost leaves = { λ _ _ _ _ _. Unit {0} };

    ghost exit_code_of = { exit_code_of };

    ghost help_text = { HELP.now };

    ghost version_text = { VERSION.now };

    fn help(&self) -> &'static [u8] {
        help::HELP
    }

    fn version(&self) -> &'static [u8] {
        help::VERSION
    }

    fn exit_code(&self, ending: RewriteStatus) -> u8 {
        ending.exit_code()
    }

    fn answer<S: Shelf, K: Sink>(
        &self,
        alloc: Global,
        words: &[String],
        shelf: &mut S,
        _loan: &mut (),
        lines: &mut Lines<K>,
    ) -> Result<RewriteStatus, NoAnswer> {
        each_board_can_be_fitted();
        a_carried_text_plays_as_its_program_with_base_padding();
        match read_words(words) {
            Ok(named) => answer_request(alloc, named, shelf, lines),
            Err(n) => {
                put_usage(lines, n)?;
                Ok(RewriteStatus::Usage(n))
            }
        }
    }

    ghost leaves_at_write_fault = { λ words contents before after ending left. left };

    ghost answers_are_no_faults = { λ words contents text ending answer. no_fault_codes ending };
}
