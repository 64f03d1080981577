//! The tool.
ghost use Rattle.std.specs.Prelude.{◌≡◌, map, string_bytes};
ghost use Rattle.tool_io.specs.Lines.{IsWhole};
ghost use Rattle.tool_frame.specs.Files.{OfFiles, KeepsShelf};
ghost use Rattle.tool_frame.specs.Frame.{SaysAndLeaves};
ghost use Rattle.chain_sim.specs.Rack.{IsRack};
ghost use Rattle.quiet_tool.specs.declared.help.TheConstants.{HELP, VERSION};
ghost use Rattle.quiet_tool.specs.Statuses.{exit_code_of, no_fault_codes};
ghost use Rattle.quiet_tool.specs.Words.{NamesFiles, IsReachedBy};
ghost use Rattle.quiet_tool.specs.Elsewhere.{PromisedAnswer};

use crate::answering::answer_question;
use crate::words::read_question;
use crate::{QuietStatus, help};
use dev_card::Device;
use named_files::put_usage;
use play_words::WordsRefused;
use std::alloc::Global;
use tool_frame::{NoAnswer, Tool};
use tool_io::{Lines, Shelf, Sink};

/// Says whether the play that the words ask for is quiet on its devices alone: those of the place that they name, or
/// all of the board. They are the words of a play by the tool, after the word `play`. If the play is quiet for its
/// turns, a line says for how many, and one how it ends; else a line names the first deed that is not quiet. What is
/// refused is told as by a play. If the words name no action, the same is said of the play of each action of the
/// program, in the order of its text, after the name of the action. The devices of the rack are fitted anew for each
/// play that is made, and each keeps its kind.
///
/// All memory is taken before the first byte is put. There is none, too, if a scan has 2 ^ 64 bits or more.
pub struct QuietJudge;

impl Tool for QuietJudge {
    type Ending = QuietStatus;

    type Loan = Vec<Box<dyn Device>>;

    ghost ready = { λ rack. IsRack (map (λ b. (Device-box b).kind_of b.value) rack.items) };

    ghost names = { λ words. NamesFiles words };

    ghost reached = { λ told words. IsReachedBy told words };

    ghost answers = { λ words contents. PromisedAnswer words contents };

    ghost leaves = { λ words contents before after result. map (λ b. (Device-box b).kind_of b.value) after.items
        ≡ map (λ b. (Device-box b).kind_of b.value) before.items };

    ghost exit_code_of = { exit_code_of };

    ghost help_text = { HELP.now };

    ghost version_text = { VERSION.now };

    fn help(&self) -> &'static [u8]
        ensures { result.now ≡ HELP.now }
    {
        help::HELP
    }

    fn version(&self) -> &'static [u8]
        ensures { result.now ≡ VERSION.now }
    {
        help::VERSION
    }

    fn exit_code(&self, ending: QuietStatus) -> u8
        ensures { result ≡ exit_code_of ending }
    {
        ending.exit_code()
    }

    fn answer<S: Shelf, K: Sink>(
        &self,
        alloc: Global,
        words: &[String],
        shelf: &mut S,
        rack: &mut Vec<Box<dyn Device>>,
        lines: &mut Lines<K>,
    ) -> Result<QuietStatus, NoAnswer> {
        match read_question(alloc, words) {
            Ok(question) => answer_question(alloc, &question, shelf, rack, lines),
            Err(WordsRefused::Usage(n)) => {
                put_usage(lines, n)?;
                Ok(QuietStatus::Usage(n))
            }
            Err(WordsRefused::Memory) => Err(NoAnswer::Memory),
        }
    }

    ghost leaves_at_write_fault = { λ words contents before after ending left. left };

    ghost answers_are_no_faults = { λ words contents text ending answer. no_fault_codes ending };
}
