//! The tool.
ghost use Rattle.std.specs.Prelude.{◌≡◌, map, string_bytes};
ghost use Rattle.tool_io.specs.Lines.{IsWhole};
ghost use Rattle.tool_frame.specs.Files.{OfFiles, KeepsShelf};
ghost use Rattle.tool_frame.specs.Frame.{SaysAndLeaves};
ghost use Rattle.chain_sim.specs.Rack.{IsRack};
ghost use Rattle.play_words.specs.Codes.{exit_code_of};
ghost use Rattle.scans_tool.specs.declared.help.TheConstants.{HELP, VERSION};
ghost use Rattle.scans_tool.specs.Words.{NamesFiles, IsReachedBy};
ghost use Rattle.scans_tool.specs.Answers.{WordsAnswer};
ghost use Rattle.scans_tool.specs.NoFaults.{no_fault_codes};

use crate::answering::answer_play;
use crate::help;
use crate::words::read_play;
use dev_card::Device;
use named_files::put_usage;
use play_words::{Status, WordsRefused};
use std::alloc::Global;
use tool_frame::{NoAnswer, Tool};
use tool_io::{Lines, Shelf, Sink};

/// Plays a program with an account. The words are those of a play by the tool, after the word `play`, without
/// `pins=yes` and `report=yes`. Each run of shift clocks has a line, before what else its turn writes, and the sums of
/// all turns stand before the line of the ending. All other lines are those of a play, and so is what is refused. The
/// devices of the rack are fitted anew for the play, and each keeps its kind.
///
/// All memory is taken before the first byte is put.
pub struct ScansPlay;

impl Tool for ScansPlay {
    type Ending = Status;

    type Loan = Vec<Box<dyn Device>>;

    ghost ready = { λ rack. IsRack (map (λ b. (Device-box b).kind_of b.value) rack.items) };

    ghost names = { λ words. NamesFiles words };

    ghost reached = { λ told words. IsReachedBy told words };

    ghost answers = { λ words contents. WordsAnswer words contents };

    ghost leaves = { λ words contents before after result. map (λ b. (Device-box b).kind_of b.value) after.items
        ≡ map (λ b. (Device-box b).kind_of b.value) before.items };

    ghost exit_code_of = { exit_code_of };

    ghost help_text = { HELP.now };

    ghost version_text = { VERSION.now };

    fn help(&self) -> &'static [u8]
        ensures { result.now ≡ HELP.now }
    {
        help::HELP
    }

    fn version(&self) -> &'static [u8]
        ensures { result.now ≡ VERSION.now }
    {
        help::VERSION
    }

    fn exit_code(&self, ending: Status) -> u8
        ensures { result ≡ exit_code_of ending }
    {
        ending.exit_code()
    }

    fn answer<S: Shelf, K: Sink>(
        &self,
        alloc: Global,
        words: &[String],
        shelf: &mut S,
        rack: &mut Vec<Box<dyn Device>>,
        lines: &mut Lines<K>,
    ) -> Result<Status, NoAnswer> {
        match read_play(alloc, words) {
            Ok(play) => answer_play(alloc, &play, shelf, rack, lines),
            Err(WordsRefused::Usage(n)) => {
                put_usage(lines, n)?;
                Ok(Status::Usage(n))
            }
            Err(WordsRefused::Memory) => Err(NoAnswer::Memory),
        }
    }

    ghost leaves_at_write_fault = { λ words contents before after ending left. left };

    ghost answers_are_no_faults = { λ words contents text ending answer. no_fault_codes answer };
}
