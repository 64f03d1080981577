//! The tool.
ghost use Rattle.std.specs.Prelude.{◌≡◌, map, string_bytes};
ghost use Rattle.tool_io.specs.Lines.{IsWhole, gathered};
ghost use Rattle.tool_frame.specs.Files.{OfFiles, KeepsShelf};
ghost use Rattle.tool_frame.specs.Frame.{SaysAndLeaves};
ghost use Rattle.chain_sim.specs.Rack.{IsRack};
ghost use Rattle.play_words.specs.Codes.{exit_code_of};
ghost use Rattle.play_words.specs.declared.help.TheConstants.{HELP, VERSION};
ghost use Rattle.play_tool.specs.Answers.{WordsAnswer};
ghost use Rattle.play_tool.specs.FinalRacks.{WordsHoldFinal, AskForPlay, LeavesRack, left_at_write_fault};
ghost use Rattle.play_tool.specs.ReadContents.{NamesFiles, IsReachedBy};
ghost use Rattle.play_tool.specs.NoFaults.{no_fault_codes};

use crate::answering::answer_request;
use dev_card::Device;
use named_files::put_usage;
use play_words::{HELP, Status, VERSION, WordsRefused, read_words};
use std::alloc::Global;
use tool_frame::{NoAnswer, Tool};
use tool_io::{Lines, Shelf, Sink};

/// Does what the words ask: the mode, which is `play`, `check`, `list`, `compile`, `run` or `soak`, and after it the
/// keys that the mode takes, in any order. What is lent is a rack.
///
/// A play reads its board first, and then its program; `check`, `list` and `compile` read a program alone, and
/// `compile` writes the file of its code. `run` plays such a code in place of a program. `soak` reads nothing: it plays
/// a program on a board that are both made from a number, and tells first which these are. If both are right, the board
/// is fitted into the rack, its devices in order, and then the chosen procedures are played. If the words name a run
/// of devices, each scan is padded for the others of the board. After the play the devices are as it leaves them, and a
/// report tells what they hold, if the words ask for one; with a run, what its devices hold, in order.
///
/// The rack stays as it was if the cause of the status comes before the board is fitted, if no play is asked for, and
/// at a read fault. In any case each of its devices keeps its kind.
///
/// All memory is taken before the first byte is put.
pub struct Player;

impl Tool for Player {
    type Ending = Status;

    type Loan = Vec<Box<dyn Device>>;

    ghost ready = { λ rack. IsRack (map (λ b. (Device-box b).kind_of b.value) rack.items) };

    ghost names = { λ words. NamesFiles words };

    ghost reached = { λ told words. IsReachedBy told words };

    ghost answers = { λ words contents. WordsAnswer words (λ request. contents) };

    ghost leaves = { λ words contents before after result. LeavesRack (λ b. (Device-box b).kind_of b.value)
        (λ b. (Device-box b).fitted b.value) (AskForPlay words) (WordsHoldFinal words contents)
        before.items after.items result };

    ghost exit_code_of = { exit_code_of };

    ghost help_text = { HELP.now };

    ghost version_text = { VERSION.now };

    fn help(&self) -> &'static [u8]
        ensures { result.now ≡ HELP.now }
    {
        HELP
    }

    fn version(&self) -> &'static [u8]
        ensures { result.now ≡ VERSION.now }
    {
        VERSION
    }

    fn exit_code(&self, ending: Status) -> u8
        ensures { result ≡ exit_code_of ending }
    {
        ending.exit_code()
    }

    fn answer<S: Shelf, K: Sink>(
        &self,
        alloc: Global,
        words: &[String],
        shelf: &mut S,
        rack: &mut Vec<Box<dyn Device>>,
        lines: &mut Lines<K>,
    ) -> Result<Status, NoAnswer> {
        match read_words(alloc, words) {
            Ok(request) => answer_request(alloc, &request, shelf, rack, lines),
            Err(WordsRefused::Usage(n)) => {
                put_usage(lines, n)?;
                Ok(Status::Usage(n))
            }
            Err(WordsRefused::Memory) => Err(NoAnswer::Memory),
        }
    }

    ghost leaves_at_write_fault = { λ words contents before after ending left. left_at_write_fault left };

    ghost answers_are_no_faults = { λ words contents text ending answer. no_fault_codes answer };
}
