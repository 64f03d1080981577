//! The tool.
ghost use Rattle.std.specs.Prelude.{◌≡◌, map, string_bytes};
ghost use Rattle.tool_io.specs.Lines.{IsWhole};
ghost use Rattle.tool_frame.specs.Files.{OfFiles, KeepsShelf};
ghost use Rattle.tool_frame.specs.Frame.{SaysAndLeaves};
ghost use Rattle.chain_sim.specs.Rack.{IsRack};
ghost use Rattle.named_files.specs.Words.{IsRequest};
ghost use Rattle.named_files.specs.Contents.{NamesBoth, both_of, IsReachedBy};
ghost use Rattle.trace_tool.specs.declared.help.TheConstants.{HELP, VERSION};
ghost use Rattle.trace_tool.specs.Statuses.{exit_code_of, no_fault_codes};
ghost use Rattle.trace_tool.specs.Answers.{trace_key, WordsAnswer};
ghost use Rattle.trace_tool.specs.FinalRacks.{WordsHoldLed, LeavesRack, left_at_write_fault};

use crate::answering::answer_request;
use crate::{TraceStatus, help};
use dev_card::Device;
use named_files::{put_usage, read_words};
use std::alloc::Global;
use tool_frame::{NoAnswer, Tool};
use tool_io::{Lines, Shelf, Sink};

/// Compares a trace with a board: the words are `board=PATH` and `trace=PATH`, in this order. What is lent is a rack.
///
/// It reads the board first, and then the trace. If the board is right and the trace not too long, the board is fitted
/// into the rack, its devices in order, and the lines of the trace are checked; if none is bad, the board is clocked by
/// TMS and TDI of its digits, as far as it answers with their TDO. The devices are then as these clocks leave them:
/// device i of the board, counted from 0, is at the place of its kind among the three places from 3 * i on.
///
/// The rack stays as it was if the words or the board are refused, if the trace is too long, and at a read fault. In
/// any case each of its devices keeps its kind.
///
/// All memory is taken before the first byte is put.
pub struct Tracer;

impl Tool for Tracer {
    type Ending = TraceStatus;

    type Loan = Vec<Box<dyn Device>>;

    ghost ready = { λ rack. IsRack (map (λ b. (Device-box b).kind_of b.value) rack.items) };

    ghost names = { λ words. NamesBoth (IsRequest trace_key words) };

    ghost reached = { λ told words. IsReachedBy trace_key told words };

    ghost answers = { λ words contents. WordsAnswer words (λ named. both_of contents) };

    ghost leaves = { λ words contents before after result. LeavesRack (λ b. (Device-box b).kind_of b.value)
        (λ b. (Device-box b).fitted b.value) (WordsHoldLed words (both_of contents)) before.items after.items result };

    ghost exit_code_of = { exit_code_of };

    ghost help_text = { HELP.now };

    ghost version_text = { VERSION.now };

    fn help(&self) -> &'static [u8]
        ensures { result.now ≡ HELP.now }
    {
        help::HELP
    }

    fn version(&self) -> &'static [u8]
        ensures { result.now ≡ VERSION.now }
    {
        help::VERSION
    }

    fn exit_code(&self, ending: TraceStatus) -> u8
        ensures { result ≡ exit_code_of ending }
    {
        ending.exit_code()
    }

    fn answer<S: Shelf, K: Sink>(
        &self,
        alloc: Global,
        words: &[String],
        shelf: &mut S,
        rack: &mut Vec<Box<dyn Device>>,
        lines: &mut Lines<K>,
    ) -> Result<TraceStatus, NoAnswer> {
        match read_words(words, "trace=") {
            Ok(named) => answer_request(alloc, named, shelf, rack, lines),
            Err(n) => {
                put_usage(lines, n)?;
                Ok(TraceStatus::Usage(n))
            }
        }
    }

    ghost leaves_at_write_fault = { λ words contents before after ending left. left_at_write_fault left };

    ghost answers_are_no_faults = { λ words contents text ending answer. no_fault_codes ending };
}
