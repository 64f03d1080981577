//! What a command does with its words.
ghost use Rattle.std.specs.Prelude.{◌≡◌, true, ℕ, List, ◌∷◌, codes, map, string_bytes};
ghost use Rattle.tool_frame.specs.Answers.{Wrote};
ghost use Rattle.chain_sim.specs.Rack.{IsRack};
ghost use Rattle.tool_frame.specs.Files.{OfFiles, NamesOne, first_of};
ghost use Rattle.play_words.specs.Statuses.{IsFault};
ghost use Rattle.play_tool.specs.Answers.{WordsAnswer};
ghost use Rattle.play_tool.specs.ReadContents.{OfWords, IsReachedBy, Answered};
ghost use Rattle.play_tool.specs.TopCalls.{HasFailedRead, HasFailedWrite, KeepsOutside, KeepsDevices};
ghost use Rattle.tool_questions.specs.Questions.{ask_question, QuestionAnswer, IsAskedOf};
ghost use Rattle.why_tool.specs.Whys.{IsUnread, WhyAnswer};
ghost use Rattle.tool_command.specs.Commands.{CommandAnswer, IsReachedByCommand, NamesByCommand, HasCommandFront};
ghost use Rattle.tool_command.specs.Commands.{MayPlay, are_of_tool, status_of};

use dev_card::Device;
use play_tool::run_tool;
use play_words::{HELP, Status, VERSION};
use std::alloc::Global;
use tool_frame::{NoAnswer, run, text_asked, write_text};
use tool_io::{Shelf, Sink};
use tool_questions::{Questioner, ask_question, words_after};
use why_tool::run_why;

// The status of a run.
fn status_of(ended: Result<Status, NoAnswer>) -> Status
    ensures { result ≡ status_of ended }
{
    match ended {
        Ok(status) => status,
        Err(NoAnswer::Read) => Status::ReadFault,
        Err(NoAnswer::Write) => Status::WriteFault,
        Err(NoAnswer::Memory) => Status::Memory,
    }
}

/// Writes the text that the words ask for, or does what they ask of the tool, with the devices of the rack; or, of words
/// after `--why`, says why their command does not do what was asked. All that it says goes to the sink.
pub fn run_command<S: Shelf, K: Sink>(
    alloc: Global,
    words: &[String],
    shelf: &mut S,
    rack: &mut Vec<Box<dyn Device>>,
    out: &mut K,
) -> Status
    requires { IsRack (map kind_of rack.old.items) }

    // Every status but those of faults and of want of memory is the answer's to the words and the contents of their
    // files, as they were read in this call; its text is written and nothing else, and the rack holds what the play
    // leaves. With a store that tells its files the contents are what it holds. The same of a question, and of the file
    // that it names.
    ensures answer { (IsFault result → ⊥) → are_of_tool (map string_bytes words.now) ≡ true →
        OfWords (S.told shelf.old) (map string_bytes words.now) (λ contents.
        Answered (CommandAnswer (WordsAnswer (map string_bytes words.now) (λ request. contents))
        (map string_bytes words.now)) (map string_bytes words.now) contents (K.written out.old) (K.written out.new)
        result (map fitted rack.new.items)) }
    ensures question { (IsFault result → ⊥) → ask_question (map string_bytes words.now) ≡ true →
        OfFiles (NamesOne (IsAskedOf (map string_bytes words.now))) (S.told shelf.old) (λ contents.
        Wrote (QuestionAnswer (first_of contents) (map string_bytes words.now)) (K.written out.old) (K.written out.new)
        result) }

    // The same of words after `--why`: what is said of their command by its answer, or which of its files cannot be
    // read. That one is reached: a file of the command that it reads, and its count rose.
    ensures why { (IsFault result → ⊥) → (rest : List (List ℕ)) → map string_bytes words.now ≡ codes "--why" ∷ rest →
        OfWords (S.told shelf.old) rest (λ contents. Wrote
        (WhyAnswer (IsUnread S.Shelf (IsReachedBy (S.told shelf.old) rest) shelf.old shelf.new) rest contents)
        (K.written out.old) (K.written out.new) result) }

    // A read fault comes only where the count of a file that the words name rose, of the program only if no told board
    // is refused, and then nothing is written.
    ensures read { result ≡ Status.ReadFault → HasFailedRead S.Shelf K.Sink
        (IsReachedByCommand (S.told shelf.old) (map string_bytes words.now)) shelf.old shelf.new out.old out.new }

    // A write fault comes only where the sink's count rose, and then a prefix of the text is written, of the answer or
    // of that to a question.
    ensures write { result ≡ Status.WriteFault → HasFailedWrite K.Sink out.old out.new
        (HasCommandFront (S.told shelf.old)
        (λ rest. IsUnread S.Shelf (IsReachedBy (S.told shelf.old) rest) shelf.old shelf.new)
        (map string_bytes words.now) (K.written out.old) (K.written out.new)) }

    // After want of memory nothing is written.
    ensures memory { result ≡ Status.Memory → K.written out.new ≡ K.written out.old }

    // Whatever is answered, only files that the words name are opened, each at most once, and the board of a play
    // first. The files stay, and no count falls.
    ensures kept { KeepsOutside S.Shelf K.Sink (NamesByCommand (map string_bytes words.now))
        shelf.old shelf.new out.old out.new }

    // The rack stays as it was, if the cause of the status comes before the board is fitted, and if no play is asked
    // for, nor why a command does not do what was asked. In any case each of its devices keeps its kind.
    ensures rack { KeepsDevices kind_of (MayPlay (map string_bytes words.now)) result
        rack.old.items rack.new.items }
{
    if ask_question(words) {
        return status_of(run(&Questioner, alloc, words, shelf, &mut (), out));
    }
    if let Some(rest) = words_after("--why", words) {
        return status_of(run_why(alloc, rest, shelf, rack, out));
    }
    match text_asked(words, HELP, VERSION) {
        Some(text) => match write_text(out, text) {
            Ok(()) => Status::Done(0),
            Err(_) => Status::WriteFault,
        },
        None => run_tool(alloc, words, shelf, rack, out),
    }
}
