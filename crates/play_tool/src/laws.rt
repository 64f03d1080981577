//! Laws of the definitions.
ghost use Rattle.std.specs.Prelude.{◌≡◌, ℕ, List, Option, Some};
ghost use Rattle.play_words.specs.declared.requests.Request.{Request};
ghost use Rattle.play_words.specs.declared.status.Status.{Status};
ghost use Rattle.play_words.specs.Statuses.{IsFault};
ghost use Rattle.play_tool.specs.Answers.{Answer, RequestAnswer, WordsAnswer};
ghost use Rattle.play_tool.specs.Alone.{IsQuietAlone, PlaysAlone};
ghost use Rattle.play_tool.specs.Compiled.{RunsCompiled, PlaysProgram};
ghost use Rattle.play_tool.specs.ReadContents.{OfWords};
ghost use Rattle.play_tool.specs.Held.{AreHeld};

use board_text::laws::every_text_is_a_board_or_has_a_fault;
use code_files::laws::bytes_are_a_file_or_have_a_fault;
use program_reports::laws::each_program_has_a_check_text;
use stapl_checker::laws::each_text_is_a_program_or_has_a_fault;
use stapl_code::laws::never_stuck;
use stapl_codegen::laws::{
    accepted_code_is_valid, codes_of_programs_fit, files_are_short, programs_are_accepted,
};
use stapl_meaning::laws::programs_are_typed;

/// The words and the files have at most one answer.
pub fn one_answer()
    ensures { (words : List (List ℕ)) (files : List (List ℕ × List ℕ)) (a b : List ℕ) (s t : Status) →
        Answer words files a s → Answer words files b t → (a ≡ b) × (s ≡ t) }
{}

/// A request whose files are held has an answer, whatever they hold.
pub fn requests_are_answered()
    ensures { (request : Request) (contents : List (Option (List ℕ))) → AreHeld request contents →
        (text : List ℕ) × (status : Status) × RequestAnswer request contents text status }
{
    every_text_is_a_board_or_has_a_fault();
    each_text_is_a_program_or_has_a_fault();
    bytes_are_a_file_or_have_a_fault();
    each_program_has_a_check_text();
    programs_are_typed();
    programs_are_accepted();
    accepted_code_is_valid();
    files_are_short();
    codes_of_programs_fit();
    never_stuck();
}

/// The status of an answer is that of no fault.
pub fn answers_are_no_faults()
    ensures { (words : List (List ℕ)) (contents_of : Request → List (Option (List ℕ))) (text : List ℕ) (status : Status) →
        WordsAnswer words contents_of text status → IsFault status → ⊥ }
{}

/// With a store that tells its files, the answer for the contents that were read is that for its files.
pub fn told_files_are_answered()
    ensures { (words : List (List ℕ)) (files : List (List ℕ × List ℕ)) (text : List ℕ) (status : Status) →
        OfWords (Some files) words (λ contents. WordsAnswer words (λ request. contents) text status) →
        Answer words files text status }
{}

/// What is answered to a play for a run of devices of a board, without the clocks, is what is answered to the play on
/// that run alone, if this is quiet for all its turns: the text, which has the report of these devices in order, and the
/// status.
pub fn quiet_plays_are_as_alone()
    ensures { (words : List (List ℕ)) (contents_of : Request → List (Option (List ℕ))) (q : IsQuietAlone words contents_of)
        (text : List ℕ) (status : Status) → WordsAnswer words contents_of text status → PlaysAlone q text status }
{}

/// What is answered to a play of a code that a program was compiled to is what is answered to the play of the program.
pub fn compiled_programs_play_as_programs()
    ensures { (words : List (List ℕ)) (contents_of : Request → List (Option (List ℕ))) (q : RunsCompiled words contents_of)
        (text : List ℕ) (status : Status) → WordsAnswer words contents_of text status → PlaysProgram q text status }
{
    programs_are_typed();
}
