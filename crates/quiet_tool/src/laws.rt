//! Laws of the definitions.
ghost use Rattle.std.specs.Prelude.{◌≡◌, ◌⊎◌, ℕ, List, Option};
ghost use Rattle.play_tool.specs.Held.{ArePlayFilesHeld};
ghost use Rattle.quiet_tool.specs.declared.status.QuietStatus.{QuietStatus};
ghost use Rattle.quiet_tool.specs.declared.status.QuietStatus.TheVariants.{Quiet};
ghost use Rattle.quiet_tool.specs.declared.words.Question.{Question};
ghost use Rattle.quiet_tool.specs.Words.{Ask, HasUsage};
ghost use Rattle.quiet_tool.specs.Answers.{WordsAnswer};
ghost use Rattle.quiet_tool.specs.Elsewhere.{IsQuietEverywhere};

use board_text::laws::every_text_is_a_board_or_has_a_fault;
use stapl_checker::laws::each_text_is_a_program_or_has_a_fault;
use stapl_code::laws::never_stuck;
use stapl_codegen::laws::{accepted_code_is_valid, programs_are_accepted};
use stapl_lexer::laws::every_text_has_pieces;
use stapl_meaning::laws::programs_are_typed;

/// All words ask one question, about one play or about that of each action, or they are refused at one word, and never
/// both.
pub fn words_ask_a_question_or_are_refused()
    ensures each { (words : List (List ℕ)) →
        ((question : Question) × Ask words question) ⊎ ((n : ℕ) × HasUsage words n) }
    ensures one_question { (words : List (List ℕ)) (a b : Question) → Ask words a → Ask words b → a ≡ b }
    ensures one_word { (words : List (List ℕ)) (n m : ℕ) → HasUsage words n → HasUsage words m → n ≡ m }
    ensures not_both { (words : List (List ℕ)) (n : ℕ) (question : Question) → HasUsage words n →
        Ask words question → ⊥ }
{}

/// The words and the contents of their files have at most one answer.
pub fn one_answer()
    ensures { (words : List (List ℕ)) (contents : List (Option (List ℕ))) (a b : List ℕ) (s t : QuietStatus) →
        WordsAnswer words contents a s → WordsAnswer words contents b t → (a ≡ b) × (s ≡ t) }
{}

/// Words have an answer, whatever the files hold that they name.
pub fn words_are_answered()
    ensures { (words : List (List ℕ)) (contents : List (Option (List ℕ))) → ArePlayFilesHeld contents →
        (text : List ℕ) × (status : QuietStatus) × WordsAnswer words contents text status }
{
    every_text_is_a_board_or_has_a_fault();
    each_text_is_a_program_or_has_a_fault();
    every_text_has_pieces();
    programs_are_typed();
    programs_are_accepted();
    accepted_code_is_valid();
    never_stuck();
}

/// If the answer is that the play is quiet, or that each play is, then the tool answers a play of the same action, or of
/// any action of the program, with the same choices and turns and without the clocks, at each place of each board that
/// has these devices in a row, as the play on these devices alone: with its text, the report of these devices in order,
/// and its status.
pub fn quiet_plays_are_the_same_everywhere()
    ensures { (words : List (List ℕ)) (contents : List (Option (List ℕ))) (text : List ℕ) →
        WordsAnswer words contents text Quiet → IsQuietEverywhere words contents }
{}
