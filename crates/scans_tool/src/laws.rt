//! Laws of the definitions.
ghost use Rattle.std.specs.Prelude.{◌≡◌, ◌⊎◌, ℕ, false, List, Option};
ghost use Rattle.play_words.specs.declared.requests.FilePlay.{FilePlay};
ghost use Rattle.play_words.specs.declared.requests.Request.TheVariants as requests;
ghost use Rattle.play_words.specs.declared.status.Status.{Status};
ghost use Rattle.play_words.specs.Words.{IsRequest};
ghost use Rattle.play_tool.specs.Held.{ArePlayFilesHeld};
ghost use Rattle.scans_tool.specs.Words.{play_words, AskFor, HasUsage};
ghost use Rattle.scans_tool.specs.Answers.{WordsAnswer};

use board_text::laws::every_text_is_a_board_or_has_a_fault;
use stapl_checker::laws::each_text_is_a_program_or_has_a_fault;
use stapl_code::laws::never_stuck;
use stapl_codegen::laws::{accepted_code_is_valid, programs_are_accepted};
use stapl_lexer::laws::every_text_has_pieces;
use stapl_meaning::laws::programs_are_typed;

/// All words ask for one play, or they are refused at one word, and never both.
pub fn words_ask_for_a_play_or_are_refused()
    ensures each { (words : List (List ℕ)) → ((play : FilePlay) × AskFor words play) ⊎ ((n : ℕ) × HasUsage words n) }
    ensures one_play { (words : List (List ℕ)) (a b : FilePlay) → AskFor words a → AskFor words b → a ≡ b }
    ensures one_word { (words : List (List ℕ)) (n m : ℕ) → HasUsage words n → HasUsage words m → n ≡ m }
    ensures not_both { (words : List (List ℕ)) (n : ℕ) (play : FilePlay) → HasUsage words n → AskFor words play → ⊥ }
{}

/// What the words ask for is what they ask of the tool that plays, after the word `play`, and it has neither the clocks
/// nor the report. Each such play of that tool is asked for by its words after the word `play`.
pub fn words_ask_for_a_play_of_the_tool()
    ensures played { (words : List (List ℕ)) (play : FilePlay) → AskFor words play →
        IsRequest (play_words words) (requests.Play play) }
    ensures no_pins { (words : List (List ℕ)) (play : FilePlay) → AskFor words play → play.request.pins ≡ false }
    ensures no_report { (words : List (List ℕ)) (play : FilePlay) → AskFor words play → play.request.report ≡ false }
    ensures asked { (words : List (List ℕ)) (play : FilePlay) → IsRequest (play_words words) (requests.Play play) →
        play.request.pins ≡ false → play.request.report ≡ false → AskFor words play }
{}

/// The words and the contents of their files have at most one answer.
pub fn one_answer()
    ensures { (words : List (List ℕ)) (contents : List (Option (List ℕ))) (a b : List ℕ) (s t : Status) →
        WordsAnswer words contents a s → WordsAnswer words contents b t → (a ≡ b) × (s ≡ t) }
{}

/// Words have an answer, whatever the files hold that they name.
pub fn words_are_answered()
    ensures { (words : List (List ℕ)) (contents : List (Option (List ℕ))) → ArePlayFilesHeld contents →
        (text : List ℕ) × (status : Status) × WordsAnswer words contents text status }
{
    every_text_is_a_board_or_has_a_fault();
    each_text_is_a_program_or_has_a_fault();
    every_text_has_pieces();
    programs_are_typed();
    programs_are_accepted();
    accepted_code_is_valid();
    never_stuck();
}
