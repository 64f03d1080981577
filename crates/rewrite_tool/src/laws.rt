//! Laws of the definitions.
ghost use Rattle.std.specs.Prelude.{◌≡◌, ◌⊎◌, ℕ, List, Some, IsSome};
ghost use Rattle.dev_card.specs.declared.desc.Desc.{Desc};
ghost use Rattle.board_text.specs.Boards.{IsBoard};
ghost use Rattle.command_words.specs.declared.place_run.PlaceRun.{PlaceRun};
ghost use Rattle.tool_frame.specs.Files.{OfFiles};
ghost use Rattle.named_files.specs.Contents.{Contents, NamesBoth, both_of};
ghost use Rattle.rewrite_tool.specs.declared.status.RewriteStatus.{RewriteStatus};
ghost use Rattle.rewrite_tool.specs.declared.status.RewriteStatus.TheVariants.{Done};
ghost use Rattle.rewrite_tool.specs.Words.{Request, IsRequest, Asks, IsUsage};
ghost use Rattle.rewrite_tool.specs.Answers.{ProgramAnswer, RequestAnswer, WordsAnswer, Answer};
ghost use Rattle.rewrite_tool.specs.PlayedAlike.{IsPlayedAlike};

use board_text::laws::{each_board_can_be_fitted, every_text_is_a_board_or_has_a_fault};
use carried_padding::laws::a_carried_text_plays_as_its_program_with_base_padding;

/// The words are a request, or have exactly one first word that is not as stated.
pub fn words_are_a_request_or_have_a_usage()
    ensures some { (words : List (List ℕ)) →
        ((request : Request) × IsRequest words request) ⊎ ((n : ℕ) × IsUsage words n) }
    ensures one_request { (words : List (List ℕ)) (a b : Request) → IsRequest words a → IsRequest words b → a ≡ b }
    ensures one_usage { (words : List (List ℕ)) (n m : ℕ) → IsUsage words n → IsUsage words m → n ≡ m }
    ensures not_both { (words : List (List ℕ)) (request : Request) (n : ℕ) →
        IsRequest words request → IsUsage words n → ⊥ }
{}

/// The words and the files have at most one answer.
pub fn one_answer()
    ensures { (words : List (List ℕ)) (files : List (List ℕ × List ℕ)) (a b : List ℕ) (s t : RewriteStatus) →
        Answer words files a s → Answer words files b t → (a ≡ b) × (s ≡ t) }
{}

/// A request whose files are held has an answer, whatever they hold.
pub fn requests_are_answered()
    ensures { (request : Request) (contents : Contents) → IsSome contents.board → IsSome contents.file →
        (text : List ℕ) × (status : RewriteStatus) × RequestAnswer request contents text status }
{
    every_text_is_a_board_or_has_a_fault();
}

/// With a store that tells its files, the answer for the contents that were read is that for its files.
pub fn told_files_are_answered()
    ensures { (words : List (List ℕ)) (files : List (List ℕ × List ℕ)) (text : List ℕ) (status : RewriteStatus) →
        OfFiles (NamesBoth (Asks words)) (Some files) (λ contents.
        WordsAnswer words (λ request. both_of contents) text status) → Answer words files text status }
{}

/// A program that is written plays on the whole board, without base padding and for five turns more, as the program of
/// the file does at the run: it has the same events, clocks among them, outcome, variables and board, for every choice
/// and number of turns.
pub fn what_is_written_plays_as_the_program_at_its_place()
    ensures { (board : List ℕ) (devices : List Desc) (run : PlaceRun) (bytes text : List ℕ) →
        IsBoard board devices → ProgramAnswer devices run bytes text Done →
        IsPlayedAlike devices run bytes text }
{
    each_board_can_be_fitted();
    a_carried_text_plays_as_its_program_with_base_padding();
}
