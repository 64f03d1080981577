//! Laws of the definitions.
ghost use Rattle.std.specs.Prelude.{◌≡◌, ◌⊎◌, ℕ, List, Option, Some};
ghost use Rattle.counting_tests.specs.declared.status.CountStatus.{CountStatus};
ghost use Rattle.counting_tests.specs.Words.{NamesBoard, NamesNone};
ghost use Rattle.counting_tests.specs.Answers.{WordsAnswer};

use board_text::laws::every_text_is_a_board_or_has_a_fault;

/// All words name one file, or none.
pub fn words_name_a_file_or_none()
    ensures each { (words : List (List ℕ)) → ((path : List ℕ) × NamesBoard words path) ⊎ NamesNone words }
    ensures one_file { (words : List (List ℕ)) (a b : List ℕ) → NamesBoard words a → NamesBoard words b → a ≡ b }
{}

/// The words and the bytes of their file have at most one answer.
pub fn one_answer()
    ensures { (held : Option (List ℕ)) (words : List (List ℕ)) (a b : List ℕ) (s t : CountStatus) →
        WordsAnswer held words a s → WordsAnswer held words b t → (a ≡ b) × (s ≡ t) }
{}

/// Words have an answer, whatever the file holds that they name.
pub fn words_are_answered()
    ensures { (words : List (List ℕ)) (bytes : List ℕ) →
        (text : List ℕ) × (status : CountStatus) × WordsAnswer (Some bytes) words text status }
{
    every_text_is_a_board_or_has_a_fault();
}
