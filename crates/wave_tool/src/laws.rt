//! Laws of the definitions.
ghost use Rattle.std.specs.Prelude.{◌≡◌, ◌⊎◌, ℕ, List, Option, Some};
ghost use Rattle.wave_tool.specs.declared.status.WaveStatus.{WaveStatus};
ghost use Rattle.wave_tool.specs.Words.{IsRequest, IsUsage};
ghost use Rattle.wave_tool.specs.Answers.{WordsAnswer};

/// The words are a request, or have exactly one first word that is not as stated.
pub fn words_are_a_request_or_have_a_usage()
    ensures some { (words : List (List ℕ)) →
        ((path : List ℕ) × IsRequest words path) ⊎ ((n : ℕ) × IsUsage words n) }
    ensures one_request { (words : List (List ℕ)) (a b : List ℕ) → IsRequest words a → IsRequest words b → a ≡ b }
    ensures one_usage { (words : List (List ℕ)) (n m : ℕ) → IsUsage words n → IsUsage words m → n ≡ m }
    ensures not_both { (words : List (List ℕ)) (path : List ℕ) (n : ℕ) →
        IsRequest words path → IsUsage words n → ⊥ }
{}

/// The words and the contents of their file have at most one answer.
pub fn one_answer()
    ensures { (held : Option (List ℕ)) (words : List (List ℕ)) (a b : List ℕ) (s t : WaveStatus) →
        WordsAnswer held words a s → WordsAnswer held words b t → (a ≡ b) × (s ≡ t) }
{}

/// All words have an answer, whatever the file holds that they name.
pub fn words_are_answered()
    ensures { (bytes : List ℕ) (words : List (List ℕ)) →
        (said : List ℕ) × (status : WaveStatus) × WordsAnswer (Some bytes) words said status }
{}
