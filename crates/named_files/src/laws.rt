//! Laws of the definitions.
ghost use Rattle.std.specs.Prelude.{◌≡◌, ◌⊎◌, ℕ, List};
ghost use Rattle.named_files.specs.Words.{FileNames, IsRequest, IsUsage};

/// The words are a request, or have exactly one first word that is not as stated, whatever the key is.
pub fn words_are_a_request_or_have_a_usage()
    ensures some { (key : List ℕ) (words : List (List ℕ)) →
        ((named : FileNames) × IsRequest key words named) ⊎ ((n : ℕ) × IsUsage key words n) }
    ensures one_request { (key : List ℕ) (words : List (List ℕ)) (a b : FileNames) →
        IsRequest key words a → IsRequest key words b → a ≡ b }
    ensures one_usage { (key : List ℕ) (words : List (List ℕ)) (n m : ℕ) →
        IsUsage key words n → IsUsage key words m → n ≡ m }
    ensures not_both { (key : List ℕ) (words : List (List ℕ)) (named : FileNames) (n : ℕ) →
        IsRequest key words named → IsUsage key words n → ⊥ }
{}
