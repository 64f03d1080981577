//! Laws of the definitions.
ghost use Rattle.std.specs.Prelude.{◌≡◌, ◌≤◌, ◌⊎◌, ℕ, List, Some};
ghost use Rattle.command_words.specs.declared.place_run.PlaceRun.{PlaceRun};
ghost use Rattle.play_words.specs.declared.requests.Request.{Request};
ghost use Rattle.play_words.specs.declared.requests.FilePlay.{FilePlay};
ghost use Rattle.command_words.specs.KeyedWords.{most_place};
ghost use Rattle.play_words.specs.Words.{file_play_of, IsRequest, IsUsage};

/// Words are one request at most.
pub fn one_request()
    ensures { (words : List (List ℕ)) (a b : Request) → IsRequest words a → IsRequest words b → a ≡ b }
{}

/// Words have one usage number at most.
pub fn one_usage()
    ensures { (words : List (List ℕ)) (m n : ℕ) → IsUsage words m → IsUsage words n → m ≡ n }
{}

/// Words that are a request have no usage number.
pub fn no_request_has_a_usage()
    ensures { (words : List (List ℕ)) (request : Request) (n : ℕ) → IsRequest words request → IsUsage words n → ⊥ }
{}

/// The run of places that words name is in order, from 1 on. So a board lacks it exactly if its last place is above the
/// number of devices.
pub fn a_named_run_is_in_order()
    ensures { (words : List (List ℕ)) (request : Request) (play : FilePlay) (run : PlaceRun) →
        IsRequest words request → file_play_of request ≡ Some play → play.request.place ≡ Some run →
        (1 ≤ run.first) × (run.first ≤ run.last) × (run.last ≤ most_place) }
{}

/// Each list of words is a request, or has a usage number.
pub fn words_are_a_request_or_have_a_usage()
    ensures { (words : List (List ℕ)) → ((request : Request) × IsRequest words request)
        ⊎ ((n : ℕ) × IsUsage words n) }
{}
