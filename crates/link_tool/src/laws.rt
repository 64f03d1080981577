//! Laws of the definitions.
ghost use Rattle.std.specs.Prelude.{◌≡◌, ℕ, List, Some, IsSome};
ghost use Rattle.link_tool.specs.declared.status.LinkStatus.{LinkStatus};
ghost use Rattle.link_tool.specs.Statuses.{IsFault};
ghost use Rattle.link_tool.specs.Sessions.{EndsWith};
ghost use Rattle.named_files.specs.Words.{FileNames};
ghost use Rattle.named_files.specs.Contents.{Contents, OfWords};
ghost use Rattle.link_tool.specs.Answers.{link_key, RequestAnswer, WordsAnswer, Answer};

use board_text::laws::every_text_is_a_board_or_has_a_fault;

/// The session of any bytes ends in exactly one way.
pub fn each_session_has_one_end()
    ensures some { (bytes : List ℕ) → (status : LinkStatus) × EndsWith bytes status }
    ensures one { (bytes : List ℕ) (s t : LinkStatus) → EndsWith bytes s → EndsWith bytes t → s ≡ t }
{}

/// The words and the files have at most one answer.
pub fn one_answer()
    ensures { (words : List (List ℕ)) (files : List (List ℕ × List ℕ)) (a b : List ℕ) (s t : LinkStatus) →
        Answer words files a s → Answer words files b t → (a ≡ b) × (s ≡ t) }
{}

/// A request whose files are held has an answer, whatever they hold.
pub fn requests_are_answered()
    ensures { (contents : Contents) → IsSome contents.board → IsSome contents.file →
        (text : List ℕ) × (status : LinkStatus) × RequestAnswer contents text status }
{
    every_text_is_a_board_or_has_a_fault();
}

/// The status of an answer is that of no fault.
pub fn answers_are_no_faults()
    ensures { (words : List (List ℕ)) (contents_of : FileNames → Contents) (text : List ℕ) (status : LinkStatus) →
        WordsAnswer words contents_of text status → IsFault status → ⊥ }
{}

/// With a store that tells its files, the answer for the contents that were read is that for its files.
pub fn told_files_are_answered()
    ensures { (words : List (List ℕ)) (files : List (List ℕ × List ℕ)) (text : List ℕ) (status : LinkStatus) →
        OfWords link_key (Some files) words (λ contents. WordsAnswer words (λ named. contents) text status) →
        Answer words files text status }
{}
