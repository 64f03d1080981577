//! Laws of the definitions.
ghost use Rattle.std.specs.Prelude.{◌≡◌, ℕ, List, Some, IsSome};
ghost use Rattle.tool_frame.specs.Files.{OfFiles};
ghost use Rattle.named_files.specs.Words.{IsRequest};
ghost use Rattle.named_files.specs.Contents.{Contents, NamesBoth, both_of};
ghost use Rattle.trace_tool.specs.declared.status.TraceStatus.{TraceStatus};
ghost use Rattle.trace_tool.specs.Answers.{trace_key, RequestAnswer, WordsAnswer, Answer};

use board_text::laws::every_text_is_a_board_or_has_a_fault;

/// The words and the files have at most one answer.
pub fn one_answer()
    ensures { (words : List (List ℕ)) (files : List (List ℕ × List ℕ)) (a b : List ℕ) (s t : TraceStatus) →
        Answer words files a s → Answer words files b t → (a ≡ b) × (s ≡ t) }
{}

/// A request whose files are held has an answer, whatever they hold.
pub fn requests_are_answered()
    ensures { (contents : Contents) → IsSome contents.board → IsSome contents.file →
        (text : List ℕ) × (status : TraceStatus) × RequestAnswer contents text status }
{
    every_text_is_a_board_or_has_a_fault();
}

/// With a store that tells its files, the answer for the contents that were read is that for its files.
pub fn told_files_are_answered()
    ensures { (words : List (List ℕ)) (files : List (List ℕ × List ℕ)) (text : List ℕ) (status : TraceStatus) →
        OfFiles (NamesBoth (IsRequest trace_key words)) (Some files)
        (λ contents. WordsAnswer words (λ named. both_of contents) text status) →
        Answer words files text status }
{}
