//! Laws of the definitions: all words have one answer, and each reason has an explanation.
ghost use Rattle.std.specs.Prelude.{◌≡◌, ℕ, List, Option, Some};
ghost use Rattle.play_words.specs.declared.status.Status.{Status};
ghost use Rattle.play_words.specs.Statuses.{IsFault};
ghost use Rattle.tool_questions.specs.Questions.{QuestionAnswer};
ghost use Rattle.stapl_lexer.specs.declared.reason.Reason.{Reason};
ghost use Rattle.stapl_meaning.specs.declared.events.RunFault.{RunFault};
ghost use Rattle.stapl_code.specs.declared.reason.CodeReason.{CodeReason};
ghost use Rattle.board_text.specs.declared.reason.BoardReason.{BoardReason};
ghost use Rattle.tool_questions.specs.Explained.{IsReasonExplained, IsBoardReasonExplained, IsCodeReasonExplained};
ghost use Rattle.tool_questions.specs.Explained.{IsFaultExplained};

/// The words and the bytes of their file have at most one answer.
pub fn one_answer()
    ensures { (held : Option (List ℕ)) (words : List (List ℕ)) (a b : List ℕ) (s t : Status) →
        QuestionAnswer held words a s → QuestionAnswer held words b t → (a ≡ b) × (s ≡ t) }
{}

/// Words have an answer, question or none, whatever the file holds that they name.
pub fn questions_are_answered()
    ensures { (bytes : List ℕ) (words : List (List ℕ)) →
        (text : List ℕ) × (status : Status) × QuestionAnswer (Some bytes) words text status }
{}

/// No answer has the status of a fault of reading or writing, or of want of memory.
pub fn answers_are_no_faults()
    ensures { (held : Option (List ℕ)) (words : List (List ℕ)) (text : List ℕ) (status : Status) →
        QuestionAnswer held words text status → IsFault status → ⊥ }
{}

/// Each reason against a program, a board or a code, and each fault of a play, has an explanation: a line of the table
/// is about its name, as the name of such a thing.
pub fn each_reason_is_explained()
    ensures programs { (reason : Reason) → IsReasonExplained reason }
    ensures boards { (reason : BoardReason) → IsBoardReasonExplained reason }
    ensures codes { (reason : CodeReason) → IsCodeReasonExplained reason }
    ensures faults { (fault : RunFault) → IsFaultExplained fault }
{}
