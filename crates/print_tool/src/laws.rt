//! Laws of the definitions.
ghost use Rattle.std.specs.Prelude.{◌≡◌, ◌↔◌, ◌⊎◌, ℕ, List, Option, Some, map};
ghost use Rattle.stapl_syntax.specs.Trees.{StmtTree};
ghost use Rattle.stapl_syntax.specs.Programs.{IsProgram};
ghost use Rattle.canonical_text.specs.CanonicalText.{plain};
ghost use Rattle.print_tool.specs.declared.status.PrintStatus.{PrintStatus};
ghost use Rattle.print_tool.specs.declared.status.PrintStatus.TheVariants.{Done};
ghost use Rattle.print_tool.specs.Words.{NamesProgram, HasUsage};
ghost use Rattle.print_tool.specs.Answers.{TextAnswer, WordsAnswer};
ghost use Rattle.print_tool.specs.Canonical.{IsCanonicalOf};

/// All words name one file, or they are refused at one word, and never both.
pub fn words_name_a_file_or_are_refused()
    ensures each { (words : List (List ℕ)) →
        ((path : List ℕ) × NamesProgram words path) ⊎ ((n : ℕ) × HasUsage words n) }
    ensures one_file { (words : List (List ℕ)) (a b : List ℕ) → NamesProgram words a → NamesProgram words b → a ≡ b }
    ensures one_word { (words : List (List ℕ)) (n m : ℕ) → HasUsage words n → HasUsage words m → n ≡ m }
    ensures not_both { (words : List (List ℕ)) (n : ℕ) (path : List ℕ) → HasUsage words n →
        NamesProgram words path → ⊥ }
{}

/// The words and the bytes of their file have at most one answer.
pub fn one_answer()
    ensures { (held : Option (List ℕ)) (words : List (List ℕ)) (a b : List ℕ) (s t : PrintStatus) →
        WordsAnswer held words a s → WordsAnswer held words b t → (a ≡ b) × (s ≡ t) }
{}

/// Words have an answer, whatever the file holds that they name.
pub fn words_are_answered()
    ensures { (words : List (List ℕ)) (bytes : List ℕ) →
        (text : List ℕ) × (status : PrintStatus) × WordsAnswer (Some bytes) words text status }
{}

/// A text that is printed is a program of the same statements, with the values of CRC left out; it is its own canonical
/// text; and the check of it finds its CRC good, if it has one.
pub fn what_is_printed_is_the_same_program()
    ensures { (bytes text : List ℕ) → TextAnswer bytes text Done → IsCanonicalOf bytes text }
{}

/// What is printed is printed again as it is.
pub fn printing_again_changes_nothing()
    ensures { (bytes text again : List ℕ) (status : PrintStatus) → TextAnswer bytes text Done →
        TextAnswer text again status → (again ≡ text) × (status ≡ Done) }
{}

/// Two programs are printed alike exactly if their statements are equal with the values of CRC left out.
pub fn equal_texts_are_equal_programs()
    ensures { (a b text other : List ℕ) (program same : List StmtTree) → TextAnswer a text Done →
        TextAnswer b other Done → IsProgram a program → IsProgram b same →
        (text ≡ other) ↔ (map plain program ≡ map plain same) }
{}
