//! Laws of the definitions: each text is one program or has one first fault.
ghost use Rattle.std.specs.Prelude.{◌≡◌, ◌⊎◌, ℕ, List};
ghost use Rattle.stapl_lexer.specs.declared.reason.Reason.{Reason};
ghost use Rattle.stapl_syntax.specs.Trees.{StmtTree};
ghost use Rattle.stapl_syntax.specs.Programs.{IsProgram, FirstFault};

/// A text is at most one program.
pub fn a_text_is_one_program()
    ensures { (text : List ℕ) (a b : List StmtTree) → IsProgram text a → IsProgram text b → a ≡ b }
{}

/// A text has at most one first fault.
pub fn a_text_has_one_first_fault()
    ensures { (text : List ℕ) (p l q m : ℕ) (r s : Reason) → FirstFault text p l r → FirstFault text q m s →
        (p ≡ q) × (l ≡ m) × (r ≡ s) }
{}

/// A text that has a first fault is no program.
pub fn a_program_has_no_fault()
    ensures { (text : List ℕ) (statements : List StmtTree) (piece line : ℕ) (reason : Reason) →
        IsProgram text statements → FirstFault text piece line reason → ⊥ }
{}

/// Each text is a program or has a first fault.
pub fn each_text_is_a_program_or_has_a_fault()
    ensures { (text : List ℕ) → ((statements : List StmtTree) × IsProgram text statements)
        ⊎ ((piece : ℕ) × (line : ℕ) × (reason : Reason) × FirstFault text piece line reason) }
{}
