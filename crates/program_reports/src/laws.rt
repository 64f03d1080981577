//! Laws of the definitions: each program has one check text.
ghost use Rattle.std.specs.Prelude.{◌≡◌, ℕ, List};
ghost use Rattle.stapl_syntax.specs.Trees.{StmtTree};
ghost use Rattle.stapl_syntax.specs.Programs.{IsProgram};
ghost use Rattle.program_reports.specs.Checks.{IsCheckText};

/// A program has at most one check text.
pub fn a_program_has_one_check_text()
    ensures { (text : List ℕ) (program : List StmtTree) (a b : List ℕ) →
        IsCheckText text program a → IsCheckText text program b → a ≡ b }
{}

/// Each program has a check text.
pub fn each_program_has_a_check_text()
    ensures { (text : List ℕ) (program : List StmtTree) → IsProgram text program →
        (check : List ℕ) × IsCheckText text program check }
{}
