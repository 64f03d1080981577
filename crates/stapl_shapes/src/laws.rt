//! Laws of the definitions.
ghost use Rattle.std.specs.Prelude.{ℕ, ◌≤◌, List, All, length};
ghost use Rattle.stapl_syntax.specs.Trees.{StmtTree};
ghost use Rattle.stapl_syntax.specs.Programs.{IsProgram};
ghost use Rattle.stapl_shapes.specs.Shapes.{HasShape};
ghost use Rattle.stapl_shapes.specs.Sizes.{statements_size};
ghost use Rattle.stapl_shapes.specs.Bytes.{statements_bytes};

/// Each statement of a program has one of the shapes that the grammar gives.
pub fn programs_are_shaped()
    ensures { (text : List ℕ) (statements : List StmtTree) →
        IsProgram text statements → All HasShape statements }
{}

/// The statements of a program are together no larger than its text: each symbol of a statement has a byte of its own.
pub fn statements_are_no_longer_than_their_text()
    ensures { (text : List ℕ) (statements : List StmtTree) →
        IsProgram text statements → statements_size statements ≤ length text }
{}

/// The statements of a program take together no more bytes than its text has: each symbol of a statement has bytes of
/// its own, and the more the more it holds.
pub fn statements_fit_into_their_text()
    ensures { (text : List ℕ) (statements : List StmtTree) →
        IsProgram text statements → statements_bytes statements ≤ length text }
{}
