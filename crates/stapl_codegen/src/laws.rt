//! Laws of the definitions.
ghost use Rattle.std.specs.Prelude.{ℕ, ◌+◌, ◌*◌, ◌≤◌, List, length};
ghost use Rattle.stapl_syntax.specs.Trees.{StmtTree};
ghost use Rattle.stapl_syntax.specs.Programs.{IsProgram};
ghost use Rattle.stapl_meaning.specs.Scopes.{Played, as_played};
ghost use Rattle.stapl_code.specs.Files.{file, IsFitting};
ghost use Rattle.stapl_code.specs.Ranges.{IsInRange};
ghost use Rattle.stapl_code.specs.Valid.{IsValid};
ghost use Rattle.stapl_codegen.specs.Accepted.{IsAccepted};
ghost use Rattle.stapl_codegen.specs.Correct.{CodeStands};
ghost use Rattle.stapl_codegen.specs.Generated.{lists_of, IsCodeOf};
ghost use Rattle.stapl_codegen.specs.Unstuck.{ProgramsAreNotStuck};

use stapl_code::laws::never_stuck;
use stapl_meaning::laws::programs_are_typed;
use stapl_shapes::laws::{
    programs_are_shaped, statements_are_no_longer_than_their_text, statements_fit_into_their_text,
};
use stapl_syntax::laws::{blocks_are_well_named, literals_have_bits, texts_of_prints_are_short};

/// The code of a program does what the program does.
pub fn code_stands()
    ensures { CodeStands }
{}

/// The compiler takes each program.
pub fn programs_are_accepted()
    ensures { (text : List ℕ) (program : List StmtTree) → IsProgram text program → IsAccepted (as_played program) }
{
    programs_are_typed();
    programs_are_shaped();
    statements_are_no_longer_than_their_text();
    blocks_are_well_named();
    texts_of_prints_are_short();
    literals_have_bits();
}

/// The lists of the code of an accepted program are in their ranges and valid, and they stand for the program.
pub fn accepted_code_is_valid()
    ensures in_range { (program : Played) → IsAccepted program → IsInRange (lists_of program) }
    ensures valid { (program : Played) → IsAccepted program → IsValid (lists_of program) }
    ensures code { (program : Played) → IsAccepted program → IsCodeOf program (lists_of program) }
{}

/// The file of the code of a program has at most 64 bytes for each byte of its text, and 64 more.
pub fn files_are_short()
    ensures { (text : List ℕ) (program : List StmtTree) →
        IsProgram text program → length (file (lists_of (as_played program))) ≤ 64 * length text + 64 }
{
    programs_are_accepted();
    statements_are_no_longer_than_their_text();
    statements_fit_into_their_text();
}

/// The numbers of the code of a program have four bytes each, so that it has a file.
pub fn codes_of_programs_fit()
    ensures { (text : List ℕ) (program : List StmtTree) →
        IsProgram text program → IsFitting (lists_of (as_played program)) }
{
    programs_are_accepted();
}

/// No run of an accepted program gets stuck, on whichever chain that is in a stable state when the run begins: it has
/// an ending after its turns, or it still goes on, and then there is exactly one turn.
pub fn programs_are_not_stuck()
    ensures { ProgramsAreNotStuck }
{
    never_stuck();
}
