//! Laws of the definitions.
ghost use Rattle.std.specs.Prelude.{◌≡◌, ℕ, List};
ghost use Rattle.stapl_syntax.specs.Trees.{StmtTree};
ghost use Rattle.stapl_syntax.specs.Programs.{IsProgram};
ghost use Rattle.account_lines.specs.declared.lines.TurnPlace.{TurnPlace};
ghost use Rattle.turn_table.specs.Tables.{IsTurnTable};

/// A program has one table, and no other.
pub fn a_program_has_one_table()
    ensures some { (text : List ℕ) (program : List StmtTree) → IsProgram text program →
        (table : List TurnPlace) × IsTurnTable text program table }
    ensures one { (text : List ℕ) (program : List StmtTree) (a b : List TurnPlace) → IsProgram text program →
        IsTurnTable text program a → IsTurnTable text program b → a ≡ b }
{}
