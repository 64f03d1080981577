//! The code of a program.
ghost use Rattle.std.specs.Prelude.{◌≡◌, ◌+◌, ◌*◌, ◌<◌, ◌≤◌, ◌^◌, length, map, IfOk};
ghost use Rattle.std.specs.List.{range_with_len};
ghost use Rattle.stapl_syntax.specs.Trees.{trees};
ghost use Rattle.stapl_syntax.specs.ProgramValues.{trees_of};
ghost use Rattle.stapl_syntax.specs.Programs.{piece_limit, IsProgram};
ghost use Rattle.stapl_meaning.specs.Values.{of_programs};
ghost use Rattle.stapl_meaning.specs.Scopes.{program_names, as_played};
ghost use Rattle.stapl_code.specs.Files.{file};
ghost use Rattle.stapl_code.specs.Ranges.{IsInRange};
ghost use Rattle.stapl_code.specs.Valid.{IsValid};
ghost use Rattle.stapl_codegen.specs.Accepted.{IsAccepted};
ghost use Rattle.stapl_codegen.specs.Drafts.{AreStarts};
ghost use Rattle.stapl_codegen.specs.Emit.{procedures_of, actions_of};
ghost use Rattle.stapl_codegen.specs.Generated.{variable_def, lists_of, IsCodeOf};
ghost use Rattle.stapl_codegen.specs.Numbers.{AreNumbers};

use crate::definitions::{Numbers, actions, procedure_numbers, procedures, variables};
use crate::draft::{Written, write_program};
use crate::laws::{accepted_code_is_valid, files_are_short, programs_are_accepted};
use base::ItemList;
use stapl_code::{ActionDef, CodeLists, ProcDef, RawCode, VarDef};
use stapl_meaning::Profile;
use stapl_names::{Names, collect};
use stapl_syntax::{Program, Stmt};
use std::alloc::{AllocError, Global};
use valid_codes::{Code, ValidateRefused, validate};

// The numbers of so many pieces, from 1 on.
fn piece_numbers(alloc: Global, count: usize) -> Result<Vec<u32>, AllocError>
    requires { count < 2 ^ 31 }
    ensures { IfOk result (λ numbers. numbers.items ≡ range_with_len 1 count) }
{
    let mut numbers = Vec::new(alloc);
    for i in 0..count {
        numbers.push(i as u32 + 1)?;
    }
    Ok(numbers)
}

// The names of a program.
#[tactic(auto, using(crate::proofs::Numbers::all_pieces))]
fn names_of_program(alloc: Global, program: &[Stmt]) -> Result<Names, AllocError>
    requires { length program.now ≤ piece_limit }
    ensures { IfOk result (λ names. names ≡ program_names (trees program.now)) }
{
    let numbers = piece_numbers(alloc, program.len())?;
    let names = collect(alloc, &numbers, program)?;
    Ok(names)
}

// What a code defines beside its instructions.
#[derive(Drop)]
struct Outline {
    variables: Vec<VarDef>,
    procedures: Vec<ProcDef>,
    actions: Vec<ActionDef>,
}

// What the code of an accepted program defines beside its instructions.
fn outline_of(
    alloc: Global,
    program: &[Stmt],
    numbers: &Numbers,
    starts: &[u32],
) -> Result<Outline, AllocError>
    requires accepted { IsAccepted (as_played (trees program.now)) }
    requires known { AreNumbers (as_played (trees program.now)) numbers.now }
    requires names { numbers.now.names.now ≡ program_names (trees program.now) }
    requires starts { AreStarts (as_played (trees program.now)) starts.now }
    ensures variables { IfOk result (λ o.
        o.variables.items ≡ map variable_def (as_played (trees program.now)).names.variables) }
    ensures procedures { IfOk result (λ o. o.procedures.items ≡ procedures_of (as_played (trees program.now))) }
    ensures actions { IfOk result (λ o. o.actions.items ≡ actions_of (as_played (trees program.now))) }
{
    let variables = variables(alloc, numbers.names)?;
    let procedures = procedures(alloc, program, starts)?;
    let actions = actions(alloc, program, numbers)?;
    Ok(Outline {
        variables,
        procedures,
        actions,
    })
}

// The lists of a code, by what is written of it and what it defines.
fn joined(written: Written, outline: Outline) -> CodeLists
    ensures { result ≡ record {
      profile = of_programs;
      variables = outline.variables.items;
      literals = written.literals.items;
      texts = written.texts.items;
      procedures = outline.procedures.items;
      actions = outline.actions.items;
      instrs = written.code.items;
    } }
{
    CodeLists {
        profile: Profile::Two,
        variables: ItemList::of(outline.variables),
        literals: ItemList::of(written.literals),
        texts: ItemList::of(written.texts),
        procedures: ItemList::of(outline.procedures),
        actions: ItemList::of(outline.actions),
        instrs: ItemList::of(written.code),
    }
}

// The lists of the code of an accepted program with these names.
fn named_lists(alloc: Global, program: &[Stmt], names: &Names) -> Result<CodeLists, AllocError>
    requires accepted { IsAccepted (as_played (trees program.now)) }
    requires names { names.now ≡ program_names (trees program.now) }
    ensures { IfOk result (λ lists. lists ≡ lists_of (as_played (trees program.now))) }
{
    let next = procedure_numbers(alloc, names)?;
    let numbers = Numbers { names, next };
    let written = write_program(alloc, program, &numbers)?;
    let Ok(outline) = outline_of(alloc, program, &numbers, &written.starts) else {
        drop(written);
        return Err(AllocError);
    };
    Ok(joined(written, outline))
}

// The lists of the code of an accepted program.
fn program_lists(alloc: Global, program: &[Stmt]) -> Result<CodeLists, AllocError>
    requires { IsAccepted (as_played (trees program.now)) }
    ensures { IfOk result (λ lists. lists ≡ lists_of (as_played (trees program.now))) }
{
    let names = names_of_program(alloc, program)?;
    let lists = named_lists(alloc, program, &names);
    drop(names);
    lists
}

// The same lists, which are in their ranges and valid, and stand for the program.
fn valid_lists(alloc: Global, program: &[Stmt]) -> Result<CodeLists, AllocError>
    requires { IsAccepted (as_played (trees program.now)) }
    ensures code { IfOk result (IsCodeOf (as_played (trees program.now))) }
    ensures in_range { IfOk result IsInRange }
    ensures valid { IfOk result IsValid }
{
    accepted_code_is_valid();
    let lists = program_lists(alloc, program)?;
    Ok(lists)
}

/// The code of a program, which stands for it. Its file has at most 64 bytes for each byte of the text, and 64 more.
///
/// `AllocError` comes only for want of memory.
pub fn generate(alloc: Global, program: &Program) -> Result<Code, AllocError>
    requires { IsProgram program.now.text (trees_of program.now) }
    ensures code { IfOk result (IsCodeOf (as_played (trees_of program.now))) }
    ensures short { IfOk result (λ code. length (file code) ≤ 64 * length program.now.text + 64) }
{
    programs_are_accepted();
    files_are_short();
    let lists = valid_lists(alloc, program.statements())?;
    match validate(alloc, RawCode::of(lists)) {
        Ok(code) => Ok(code),
        Err(ValidateRefused::Memory) => Err(AllocError),
        Err(ValidateRefused::Invalid(_)) => unreachable!(),
    }
}
