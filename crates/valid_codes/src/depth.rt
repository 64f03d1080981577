//! How many operands a code holds at once.
ghost use Rattle.std.specs.Prelude.{◌≡◌, ◌<◌, ◌≤◌, ◌^◌, [], length, IfOk, slice_range};
ghost use Rattle.stapl_code.specs.Valid.{next_entry};
ghost use Rattle.stapl_code.specs.Depth.{deepest, procedures_depth, depth_of};

use crate::parts::{between, next_entry};
use base::Stack;
use code_kinds::follow;
use stapl_code::{CodeLists, Instr, ProcDef, VarDef};
use std::alloc::{AllocError, Global};

/// The most operands before and after these instructions, where none are there at first.
fn deepest(alloc: Global, variables: &[VarDef], instrs: &[Instr]) -> Result<u32, AllocError>
    requires { length instrs.now < 2 ^ 32 }
    ensures { IfOk result (λ most. most ≡ deepest variables.now [] instrs.now) }
{
    let mut kinds = Stack::new(alloc);
    let mut most = 0;
    for i in 0..instrs.len() {
        most = kinds.len().max(most);
        if !follow(variables, &instrs[i], &mut kinds)? {
            return Ok(most as u32);
        }
    }
    Ok(kinds.len().max(most) as u32)
}

fn procedures_depth(
    alloc: Global,
    variables: &[VarDef],
    instrs: &[Instr],
    procedures: &[ProcDef],
) -> Result<u32, AllocError>
    requires { length instrs.now < 2 ^ 32 }
    ensures { IfOk result (λ most. most ≡ procedures_depth variables.now instrs.now procedures.now) }
{
    let mut most = 0;
    for p in 0..procedures.len() {
        let procedure = between(
            instrs,
            procedures[p].entry as usize,
            next_entry(instrs.len(), procedures, p + 1),
        );
        most = deepest(alloc, variables, procedure)?.max(most);
    }
    Ok(most)
}

/// The most operands that a code holds at once.
pub(crate) fn depth_of(alloc: Global, code: &CodeLists) -> Result<u32, AllocError>
    requires { length code.now.instrs < 2 ^ 32 }
    ensures { IfOk result (λ most. most ≡ depth_of code.now) }
{
    let variables = code.variables.as_slice();
    let instrs = code.instrs.as_slice();
    let procedures = code.procedures.as_slice();
    let prologue = between(instrs, 0, next_entry(instrs.len(), procedures, 0));
    let first = deepest(alloc, variables, prologue)?;
    Ok(procedures_depth(alloc, variables, instrs, procedures)?.max(first))
}
