//! The parts of a code: the prologue, and the procedures.
ghost use Rattle.std.specs.Prelude.{◌≡◌, drop, slice_range};
ghost use Rattle.stapl_code.specs.Valid.{next_entry};

use stapl_code::{Instr, ProcDef};

/// Where the procedure of this number begins, or the end of the code where there is none.
pub(crate) fn next_entry(total: usize, procedures: &[ProcDef], p: usize) -> usize
    ensures { result ≡ next_entry total (drop p procedures.now) }
{
    match procedures.get(p) {
        None => total,
        Some(procedure) => procedure.entry as usize,
    }
}

/// The instructions from one place to another.
pub(crate) fn between(instrs: &[Instr], first: usize, end: usize) -> &[Instr]
    ensures { result.now ≡ slice_range instrs.now first end }
{
    let end = end.min(instrs.len());
    let first = first.min(end);
    &instrs[first..end]
}
