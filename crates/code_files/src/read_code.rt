//! A code, read from the front of the bytes.
ghost use Rattle.std.specs.Prelude.{◌≡◌, length};
ghost use Rattle.code_files.specs.Reading.{ReadingGives, listed_in, any_end};
ghost use Rattle.code_files.specs.ReadInstrs.{instr_at};
ghost use Rattle.code_files.specs.ReadFiles.{code_at};

use crate::fault::Stop;
use crate::read_instrs::Counts;
use crate::read_literals::literals_of;
use crate::read_names::{actions_of, procedures_of};
use crate::read_sections::{instrs_of, texts_of};
use crate::read_variables::variables_of;
use crate::reading::head_of;
use base::ItemList;
use bit_list::Bits;
use stapl_code::{CodeLists, Instr, ProcDef, VarDef};
use stapl_meaning::Text;
use std::alloc::Global;

// The instructions of a code with these lists.
fn instrs_after<'a>(
    alloc: Global,
    variables: &ItemList<VarDef>,
    literals: &ItemList<Bits>,
    texts: &ItemList<Text>,
    procedures: &ItemList<ProcDef>,
    bytes: &'a [u8],
) -> Result<(ItemList<Instr>, &'a [u8]), Stop>
    ensures { let item = instr_at variables.now (length literals.now) (length texts.now) (length procedures.now) in
        ReadingGives (λ x. (x.0, x.1.now)) result (listed_in (λ _. item) 0 any_end bytes.now) }
{
    let counts = Counts {
        variables: variables.as_slice(),
        literals: literals.len(),
        texts: texts.len(),
        procedures: procedures.len(),
    };
    instrs_of(alloc, counts, bytes)
}

/// The lists of a code, and the bytes after the last one.
pub(crate) fn code_of(alloc: Global, bytes: &[u8]) -> Result<(CodeLists, &[u8]), Stop>
    ensures { ReadingGives (λ x. (x.0, x.1.now)) result (code_at bytes.now) }
{
    let (profile, rest) = head_of(bytes)?;
    let (variables, rest) = variables_of(alloc, rest)?;
    let (literals, rest) = literals_of(alloc, rest)?;
    let (texts, rest) = texts_of(alloc, rest)?;
    let (procedures, rest) = procedures_of(alloc, rest)?;
    let (actions, rest) = actions_of(alloc, procedures.len(), rest)?;
    let (instrs, rest) = instrs_after(alloc, &variables, &literals, &texts, &procedures, rest)?;
    Ok((
        CodeLists {
            profile,
            variables,
            literals,
            texts,
            procedures,
            actions,
            instrs,
        },
        rest,
    ))
}
