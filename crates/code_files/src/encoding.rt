//! The file of a code.
ghost use Rattle.std.specs.Prelude.{◌≡◌, ◌≤◌, ◌<◌, ◌^◌, ◌∷◌, [], ◌++◌, length, All, OnOk, IfOk};
ghost use Rattle.stapl_code.specs.declared.raw.VarDef.{VarDef};
ghost use Rattle.stapl_code.specs.declared.raw.ProcDef.{ProcDef};
ghost use Rattle.stapl_code.specs.declared.raw.ActionDef.{ActionDef};
ghost use Rattle.stapl_code.specs.Fields.{counted, literal, text};
ghost use Rattle.stapl_code.specs.Instrs.{instr, IsCountableInstr, FitsInstr};
ghost use Rattle.stapl_code.specs.Files.{head, variable, procedure, item, action, file, IsCountable, IsFitting};
ghost use Rattle.code_files.specs.CodeFaults.{IsFileOf};

use crate::fields::{
    head, put_byte, put_bytes, put_count, put_literal, put_name, put_number, put_text,
};
use crate::instrs::put_instr;
use bit_list::Bits;
use stapl_code::{ActionDef, CodeLists, Instr, ItemDef, ProcDef, VarDef};
use stapl_meaning::Text;
use std::alloc::{AllocError, Global};
use valid_codes::Code;

fn put_variables(out: &mut Vec<u8>, variables: &[VarDef]) -> Result<(), AllocError>
    requires { length variables.now < 2 ^ 32 }
    ensures put { OnOk result (out.new.items ≡ out.old.items ++ counted variable variables.now) }
    ensures fits { OnOk result (All (λ (v : VarDef). v.size < 2 ^ 32) variables.now) }
{
    put_count(out, variables.len())?;
    for variable in variables {
        put_byte(out, variable.kind)?;
        put_number(out, variable.size)?;
    }
    Ok(())
}

fn put_literals(out: &mut Vec<u8>, literals: &[Bits]) -> Result<(), AllocError>
    requires { length literals.now < 2 ^ 32 }
    ensures { OnOk result (out.new.items ≡ out.old.items ++ counted literal literals.now) }
{
    put_count(out, literals.len())?;
    for bits in literals {
        put_literal(out, bits)?;
    }
    Ok(())
}

fn put_texts(out: &mut Vec<u8>, texts: &[Text]) -> Result<(), AllocError>
    requires each { All (λ bytes. length bytes < 2 ^ 32) texts.now }
    requires count { length texts.now < 2 ^ 32 }
    ensures { OnOk result (out.new.items ≡ out.old.items ++ counted text texts.now) }
{
    put_count(out, texts.len())?;
    for bytes in texts {
        put_text(out, bytes)?;
    }
    Ok(())
}

fn put_procedures(out: &mut Vec<u8>, procedures: &[ProcDef]) -> Result<(), AllocError>
    requires { length procedures.now < 2 ^ 32 }
    ensures put { OnOk result (out.new.items ≡ out.old.items ++ counted procedure procedures.now) }
    ensures fits { OnOk result (All (λ (p : ProcDef). p.entry < 2 ^ 32) procedures.now) }
{
    put_count(out, procedures.len())?;
    for procedure in procedures {
        put_name(out, &procedure.name)?;
        put_number(out, procedure.entry)?;
    }
    Ok(())
}

fn put_items(out: &mut Vec<u8>, items: &[ItemDef]) -> Result<(), AllocError>
    requires { length items.now < 2 ^ 32 }
    ensures { OnOk result (out.new.items ≡ out.old.items ++ counted item items.now) }
{
    put_count(out, items.len())?;
    for item in items {
        put_number(out, item.procedure)?;
        put_byte(out, item.flag)?;
    }
    Ok(())
}

fn put_actions(out: &mut Vec<u8>, actions: &[ActionDef]) -> Result<(), AllocError>
    requires each { All (λ (a : ActionDef). length a.items < 2 ^ 32) actions.now }
    requires count { length actions.now < 2 ^ 32 }
    ensures { OnOk result (out.new.items ≡ out.old.items ++ counted action actions.now) }
{
    put_count(out, actions.len())?;
    for action in actions {
        put_name(out, &action.name)?;
        put_items(out, action.items.as_slice())?;
    }
    Ok(())
}

/// Puts instructions, with their count.
pub(crate) fn put_instrs(out: &mut Vec<u8>, instrs: &[Instr]) -> Result<(), AllocError>
    requires each { All IsCountableInstr instrs.now }
    requires count { length instrs.now < 2 ^ 32 }
    ensures put { OnOk result (out.new.items ≡ out.old.items ++ counted instr instrs.now) }
    ensures fits { OnOk result (All FitsInstr instrs.now) }
{
    put_count(out, instrs.len())?;
    for instr in instrs {
        put_instr(out, instr)?;
    }
    Ok(())
}

#[tactic(auto, unfolding(stapl_code::specs::Files::file))]
fn file_of(alloc: Global, code: &CodeLists) -> Result<Vec<u8>, AllocError>
    requires { IsCountable code.now }
    ensures file { IfOk result (λ v. v.items ≡ file code.now) }
    ensures fits { IfOk result (λ _. IsFitting code.now) }
{
    let mut out = Vec::new(alloc);
    put_bytes(&mut out, &head(code.profile))?;
    put_variables(&mut out, code.variables.as_slice())?;
    put_literals(&mut out, code.literals.as_slice())?;
    put_texts(&mut out, code.texts.as_slice())?;
    put_procedures(&mut out, code.procedures.as_slice())?;
    put_actions(&mut out, code.actions.as_slice())?;
    put_instrs(&mut out, code.instrs.as_slice())?;
    Ok(out)
}

/// The file of a code. `AllocError` comes only for want of memory.
pub fn encode_code(alloc: Global, code: &Code) -> Result<Vec<u8>, AllocError>
    ensures { IfOk result (λ v. IsFileOf v.items code.now) }
{
    file_of(alloc, code.raw().lists())
}
