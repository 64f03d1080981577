//! What variables hold before a run.
ghost use Rattle.std.specs.Prelude.{◌≡◌, All, IfOk, map, replicate, pos};
ghost use Rattle.stapl_code.specs.Ranges.{IsVariable};
ghost use Rattle.machine_memory.specs.Zeros.{zero_of};

use base::ItemList;
use bit_list::Bits;
use stapl_code::VarDef;
use stapl_meaning::Held;
use std::alloc::{AllocError, Global};

fn zero_integers(alloc: Global, n: u32) -> Result<ItemList<i32>, AllocError>
    ensures { IfOk result (λ list. list ≡ replicate n (pos 0)) }
{
    let items = vec![in alloc; 0i32; n as usize]?;
    Ok(ItemList::of(items))
}

// The zero of a variable's kind and size.
fn zero(alloc: Global, def: VarDef) -> Result<Held, AllocError>
    requires { IsVariable def }
    ensures { IfOk result (λ held. held ≡ zero_of def) }
{
    if def.kind == 0 {
        return Ok(Held::Int(0));
    }
    if def.kind == 1 {
        return Ok(Held::Bit(false));
    }
    if def.kind == 2 {
        return Ok(Held::Ints(zero_integers(alloc, def.size)?));
    }
    Ok(Held::Bits(Bits::zeros(alloc, def.size)?))
}

/// The zeros of these variables.
pub fn zeros(alloc: Global, defs: &[VarDef]) -> Result<Vec<Held>, AllocError>
    requires { All IsVariable defs.now }
    ensures { IfOk result (λ variables. variables.items ≡ map zero_of defs.now) }
{
    let mut variables = Vec::new(alloc);
    for def in defs {
        let held = zero(alloc, *def)?;
        variables.push(held)?;
    }
    Ok(variables)
}
