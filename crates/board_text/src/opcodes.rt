//! The opcodes of a device.
ghost use Rattle.std.specs.Prelude.{◌≡◌, ◌≢◌, ◌≤◌, ◌↔◌, IfOk, IsTrue, All, AllPairs};
ghost use Rattle.dev_card.specs.Descriptions.{IsOpcode, identity_opcodes, opcodes_of};

use dev_card::{Desc, IdCode};
use std::alloc::{AllocError, Global};

// Whether an opcode may be named.
pub fn is_opcode(op: u64, ir_len: u32) -> bool
    requires { ir_len ≤ 64 }
    ensures { IsTrue result ↔ IsOpcode ir_len op }
{
    let all_ones = if ir_len == 64 {
        u64::MAX
    } else {
        (1u64 << ir_len) - 1
    };
    op < all_ones
}

// Whether all of these opcodes may be named.
pub fn are_opcodes(opcodes: &[u64], ir_len: u32) -> bool
    requires { ir_len ≤ 64 }
    ensures { IsTrue result ↔ All (IsOpcode ir_len) opcodes.now }
{
    opcodes.iter().all(|op| is_opcode(*op, ir_len))
}

// Whether no two of these opcodes are alike.
pub fn are_apart(opcodes: &[u64]) -> bool
    ensures { IsTrue result ↔ AllPairs ◌≢◌ opcodes.now }
{
    for i in 0..opcodes.len() {
        let op = opcodes[i];
        if opcodes[..i].contains(&op) {
            return false;
        }
    }
    true
}

fn identity_opcodes(alloc: Global, id: Option<IdCode>) -> Result<Vec<u64>, AllocError>
    ensures { IfOk result (λ opcodes. opcodes.items ≡ identity_opcodes id) }
{
    let mut opcodes = Vec::new(alloc);
    match id {
        Some(id) => {
            opcodes.push(id.op)?;
            Ok(opcodes)
        }
        None => Ok(opcodes),
    }
}

// The opcodes that a device names, at most 69.
pub fn opcodes_of(alloc: Global, device: &Desc) -> Result<Vec<u64>, AllocError>
    ensures { IfOk result (λ opcodes. opcodes.items ≡ opcodes_of device.now) }
{
    let mut opcodes = identity_opcodes(alloc, device.id)?;
    let registers = device.registers.as_slice();
    'registers: for register in registers {
        opcodes.push(register.op)?;
    }
    match device.flash {
        Some(flash) => {
            opcodes.extend_from_slice(&[flash.erase, flash.addr, flash.prog, flash.read])?;
            Ok(opcodes)
        }
        None => Ok(opcodes),
    }
}
