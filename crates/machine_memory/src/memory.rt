//! What instructions change beside the operands.
ghost use Rattle.std.specs.Prelude.{◌≡◌, All, IfOk, map, []};
ghost use Rattle.stapl_code.specs.Ranges.{IsVariable};
ghost use Rattle.stapl_meaning.specs.Plays.{first_settings};
ghost use Rattle.machine_memory.specs.Acts.{IsUnused};
ghost use Rattle.machine_memory.specs.Zeros.{zero_of};

use crate::record_stack::RecordStack;
use crate::scan_bits::ScanBits;
use crate::settings::Settings;
use crate::zeros::zeros;
use stapl_code::VarDef;
use stapl_meaning::{Held, Value};
use std::alloc::{AllocError, Global};

/// The bits of a scan: its data, those that it captures, as many, and if it compares, as many expected ones and as many
/// of the mask. Each list has room for the longest scan from the beginning. The bits of a padding are data too until it
/// is set.
#[derive(Drop)]
pub struct Shifted {
    pub data: ScanBits,
    pub captured: ScanBits,
    pub expected: ScanBits,
    pub mask: ScanBits,
}

impl Shifted {
    /// No bits, and the memory for four of the longest scans.
    pub fn none(alloc: Global) -> Result<Shifted, AllocError>
        ensures { IfOk result (λ s. s ≡ record { «data» = []; captured = []; expected = []; mask = [] }) }
    {
        Ok(Shifted {
            data: ScanBits::new(alloc)?,
            captured: ScanBits::new(alloc)?,
            expected: ScanBits::new(alloc)?,
            mask: ScanBits::new(alloc)?,
        })
    }
}

/// The variables, the records, the topmost last, how scans of the instruction registers and of the data registers go,
/// and the bits of the last scan.
#[derive(Drop)]
pub struct Memory {
    pub variables: Vec<Held>,
    pub records: RecordStack,
    pub ir: Settings,
    pub dr: Settings,
    pub shifted: Shifted,
}

/// What a run keeps: the memory, the operands in the order in which they were put on, the text of the last Print, how
/// many of the chosen procedures have begun, and the piece of the turn.
#[derive(Drop)]
pub struct Workspace {
    pub memory: Memory,
    pub operands: Vec<Value>,
    pub text: Vec<u8>,
    pub next: usize,
    pub piece: u32,
}

// How scans of the instruction registers and of the data registers go at first, and no bits.
fn first_scan(alloc: Global) -> Result<(Settings, Settings, Shifted), AllocError>
    ensures ir { IfOk result (λ scan. scan.0 ≡ first_settings) }
    ensures dr { IfOk result (λ scan. scan.1 ≡ first_settings) }
{
    let ir = Settings::first(alloc)?;
    let Ok(dr) = Settings::first(alloc) else {
        drop(ir);
        return Err(AllocError);
    };
    let Ok(shifted) = Shifted::none(alloc) else {
        drop(ir);
        drop(dr);
        return Err(AllocError);
    };
    Ok((ir, dr, shifted))
}

impl Memory {
    /// The memory that a run with these variables begins with: they are 0, there is no record, and scans have no
    /// padding and end in Run-Test/Idle. It has room for the most records there may be.
    pub fn first(alloc: Global, defs: &[VarDef]) -> Result<Memory, AllocError>
        requires { All IsVariable defs.now }
        ensures variables { IfOk result (λ memory. memory.variables.items ≡ map zero_of defs.now) }
        ensures unused { IfOk result IsUnused }
    {
        let scan = first_scan(alloc)?;
        let Ok(records) = RecordStack::new(alloc) else {
            drop(scan);
            return Err(AllocError);
        };
        let Ok(variables) = zeros(alloc, defs) else {
            drop(scan);
            drop(records);
            return Err(AllocError);
        };
        let (ir, dr, shifted) = scan;
        Ok(Memory {
            variables,
            records,
            ir,
            dr,
            shifted,
        })
    }
}
