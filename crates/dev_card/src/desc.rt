//! What a device is: its description, as a board text gives it.
ghost use Rattle.std.specs.Prelude.{◌≡◌, IfOk};

use base::ItemList;
use bit_list::Bits;
use stapl_lexer::Name;
use std::alloc::{AllocError, Global};

/// The most devices of a board.
pub const MOST_DEVICES: usize = 64;

/// The kinds of device.
#[derive(Clone, Copy, PartialEq, Eq)]
pub enum Kind {
    /// A device with BYPASS and perhaps an identity, and no other data register.
    Plain,
    /// A device with data registers of its own.
    Regs,
    /// A device with a memory that is erased and programmed.
    Flash,
}

/// The identity of a device (IEEE 1149.1, device identification register).
#[derive(Clone, Copy, PartialEq, Eq)]
pub struct IdCode {
    /// The identification code of 32 bits, of which the lowest is 1.
    pub value: u32,
    /// The opcode of the instruction that selects it.
    pub op: u64,
}

/// A data register of a device of kind `Regs`.
#[derive(PartialEq, Eq, Drop)]
pub struct RegDesc {
    pub name: Name,
    /// The opcode of the instruction that selects it.
    pub op: u64,
    /// Its length, 1 to 65,536 bits.
    pub len: u32,
    /// What it captures, with its length; `None` where it captures what it holds.
    pub constant: Option<Bits>,
}

/// The memory of a device of kind `Flash`.
#[derive(Clone, Copy, PartialEq, Eq)]
pub struct FlashDesc {
    /// The opcode that erases, with a register of 1 bit.
    pub erase: u64,
    /// The opcode that sets the address, with a register of 16 bits.
    pub addr: u64,
    /// The opcode that programs the addressed word, with a register of `width` bits.
    pub prog: u64,
    /// The opcode that reads the addressed word, with a register of `width` bits.
    pub read: u64,
    /// How many words there are, 1 to 4,096.
    pub words: u32,
    /// The width of a word, 1 to 4,096 bits.
    pub width: u32,
    /// For how many clocks in the idle state the memory is busy after it was erased or programmed, 0 to 1,000,000.
    pub busy: u32,
    /// The bit that fills all words at first.
    pub fill: bool,
}

/// What a device is.
#[derive(Drop)]
pub struct Desc {
    pub kind: Kind,
    pub name: Name,
    /// The length of the instruction register, 2 to 64 bits.
    pub ir_len: u32,
    pub id: Option<IdCode>,
    /// The registers of a `Regs`, and none for the other kinds.
    pub registers: ItemList<RegDesc>,
    /// The memory of a `Flash`, and `None` for the other kinds.
    pub flash: Option<FlashDesc>,
}

impl RegDesc {
    /// A copy of the register. `AllocError` comes only for want of memory.
    pub fn copied(&self, alloc: Global) -> Result<RegDesc, AllocError>
        ensures { IfOk result (λ r. r ≡ self.now) }
    {
        let constant = match &self.constant {
            Some(bits) => Some(bits.copied(alloc)?),
            None => None,
        };
        Ok(RegDesc {
            name: self.name,
            op: self.op,
            len: self.len,
            constant,
        })
    }
}

impl Desc {
    /// A copy of the description. `AllocError` comes only for want of memory.
    pub fn copied(&self, alloc: Global) -> Result<Desc, AllocError>
        ensures { IfOk result (λ d. d ≡ self.now) }
    {
        let registers = copied_registers(self.registers.as_slice(), alloc)?;
        Ok(Desc {
            kind: self.kind,
            name: self.name,
            ir_len: self.ir_len,
            id: self.id,
            registers,
            flash: self.flash,
        })
    }
}

fn copied_registers(registers: &[RegDesc], alloc: Global) -> Result<ItemList<RegDesc>, AllocError>
    ensures { IfOk result (λ list. list ≡ registers.now) }
{
    let mut copies = Vec::new(alloc);
    for i in 0..registers.len() {
        copies.push(registers[i].copied(alloc)?)?;
    }
    Ok(ItemList::of(copies))
}
