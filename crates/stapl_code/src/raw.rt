//! Codes as a file gives them.
ghost use Rattle.std.specs.Prelude.{◌≡◌};
ghost use Rattle.stapl_code.specs.Ranges.{IsInRange};
ghost use Rattle.stapl_code.specs.Files.{IsShort};

use crate::instr::Instr;
use base::ItemList;
use bit_list::Bits;
use stapl_lexer::Name;
use stapl_meaning::{Profile, Text};
use std::marker::Model;

/// The most bytes that the file of a code may have.
pub const FILE_LIMIT: usize = 268_435_520;

/// A variable.
#[derive(Clone, Copy)]
pub struct VarDef {
    /// 0 is an INTEGER scalar, 1 a BOOLEAN scalar, 2 an INTEGER array, 3 a BOOLEAN array.
    pub kind: u8,
    /// How many elements it has; a scalar has 1.
    pub size: u32,
}

/// A procedure.
#[derive(Clone, Copy)]
pub struct ProcDef {
    pub name: Name,
    /// The number of its first instruction.
    pub entry: u32,
}

/// An item of an action.
#[derive(Clone, Copy)]
pub struct ItemDef {
    /// The number of its procedure.
    pub procedure: u32,
    /// 0 where the item is always run, 1 where it is OPTIONAL, 2 where it is RECOMMENDED.
    pub flag: u8,
}

/// An action.
#[derive(Drop)]
pub struct ActionDef {
    pub name: Name,
    pub items: ItemList<ItemDef>,
}

/// The profile of a code, and its lists, one for each section of its file. Items of each are told by their numbers,
/// from 0.
#[derive(Drop)]
pub struct CodeLists {
    pub profile: Profile,
    pub variables: ItemList<VarDef>,
    pub literals: ItemList<Bits>,
    pub texts: ItemList<Text>,
    pub procedures: ItemList<ProcDef>,
    pub actions: ItemList<ActionDef>,
    pub instrs: ItemList<Instr>,
}

/// A code whose fields are in their ranges, and whose file is not too long. Contracts see it as its lists.
#[derive(Drop)]
pub struct RawCode {
    lists: CodeLists,
}

impl Model for RawCode {
    ghost use Rattle.stapl_code.specs.declared.raw.CodeLists.{CodeLists};

    ghost Value = { CodeLists };

    ghost use Rattle.stapl_code.specs.Ranges.{IsInRange};
    ghost use Rattle.stapl_code.specs.Files.{IsShort};

    ghost view = { λ raw. raw.lists };

    ghost invariant = { λ raw. IsInRange raw.lists × IsShort raw.lists };
}

impl RawCode {
    /// The code of these lists. It takes no memory.
    pub fn of(lists: CodeLists) -> RawCode
        requires in_range { IsInRange lists }
        requires short { IsShort lists }
        ensures lists { result ≡ lists }
    {
        RawCode { lists }
    }

    /// Its lists.
    pub fn lists(&self) -> &CodeLists
        ensures lists { result.now ≡ self.now }
        ensures in_range { IsInRange self.now }
        ensures short { IsShort self.now }
    {
        &self.lists
    }
}
