//! The table of blocks.
ghost use Rattle.std.specs.Prelude.{◌≡◌, Some, [], unwrap_or, OnOk, IfOk};
ghost use Rattle.std.specs.List.{position_or_len};
ghost use Rattle.std.specs.Map.{lookup};
ghost use Rattle.std.specs.Box.{box_value};
ghost use Rattle.std.specs.Option.{option_map};
ghost use Rattle.std.specs.Str.{bytes_eq};
ghost use Rattle.stapl_syntax.specs.Trees.{body_tree};
ghost use Rattle.stapl_syntax.specs.Names.{block_of_body, key_eq, firsts_after};
ghost use Rattle.stapl_names.specs.Tables.{HasBlock, AreUsed, places_from};

use crate::tables::put;
use base::ItemList;
use indexmap::IndexMap;
use stapl_lexer::Name;
use stapl_syntax::{Block, Body, Key};
use std::alloc::{AllocError, Global};

/// The blocks, each by the first piece that declares it, and the places of the names in their USES.
#[derive(Drop)]
pub(crate) struct Blocks {
    pub(crate) table: IndexMap<Name, Block>,
    /// The first place of a name in the USES of a block, counted from 0.
    pub(crate) used: IndexMap<Key, usize>,
}

// The names after USES.
fn copied_uses(
    alloc: Global,
    uses: &Option<Box<ItemList<Name>>>,
) -> Result<ItemList<Name>, AllocError>
    ensures { IfOk result (λ names. names ≡ unwrap_or (option_map box_value uses.now) []) }
{
    match uses {
        Some(names) => {
            let copied = names.as_slice().to_vec(alloc)?;
            Ok(ItemList::of(copied))
        }
        None => Ok(ItemList::of(Vec::new(alloc))),
    }
}

// Puts the first place of each name in the USES of a block.
fn put_uses(used: &mut IndexMap<Key, usize>, own: &Name, uses: &[Name]) -> Result<(), AllocError>
    ensures { OnOk result (used.new.entries ≡ firsts_after key_eq used.old.entries (places_from own.now 0 uses.now)) }
{
    for place in 0..uses.len() {
        let key = Key {
            block: *own,
            name: uses[place],
        };
        put(used, key, place)?;
    }
    Ok(())
}

impl Blocks {
    // Puts a block last, if none of its name is there yet.
    fn put(&mut self, block: Block) -> Result<(), AllocError>
        requires { AreUsed self.old }
        ensures table { OnOk result (HasBlock self.old (Some (block.name, block)) self.new) }
        ensures used { OnOk result (AreUsed self.new) }
    {
        let name = block.name;
        if !self.table.contains_key(&name) {
            put_uses(&mut self.used, &name, block.uses.as_slice())?;
            self.table.insert(name, block)?;
        }
        Ok(())
    }

    /// Puts the block that the statement of a piece begins, if it begins one.
    pub(crate) fn put_begun(
        &mut self,
        alloc: Global,
        number: u32,
        body: &Body,
    ) -> Result<(), AllocError>
        requires { AreUsed self.old }
        ensures table { OnOk result (HasBlock self.old (block_of_body number (body_tree body.now)) self.new) }
        ensures used { OnOk result (AreUsed self.new) }
    {
        match body {
            Body::Procedure(name, uses) => {
                let uses = copied_uses(alloc, uses)?;
                self.put(Block {
                    name: *name,
                    piece: number,
                    is_data: false,
                    uses,
                })?;
                Ok(())
            }
            Body::Data(name) => {
                self.put(Block {
                    name: *name,
                    piece: number,
                    is_data: true,
                    uses: ItemList::of(Vec::new(alloc)),
                })?;
                Ok(())
            }
            _ => Ok(()),
        }
    }

    /// The first place of a name in the USES of a block, or the length of those.
    #[tactic(auto, using(crate::proofs::Uses::place_of_use))]
    pub(crate) fn place_in(&self, block: &Block, name: &Name) -> usize
        requires used { AreUsed self.now }
        requires there { lookup (bytes_eq block.now.name) self.now.table.entries ≡ Some block.now }
        ensures { result ≡ position_or_len (bytes_eq name.now) block.now.uses }
    {
        let key = Key {
            block: block.name,
            name: *name,
        };
        self.used.get(&key).copied().unwrap_or(block.uses.len())
    }
}
