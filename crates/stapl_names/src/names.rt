//! The names of a program, and what a name of a variable stands for.
ghost use Rattle.std.specs.Prelude.{◌≡◌, ◌<◌, ◌^◌, ◌-◌, Some, None, length, map, position, slice_get, drop, IfOk, IfSome};
ghost use Rattle.std.specs.List.{position_or_len};
ghost use Rattle.std.specs.Map.{lookup, keys_of};
ghost use Rattle.std.specs.Option.{option_map};
ghost use Rattle.std.specs.Str.{bytes_eq};
ghost use Rattle.stapl_syntax.specs.Trees.{stmt_tree};
ghost use Rattle.stapl_syntax.specs.Names.{names_of, with_numbers, key_in, key_eq, block_named, variable_number, found_in, found_from};
ghost use Rattle.stapl_names.specs.Tables.{block_name, blocks_used, variable_of_block, label_of_block, numbers_from, StandsIn};

use crate::tables::{Tables, inside_next, number_of};
use stapl_lexer::Name;
use stapl_syntax::{Block, Found, Key, Stmt, Variable};
use std::alloc::{AllocError, Global};
use std::marker::Model;

/// The names of a program, which contracts see as `Names` of `stapl_syntax`: its blocks, actions, variables and
/// labels, each by the first piece that declares it, in the order of these pieces.
#[derive(Drop)]
pub struct Names {
    tables: Tables,
}

impl Model for Names {
    ghost use Rattle.stapl_syntax.specs.Names as program;

    ghost Value = { program.Names };

    ghost use Rattle.stapl_names.specs.Tables.{names_in, AreFinished};

    ghost view = { λ n. names_in n.tables };

    ghost invariant = { λ n. AreFinished n.tables };
}

/// The names that these statements declare, each statement with the number of its piece. `AllocError` comes only for
/// want of memory.
pub fn collect(alloc: Global, pieces: &[u32], stmts: &[Stmt]) -> Result<Names, AllocError>
    requires alike { length pieces.now ≡ length stmts.now }
    requires few { length stmts.now < 2 ^ 32 - 1 }
    ensures { IfOk result (λ names. names ≡ names_of (with_numbers pieces.now (map stmt_tree stmts.now))) }
{
    let mut tables = Tables::empty(alloc);
    let mut inside = None;
    for i in 0..stmts.len() {
        let number = pieces[i];
        let st = &stmts[i];
        match tables.put_statement(alloc, &inside, number, st) {
            Ok(()) => {}
            Err(error) => {
                // Dropped by a call, which is cheap to prove for a struct of many tables.
                drop(tables);
                return Err(error);
            }
        }
        inside = inside_next(&inside, &st.body);
    }
    Ok(Names { tables })
}

impl Names {
    /// How many blocks there are.
    pub fn blocks(&self) -> u32
        ensures { result ≡ length self.now.blocks }
    {
        self.tables.blocks.table.len() as u32
    }

    /// How many variables there are.
    pub fn variables(&self) -> u32
        ensures { result ≡ length self.now.variables }
    {
        self.tables.variables.table.len() as u32
    }

    /// The number of the block of this name, counted from 0 in the order of the first declarations.
    #[tactic(auto, using(crate::proofs::Positions::named_there))]
    pub fn block(&self, name: &Name) -> Option<u32>
        ensures number { result ≡ position (bytes_eq name.now) (keys_of self.now.blocks) }
        ensures within { IfSome result (λ number. number < length self.now.blocks) }
        ensures named { IfSome result (λ number. block_name self.now number ≡ Some name.now) }
    {
        number_of(&self.tables.blocks.table, name)
    }

    /// The block with this number.
    pub fn block_at(&self, number: u32) -> &Block
        requires { number < length self.now.blocks }
        ensures entry { slice_get self.now.blocks number ≡ Some (result.now.name, result.now) }
        ensures named { block_named self.now result.now.name ≡ Some result.now }
    {
        match self.tables.blocks.table.get_index(number as usize) {
            Some((_, block)) => block,
            None => unreachable!(),
        }
    }

    /// The piece that declares the action of this name first (JESD71, ACTION), counted from 1.
    pub fn action(&self, name: &Name) -> Option<u32>
        ensures { result ≡ lookup (bytes_eq name.now) self.now.actions }
    {
        self.tables.actions.get(name).copied()
    }

    /// The piece that declares the label of this name first in a block, counted from 1.
    pub fn label(&self, from: u32, name: &Name) -> Option<u32>
        requires { from < length self.now.blocks }
        ensures { result ≡ label_of_block self.now from name.now }
    {
        let key = Key {
            block: self.block_at(from).name,
            name: *name,
        };
        self.tables.labels.get(&key).copied()
    }

    /// The number of the variable of this name that a block itself declares, counted from 0 as blocks are.
    pub fn variable_of(&self, from: u32, name: &Name) -> Option<u32>
        requires { from < length self.now.blocks }
        ensures number { result ≡ variable_of_block self.now from name.now }
        ensures within { IfSome result (λ number. number < length self.now.variables) }
    {
        self.number_in(&self.block_at(from).name, name)
    }

    /// The variable with this number.
    pub fn variable(&self, number: u32) -> &Variable
        requires { number < length self.now.variables }
        ensures { slice_get self.now.variables number ≡ Some (result.now.key, result.now) }
    {
        match self.tables.variables.table.get_index(number as usize) {
            Some((_, variable)) => variable,
            None => unreachable!(),
        }
    }

    /// What a name of a variable stands for in a block: a variable of the block itself, else of the first block in its
    /// USES that declares one (JESD71, PROCEDURE; that the own block comes first is this profile's). It takes as many
    /// steps as the shorter of two lists has items: the USES of the block, and the blocks that declare the name.
    pub fn look_up(&self, from: u32, name: &Name) -> Found
        requires { from < length self.now.blocks }
        ensures found { result ≡ found_from self.now (block_name self.now from) name.now }
        ensures within { StandsIn self.now result }
    {
        let block = self.block_at(from);
        match self.number_in(&block.name, name) {
            Some(number) => Found::Variable(number),
            None => self.look_in_used(block, name),
        }
    }

    /// What a name of a variable stands for outside blocks, where no variable is visible.
    pub fn look_up_outside(&self, name: &Name) -> Found
        ensures found { result ≡ found_from self.now None name.now }
        ensures within { StandsIn self.now result }
    {
        if self.tables.variables.is_spelled(name) {
            Found::Hidden
        } else {
            Found::Absent
        }
    }

    /// What a name of a variable stands for inside the block of a name, or outside blocks. It takes as many steps as
    /// `look_up`.
    pub fn found(&self, inside: &Option<Name>, name: &Name) -> Found
        ensures { result ≡ found_from self.now inside.now name.now }
    {
        let Some(own) = inside else {
            return self.look_up_outside(name);
        };
        match self.number_in(own, name) {
            Some(number) => Found::Variable(number),
            None => self.found_in_used(own, name),
        }
    }

    /// The piece that declares the label of this name first in the block of a name, counted from 1.
    pub fn label_in(&self, block: &Name, name: &Name) -> Option<u32>
        ensures { result ≡ lookup (key_eq (key_in block.now name.now)) self.now.labels }
    {
        let key = Key {
            block: *block,
            name: *name,
        };
        self.tables.labels.get(&key).copied()
    }

    // The number of the variable of a name that the block of another name declares.
    fn number_in(&self, block: &Name, name: &Name) -> Option<u32>
        ensures number { result ≡ variable_number self.now block.now name.now }
        ensures within { IfSome result (λ number. number < length self.now.variables) }
    {
        let key = Key {
            block: *block,
            name: *name,
        };
        number_of(&self.tables.variables.table, &key)
    }

    // The name of the block that declares the variable with this number.
    fn block_of(&self, number: usize) -> &Name
        requires { number < length self.now.variables }
        ensures { option_map (λ e. e.0.block) (slice_get self.now.variables number) ≡ Some result.now }
    {
        match self.tables.variables.table.get_index(number) {
            Some((key, _)) => &key.block,
            None => unreachable!(),
        }
    }

    // What a name stands for, if these blocks are searched from a place on.
    fn look_in(&self, blocks: &[Name], from: usize, name: &Name) -> Found
        ensures found { result ≡ found_in self.now (drop from blocks.now) name.now }
        ensures within { StandsIn self.now result }
    {
        for i in from..blocks.len() {
            match self.number_in(&blocks[i], name) {
                Some(number) => return Found::Variable(number),
                None => {}
            }
        }
        self.look_up_outside(name)
    }

    // What a name stands for in the blocks that the block of a name uses.
    #[tactic(auto, using(crate::proofs::Positions::unlisted, crate::proofs::Positions::used_by))]
    fn found_in_used(&self, own: &Name, name: &Name) -> Found
        ensures { result ≡ found_in self.now (blocks_used self.now own.now) name.now }
    {
        match self.block(own) {
            Some(number) => self.look_in_used(self.block_at(number), name),
            None => self.look_up_outside(name),
        }
    }

    // The numbers of the variables of a name, whatever their blocks.
    fn numbers_of(&self, name: &Name) -> &[usize]
        ensures { result.now ≡ numbers_from name.now 0 self.now.variables }
    {
        self.tables.variables.of_name(name)
    }

    // The first place of a name in the USES of a block, or the length of those.
    fn place_in(&self, block: &Block, name: &Name) -> usize
        requires { block_named self.now block.now.name ≡ Some block.now }
        ensures { result ≡ position_or_len (bytes_eq name.now) block.now.uses }
    {
        self.tables.blocks.place_in(block, name)
    }

    // A place in the USES of a block before which no block declares the name, found through the blocks that do.
    fn first_place(&self, block: &Block, name: &Name) -> usize
        requires { block_named self.now block.now.name ≡ Some block.now }
        ensures { found_in self.now (drop result block.now.uses) name.now ≡ found_in self.now block.now.uses name.now }
    {
        let mut first = block.uses.len();
        for number in self.numbers_of(name) {
            let place = self.place_in(block, self.block_of(*number));
            first = first.min(place);
        }
        first
    }

    // What a name stands for in the blocks that a block uses. The shorter list is searched: those, or the blocks that
    // declare the name.
    fn look_in_used(&self, block: &Block, name: &Name) -> Found
        requires { block_named self.now block.now.name ≡ Some block.now }
        ensures found { result ≡ found_in self.now block.now.uses name.now }
        ensures within { StandsIn self.now result }
    {
        let uses = block.uses.as_slice();
        if self.numbers_of(name).len() < uses.len() {
            self.look_in(uses, self.first_place(block, name), name)
        } else {
            self.look_in(uses, 0, name)
        }
    }
}
