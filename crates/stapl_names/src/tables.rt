//! The tables of names, and what a statement puts into them.
ghost use Rattle.std.specs.Prelude.{◌≡◌, ◌<◌, ◌^◌, length, position, [], OnOk, IfSome};
ghost use Rattle.std.specs.Map.{keys_of};
ghost use Rattle.std.specs.Box.{box_value};
ghost use Rattle.std.specs.Option.{option_map};
ghost use Rattle.std.specs.Str.{bytes_eq};
ghost use Rattle.stapl_syntax.specs.Trees.{body_tree, stmt_tree};
ghost use Rattle.stapl_syntax.specs.Names.{inside_next, action_of_body, label_in, key_eq, put_first};
ghost use Rattle.stapl_names.specs.Tables.{HasPutEntry, AreUsed, AreSpelled, PutsNames};

use crate::blocks::Blocks;
use crate::variables::Variables;
use indexmap::IndexMap;
use stapl_lexer::Name;
use stapl_syntax::{Body, Key, Stmt};
use std::alloc::{AllocError, Global};
use std::hash::Hash;

/// The tables.
#[derive(Drop)]
pub(crate) struct Tables {
    pub(crate) blocks: Blocks,
    pub(crate) actions: IndexMap<Name, u32>,
    pub(crate) variables: Variables,
    pub(crate) labels: IndexMap<Key, u32>,
}

/// PutsNames an entry last, if none has its key yet.
#[tactic(auto, using(crate::proofs::Puts::put_new))]
pub(crate) fn put<K: Eq + Hash + Drop, V: Drop>(
    map: &mut IndexMap<K, V>,
    key: K,
    value: V,
) -> Result<(), AllocError>
    ensures { OnOk result (map.new.entries ≡ put_first K.eq map.old.entries (key, value)) }
{
    if !map.contains_key(&key) {
        map.insert(key, value)?;
    }
    Ok(())
}

/// The number of the entry with this key.
pub(crate) fn number_of<K: Eq + Hash + Drop, V: Drop>(map: &IndexMap<K, V>, key: &K) -> Option<u32>
    requires { length map.now.entries < 2 ^ 32 }
    ensures number { result ≡ position (K.eq key.now) (keys_of map.now.entries) }
    ensures within { IfSome result (λ number. number < length map.now.entries) }
{
    match map.get_index_of(key) {
        Some(number) => Some(number as u32),
        None => None,
    }
}

/// The block that is open after a statement, if this one was open before it.
pub fn inside_next(inside: &Option<Name>, body: &Body) -> Option<Name>
    ensures { result ≡ inside_next inside.now (body_tree body.now) }
{
    match body {
        Body::Procedure(name, _) => Some(*name),
        Body::Data(name) => Some(*name),
        Body::EndProcedure => None,
        Body::EndData => None,
        _ => *inside,
    }
}

// PutsNames the action that a statement declares.
fn put_action(actions: &mut IndexMap<Name, u32>, number: u32, body: &Body) -> Result<(), AllocError>
    ensures { OnOk result (HasPutEntry bytes_eq actions.old (action_of_body number (body_tree body.now)) actions.new) }
{
    match body {
        Body::Action(name, _, _) => {
            put(actions, **name, number)?;
            Ok(())
        }
        _ => Ok(()),
    }
}

// PutsNames the label of a statement in the open block.
fn put_label(
    labels: &mut IndexMap<Key, u32>,
    inside: &Option<Name>,
    number: u32,
    label: &Option<Box<Name>>,
) -> Result<(), AllocError>
    ensures { OnOk result (HasPutEntry key_eq labels.old (label_in inside.now number (option_map box_value label.now)) labels.new) }
{
    let Some(block) = inside else {
        return Ok(());
    };
    let Some(name) = label else {
        return Ok(());
    };
    put(
        labels,
        Key {
            block: *block,
            name: **name,
        },
        number,
    )?;
    Ok(())
}

impl Tables {
    /// No names.
    pub(crate) fn empty(alloc: Global) -> Tables
        ensures blocks { result.blocks.table.entries ≡ [] }
        ensures actions { result.actions.entries ≡ [] }
        ensures variables { result.variables.table.entries ≡ [] }
        ensures labels { result.labels.entries ≡ [] }
        ensures used { AreUsed result.blocks }
        ensures spelled { AreSpelled result.variables }
    {
        Tables {
            blocks: Blocks {
                table: IndexMap::new(alloc),
                used: IndexMap::new(alloc),
            },
            actions: IndexMap::new(alloc),
            variables: Variables {
                table: IndexMap::new(alloc),
                spelled: IndexMap::new(alloc),
            },
            labels: IndexMap::new(alloc),
        }
    }

    /// PutsNames what the statement of the piece with this number declares, if this block is open before it.
    pub(crate) fn put_statement(
        &mut self,
        alloc: Global,
        inside: &Option<Name>,
        number: u32,
        st: &Stmt,
    ) -> Result<(), AllocError>
        requires used { AreUsed self.old.blocks }
        requires spelled { AreSpelled self.old.variables }
        ensures { OnOk result (PutsNames inside.now number (stmt_tree st.now) self.old self.new) }
    {
        self.blocks.put_begun(alloc, number, &st.body)?;
        put_action(&mut self.actions, number, &st.body)?;
        self.variables
            .put_declared(alloc, inside, number, st.body.declaration())?;
        put_label(&mut self.labels, inside, number, &st.label)?;
        Ok(())
    }
}
