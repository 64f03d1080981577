//! The table of variables.
ghost use Rattle.std.specs.Prelude.{◌≡◌, Some, OnOk};
ghost use Rattle.std.specs.List.{list_any};
ghost use Rattle.std.specs.Str.{bytes_eq};
ghost use Rattle.stapl_syntax.specs.Names.{variable_in};
ghost use Rattle.stapl_names.specs.Tables.{HasNumber, HasVariable, AreSpelled, numbers_from};

use base::ItemList;
use indexmap::IndexMap;
use stapl_lexer::Name;
use stapl_syntax::{Declaration, Key, Variable};
use std::alloc::{AllocError, Global};

/// The variables, each by the first piece that declares it, and their numbers by name alone.
#[derive(Drop)]
pub(crate) struct Variables {
    pub(crate) table: IndexMap<Key, Variable>,
    /// For each name the numbers of its variables, one for each block that declares one.
    pub(crate) spelled: IndexMap<Name, ItemList<usize>>,
}

// Adds a number to those of a name, which are taken out and put back.
fn spell(
    spelled: &mut IndexMap<Name, ItemList<usize>>,
    alloc: Global,
    name: Name,
    number: usize,
) -> Result<(), AllocError>
    ensures { OnOk result (HasNumber spelled.old name number spelled.new) }
{
    let mut numbers = match spelled.swap_remove(&name) {
        Some(numbers) => numbers.into_items(),
        // Most names are those of one variable, for which a vector that grows by itself takes room for four.
        None => Vec::with_capacity(alloc, 1)?,
    };
    numbers.push(number)?;
    spelled.insert(name, ItemList::of(numbers))?;
    Ok(())
}

impl Variables {
    // Puts a variable last, if its block declares none of its name yet.
    fn put(&mut self, alloc: Global, variable: Variable) -> Result<(), AllocError>
        requires { AreSpelled self.old }
        ensures table { OnOk result (HasVariable self.old (Some (variable.key, variable)) self.new) }
        ensures spelled { OnOk result (AreSpelled self.new) }
    {
        let key = variable.key;
        if !self.table.contains_key(&key) {
            let number = self.table.len();
            spell(&mut self.spelled, alloc, key.name, number)?;
            self.table.insert(key, variable)?;
        }
        Ok(())
    }

    /// Puts the variable that the statement of a piece declares, if it declares one, in the open block.
    pub(crate) fn put_declared(
        &mut self,
        alloc: Global,
        inside: &Option<Name>,
        number: u32,
        declaration: Option<Declaration>,
    ) -> Result<(), AllocError>
        requires { AreSpelled self.old }
        ensures table { OnOk result (HasVariable self.old (variable_in inside.now number declaration) self.new) }
        ensures spelled { OnOk result (AreSpelled self.new) }
    {
        let Some(block) = inside else {
            return Ok(());
        };
        let Some(declared) = declaration else {
            return Ok(());
        };
        self.put(
            alloc,
            Variable {
                key: Key {
                    block: *block,
                    name: declared.name,
                },
                piece: number,
                kind: declared.kind,
                size: declared.size,
            },
        )?;
        Ok(())
    }

    /// The numbers of the variables of a name, whatever their blocks.
    pub(crate) fn of_name(&self, name: &Name) -> &[usize]
        requires { AreSpelled self.now }
        ensures { result.now ≡ numbers_from name.now 0 self.now.table.entries }
    {
        match self.spelled.get(name) {
            Some(numbers) => numbers.as_slice(),
            None => &[],
        }
    }

    /// Whether some block declares a variable of the name.
    #[tactic(auto, using(crate::proofs::Spelled::numbers_any))]
    pub(crate) fn is_spelled(&self, name: &Name) -> bool
        requires { AreSpelled self.now }
        ensures { result ≡ list_any (λ e. bytes_eq name.now e.0.name) self.now.table.entries }
    {
        !self.of_name(name).is_empty()
    }
}
