//! Actions with the new item.
ghost use Rattle.std.specs.Prelude.{◌≡◌, ◌∷◌, None, IfOk, MatchOption};
ghost use Rattle.std.specs.Box.{box_value};
ghost use Rattle.std.specs.Option.{option_map};
ghost use Rattle.stapl_syntax.specs.Trees.{stmt_tree};
ghost use Rattle.carried_plays.specs.CarriedPrograms.{with_item};

use base::ItemList;
use stapl_lexer::Name;
use stapl_syntax::{Body, Item, Stmt};
use std::alloc::{AllocError, Global};

fn copied_label(alloc: Global, label: &Option<Box<Name>>) -> Result<Option<Box<Name>>, AllocError>
    ensures { IfOk result (λ copy. option_map box_value copy ≡ option_map box_value label.now) }
{
    match label {
        Some(name) => Ok(Some(Box::new(alloc, **name)?)),
        None => Ok(None),
    }
}

fn copied_text(
    alloc: Global,
    text: &Option<ItemList<u8>>,
) -> Result<Option<ItemList<u8>>, AllocError>
    ensures { IfOk result (λ copy. copy ≡ text.now) }
{
    match text {
        Some(bytes) => {
            let copied = bytes.as_slice().to_vec(alloc)?;
            Ok(Some(ItemList::of(copied)))
        }
        None => Ok(None),
    }
}

// The items of an action after the new one, which has no choice: its procedure always runs.
fn items_after(alloc: Global, name: &Name, items: &[Item]) -> Result<ItemList<Item>, AllocError>
    ensures { IfOk result (λ all. all ≡ record { procedure = name.now; choice = None } ∷ items.now) }
{
    let mut all = Vec::new(alloc);
    all.push(Item {
        procedure: *name,
        choice: None,
    })?;
    all.extend_from_slice(items)?;
    Ok(ItemList::of(all))
}

/// What stands for a statement in the new program, if it is another one: an action with the procedure of this name as
/// its first item.
pub(crate) fn changed(
    alloc: Global,
    statement: &Stmt,
    name: &Name,
) -> Result<Option<Stmt>, AllocError>
    ensures { IfOk result (λ new. MatchOption new
        (with_item name.now (stmt_tree statement.now) ≡ stmt_tree statement.now)
        (λ other. stmt_tree other ≡ with_item name.now (stmt_tree statement.now))) }
{
    let Body::Action(own, text, items) = &statement.body else {
        return Ok(None);
    };
    let label = copied_label(alloc, &statement.label)?;
    let own = Box::new(alloc, **own)?;
    let text = copied_text(alloc, text)?;
    let items = Box::new(alloc, items_after(alloc, name, items.as_slice())?)?;
    Ok(Some(Stmt {
        label,
        body: Body::Action(own, text, items),
    }))
}
