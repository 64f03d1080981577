//! The procedures of an action that run.
ghost use Rattle.std.specs.Prelude.{◌≡◌, ◌==◌, ◌&&◌, length, Some, None, IfOk, IsErrOf};
ghost use Rattle.std.specs.Option.{option_map};
ghost use Rattle.std.specs.List.{find, list_any};
ghost use Rattle.std.specs.Str.{bytes_eq};
ghost use Rattle.stapl_meaning.specs.Choices.{no_action, bad_choice, chosen};
ghost use Rattle.stapl_code.specs.Safe.{AllBelow};
ghost use Rattle.stapl_player.specs.declared.choosing.ChoiceRefused.TheVariants.{Memory};
ghost use Rattle.stapl_player.specs.Choices.{bears, bears_one, runs, running, are_offered, code_choice};

use stapl_code::{ActionDef, ItemDef, ProcDef};
use stapl_lexer::Name;
use std::alloc::{AllocError, Global};
use thiserror::Error;
use valid_codes::Code;

/// Why no procedures are chosen: `NoAction` if the code has no action of that name, else `BadChoice` if a name cannot
/// be chosen, or `Memory` for want of memory alone.
#[derive(Clone, Copy, Debug, PartialEq, Eq, Error)]
pub enum ChoiceRefused {
    #[error("there is no action of that name")]
    NoAction,
    #[error("a name is not that of such a procedure of the action")]
    BadChoice,
    #[error("out of memory")]
    Memory,
}

impl From<AllocError> for ChoiceRefused {
    ghost from_gives = { λ _ refused. refused ≡ Memory };

    fn from(_: AllocError) -> ChoiceRefused {
        ChoiceRefused::Memory
    }
}

// The flags of items that run only if they are asked for, and of those that may be left out.
const OPTIONAL: u8 = 1;

const RECOMMENDED: u8 = 2;

// Whether the procedure of an item bears this name.
fn bears(procedures: &[ProcDef], name: &Name, item: &ItemDef) -> bool
    ensures { result ≡ bears procedures.now name.now item.now }
{
    match procedures.get(item.procedure as usize) {
        Some(procedure) => *name == procedure.name,
        None => false,
    }
}

// Whether it bears one of these names.
fn bears_one(procedures: &[ProcDef], names: &[Name], item: &ItemDef) -> bool
    ensures { result ≡ bears_one procedures.now names.now item.now }
{
    names.iter().any(|name| bears(procedures, name, item))
}

// Whether an item runs.
fn runs(procedures: &[ProcDef], asked: &[Name], skipped: &[Name], item: &ItemDef) -> bool
    ensures { result ≡ runs procedures.now asked.now skipped.now item.now }
{
    match item.flag {
        OPTIONAL => bears_one(procedures, asked, item),
        RECOMMENDED => !bears_one(procedures, skipped, item),
        _ => true,
    }
}

// The procedures of the items that run, by number.
fn running(
    alloc: Global,
    procedures: &[ProcDef],
    asked: &[Name],
    skipped: &[Name],
    items: &[ItemDef],
) -> Result<Vec<u32>, AllocError>
    ensures { IfOk result (λ chosen. chosen.items ≡ running procedures.now asked.now skipped.now items.now) }
{
    items
        .iter()
        .filter(|item| runs(procedures, asked, skipped, item))
        .map(|item| item.procedure)
        .collect(alloc)
}

// Whether a name is that of the procedure of an item with this flag.
fn is_offered(procedures: &[ProcDef], flag: u8, items: &[ItemDef], name: &Name) -> bool
    ensures { result ≡ list_any (λ item. (item.flag == flag) && bears procedures.now name.now item) items.now }
{
    items
        .iter()
        .any(|item| item.flag == flag && bears(procedures, name, item))
}

// Whether each name is.
fn are_offered(procedures: &[ProcDef], flag: u8, items: &[ItemDef], names: &[Name]) -> bool
    ensures { result ≡ are_offered procedures.now flag items.now names.now }
{
    names
        .iter()
        .all(|name| is_offered(procedures, flag, items, name))
}

// The action of a name.
fn find_action<'a>(actions: &'a [ActionDef], name: &Name) -> Option<&'a ActionDef>
    ensures { option_map (λ action. action.now) result ≡ find (λ (a : ActionDef). bytes_eq name.now a.name) actions.now }
{
    actions.iter().find(|action| *name == action.name)
}

/// The procedures of an action that run, by number, in the order of its items: all but the OPTIONAL ones that are not
/// asked for and the RECOMMENDED ones that are left out.
///
/// Each name of `asked` has to be that of an OPTIONAL procedure of the action, and each of `skipped` that of a
/// RECOMMENDED one; else the answer is `BadChoice`. The time is that of the items times the names.
pub fn choose(
    alloc: Global,
    code: &Code,
    action: &Name,
    asked: &[Name],
    skipped: &[Name],
) -> Result<Vec<u32>, ChoiceRefused>
    ensures ok { IfOk result (λ procedures. code_choice code.now action.now asked.now skipped.now ≡ chosen procedures.items) }
    ensures below { IfOk result (λ procedures. AllBelow (length code.now.procedures) procedures.items) }
    ensures action { IsErrOf result ChoiceRefused.NoAction →
        code_choice code.now action.now asked.now skipped.now ≡ no_action }
    ensures choice { IsErrOf result ChoiceRefused.BadChoice →
        code_choice code.now action.now asked.now skipped.now ≡ bad_choice }
{
    let lists = code.raw().lists();
    let procedures = lists.procedures.as_slice();
    let Some(found) = find_action(lists.actions.as_slice(), action) else {
        return Err(ChoiceRefused::NoAction);
    };
    let items = found.items.as_slice();
    let are_good = are_offered(procedures, OPTIONAL, items, asked)
        && are_offered(procedures, RECOMMENDED, items, skipped);
    if !are_good {
        return Err(ChoiceRefused::BadChoice);
    }
    let running = running(alloc, procedures, asked, skipped, items)?;
    Ok(running)
}
