//! What words have given, as values that outlive them.
ghost use Rattle.std.specs.Prelude.{◌≡◌, IfOk};
ghost use Rattle.std.specs.Option.{option_map};
ghost use Rattle.command_words.specs.KeyedWords.{names_in, names_or_none};

use crate::FileName;
use crate::spellings::name_spelled;
use base::ItemList;
use stapl_lexer::Name;
use std::alloc::{AllocError, Global};

/// The name of a file at a path, if there is one.
pub fn file_named(alloc: Global, path: Option<&str>) -> Result<Option<FileName>, AllocError>
    ensures { IfOk result (λ name. name ≡ option_map (λ text. text.now) path.entry) }
{
    match path {
        Some(path) => Ok(Some(FileName::of(alloc, path)?)),
        None => Ok(None),
    }
}

/// The names in a text, which commas separate, if there is a text.
pub fn names_given(alloc: Global, spelling: Option<&str>) -> Result<ItemList<Name>, AllocError>
    ensures { IfOk result (λ names.
        names ≡ names_or_none (option_map (λ text. names_in text.now) spelling.entry)) }
{
    match spelling {
        Some(spelling) => Ok(ItemList::of(names_in(alloc, spelling)?)),
        None => Ok(ItemList::of(Vec::new(alloc))),
    }
}

// The names in a text between commas.
fn names_in(alloc: Global, spelling: &str) -> Result<Vec<Name>, AllocError>
    ensures { IfOk result (λ names. names.items ≡ names_in spelling.now) }
{
    spelling
        .split(',')
        .filter_map(|part| name_spelled(part))
        .collect(alloc)
}
