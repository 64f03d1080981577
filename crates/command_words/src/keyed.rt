//! Words with a value under a key. The key is given with its equals sign.
ghost use Rattle.std.specs.Prelude.{ℕ, Bool, List, IfSome, IfNone};
ghost use Rattle.command_words.specs.KeyedWords.{NamesPath, NamesFreeName, names_in, NamesList, NamesNumber, NamesRun, SaysAnswer};
ghost use Rattle.command_words.specs.declared.place_run.PlaceRun.{PlaceRun};

use crate::PlaceRun;
use crate::spellings::{answer_spelled, spelled_number, spelled_run, spells_names};
use stapl_lexer::Name;

/// The path that a word gives under a key. It is not empty.
pub fn path_under<'a>(word: &'a str, key: &str) -> Option<&'a str>
    ensures some { IfSome result (λ path. NamesPath key.now word.now path.now) }
    ensures none { IfNone result ((path : List ℕ) → NamesPath key.now word.now path → ⊥) }
{
    match word.strip_prefix(key) {
        Some(path) if !path.is_empty() => Some(path),
        _ => None,
    }
}

/// The name that a word gives under a key, which is not reserved.
pub fn free_name_under(word: &str, key: &str) -> Option<Name>
    ensures some { IfSome result (NamesFreeName key.now word.now) }
    ensures none { IfNone result ((name : List ℕ) → NamesFreeName key.now word.now name → ⊥) }
{
    match word.strip_prefix(key) {
        Some(spelling) => Name::read_free(spelling.as_bytes()),
        None => None,
    }
}

/// The names, as they are spelled, that a word gives under a key. They are joined by commas.
pub fn names_under<'a>(word: &'a str, key: &str) -> Option<&'a str>
    ensures some { IfSome result (λ spelling. NamesList key.now word.now (names_in spelling.now)) }
    ensures none { IfNone result ((names : List (List ℕ)) → NamesList key.now word.now names → ⊥) }
{
    match word.strip_prefix(key) {
        Some(spelling) if spells_names(spelling) => Some(spelling),
        _ => None,
    }
}

/// The number that a word gives under a key, if it lies between these two.
pub fn number_under(word: &str, key: &str, least: u32, most: u32) -> Option<u32>
    ensures some { IfSome result (NamesNumber key.now least most word.now) }
    ensures none { IfNone result ((n : ℕ) → NamesNumber key.now least most word.now n → ⊥) }
{
    match word.strip_prefix(key) {
        Some(spelling) => spelled_number(spelling, least, most),
        None => None,
    }
}

/// The run of places that a word gives under a key, as `2` or `2..3`, if none of them lies above the most. Places are
/// counted from 1, and the last one does not lie below the first.
pub fn run_under(word: &str, key: &str, most: u32) -> Option<PlaceRun>
    ensures some { IfSome result (NamesRun key.now most word.now) }
    ensures none { IfNone result ((run : PlaceRun) → NamesRun key.now most word.now run → ⊥) }
{
    match word.strip_prefix(key) {
        Some(spelling) => spelled_run(spelling, most),
        None => None,
    }
}

/// The yes or the no that a word gives under a key.
pub fn answer_under(word: &str, key: &str) -> Option<bool>
    ensures some { IfSome result (SaysAnswer key.now word.now) }
    ensures none { IfNone result ((answer : Bool) → SaysAnswer key.now word.now answer → ⊥) }
{
    match word.strip_prefix(key) {
        Some(spelling) => answer_spelled(spelling),
        None => None,
    }
}
