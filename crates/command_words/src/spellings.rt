//! Values as they are spelled after a key.
ghost use Rattle.std.specs.Prelude.{◌≡◌, ℕ, Bool, IfSome, IfNone};
ghost use Rattle.std.specs.List.{list_all};
ghost use Rattle.stapl_lexer.specs.ReservedWords.{is_free_name};
ghost use Rattle.command_words.specs.KeyedWords.{parts_between_commas, name_spelled, SpellsNumber, SpellsRun, answer_word};
ghost use Rattle.command_words.specs.declared.place_run.PlaceRun.{PlaceRun};

use crate::PlaceRun;
use base::is_decimal;
use stapl_lexer::Name;

// Whether a text spells names, joined by commas.
pub(crate) fn spells_names(spelling: &str) -> bool
    ensures { result ≡ list_all is_free_name (parts_between_commas spelling.now) }
{
    spelling.split(',').all(|part| is_free_name(part))
}

// Whether a text spells a name that is not reserved.
fn is_free_name(spelling: &str) -> bool
    ensures { result ≡ is_free_name spelling.now }
{
    Name::read_free(spelling.as_bytes()).is_some()
}

// The name that a text spells, if it spells one that is not reserved.
pub(crate) fn name_spelled(spelling: &str) -> Option<Name>
    ensures { result ≡ name_spelled spelling.now }
{
    Name::read_free(spelling.as_bytes())
}

// The number that a text spells, if it lies between these two.
pub(crate) fn spelled_number(spelling: &str, least: u32, most: u32) -> Option<u32>
    ensures some { IfSome result (SpellsNumber least most spelling.now) }
    ensures none { IfNone result ((n : ℕ) → SpellsNumber least most spelling.now n → ⊥) }
{
    if !is_decimal(spelling.as_bytes()) {
        return None;
    }
    let Ok(number) = spelling.parse::<u32>() else {
        return None;
    };
    if number < least || most < number {
        return None;
    }
    Some(number)
}

// The run of places that a text spells, if none of them lies above the most: a place, or two with two dots between them.
pub(crate) fn spelled_run(spelling: &str, most: u32) -> Option<PlaceRun>
    ensures some { IfSome result (SpellsRun most spelling.now) }
    ensures none { IfNone result ((run : PlaceRun) → SpellsRun most spelling.now run → ⊥) }
{
    let Some((front, back)) = spelling.split_once("..") else {
        let place = spelled_number(spelling, 1, most)?;
        return Some(PlaceRun::only(place));
    };
    let first = spelled_number(front, 1, most)?;
    let last = spelled_number(back, first, most)?;
    Some(PlaceRun { first, last })
}

// Whether a text is a yes or a no.
pub(crate) fn answer_spelled(spelling: &str) -> Option<bool>
    ensures some { IfSome result (λ answer. spelling.now ≡ answer_word answer) }
    ensures none { IfNone result ((answer : Bool) → spelling.now ≡ answer_word answer → ⊥) }
{
    match spelling {
        "yes" => Some(true),
        "no" => Some(false),
        _ => None,
    }
}
