//! The words of a question.
ghost use Rattle.std.specs.Prelude.{◌≡◌, ◌≤◌, ℕ, List, ◌∷◌, map, string_bytes, IfSome, IfNone, IfOk, IfErr};
ghost use Rattle.tool_questions.specs.Questions.{IsFileNamed, AreFileUsage, IsPartAsked, HasPartUsage};

use command_words::{number_under, path_under};

/// The words after the first, if that is this one.
pub fn words_after<'a>(first: &str, words: &'a [String]) -> Option<&'a [String]>
    ensures some { IfSome result (λ rest. map string_bytes words.now ≡ first.now ∷ map string_bytes rest.now) }
    ensures none { IfNone result ((rest : List (List ℕ)) → map string_bytes words.now ≡ first.now ∷ rest → ⊥) }
{
    let [word, rest @ ..] = words else {
        return None;
    };
    if word.as_str() == first {
        Some(rest)
    } else {
        None
    }
}

/// The highest number of a piece or a line that words may give.
const MOST_NUMBER: u32 = 4_294_967_295;

/// A part of a text that words ask for: its number, counted from 1, and the path of the text.
#[derive(Clone, Copy)]
pub(crate) struct PartAsked<'a> {
    pub(crate) number: u32,
    pub(crate) path: &'a str,
}

/// The path under this key in words that are the file alone, of which the first is the word of the command at this
/// place, counted from 1; or the first word of the command that is not as stated, or the number of words plus 1 if one
/// is missing.
pub(crate) fn path_asked<'a>(rest: &'a [String], key: &str, place: u32) -> Result<&'a str, u32>
    requires { place ≤ 3 }
    ensures named { IfOk result (λ path. IsFileNamed key.now (map string_bytes rest.now) path.now) }
    ensures usage { IfErr result (AreFileUsage key.now place (map string_bytes rest.now)) }
{
    let [file, more @ ..] = rest else {
        return Err(place);
    };
    let Some(path) = path_under(file.as_str(), key) else {
        return Err(place);
    };
    if !more.is_empty() {
        return Err(place + 1);
    }
    Ok(path)
}

/// The part that words ask for, which are its number and the file of the text under this key, from the second word of
/// the command on; or the first word of the command, counted from 1, that is not as stated, or the number of words plus
/// 1 if one is missing.
pub(crate) fn part_asked<'a>(rest: &'a [String], key: &str) -> Result<PartAsked<'a>, u32>
    ensures asked { IfOk result (λ asked. IsPartAsked key.now (map string_bytes rest.now) asked.number asked.path.now) }
    ensures usage { IfErr result (HasPartUsage key.now (map string_bytes rest.now)) }
{
    let [first, files @ ..] = rest else {
        return Err(2);
    };
    let Some(number) = number_under(first.as_str(), "", 0, MOST_NUMBER) else {
        return Err(2);
    };
    match path_asked(files, key, 3) {
        Ok(path) => Ok(PartAsked { number, path }),
        Err(n) => Err(n),
    }
}
