//! The words of a command on a board and one more file.
ghost use Rattle.std.specs.Prelude.{ℕ, List, map, slice_get, string_bytes, IsSomeAnd, IfSome, IfNone, IfOk, IfErr};
ghost use Rattle.command_words.specs.KeyedWords.{NamesPath};
ghost use Rattle.named_files.specs.Words.{NamesAt, IsRequest, IsUsage};
ghost use Rattle.named_files.specs.Named.{files_named};

use command_words::path_under;

/// The files that the words name.
#[derive(Clone, Copy)]
pub struct Named<'a> {
    pub board: &'a str,
    pub file: &'a str,
}

/// The path that the word at a place, counted from 0, gives under a key, if the word is there and gives one.
pub fn path_at<'a>(words: &'a [String], place: usize, key: &str) -> Option<&'a str>
    ensures some { IfSome result (λ path. NamesAt key.now (map string_bytes words.now) place path.now) }
    ensures none { IfNone result ((path : List ℕ) → NamesAt key.now (map string_bytes words.now) place path → ⊥) }
{
    match words.get(place) {
        Some(word) => path_under(word.as_str(), key),
        None => None,
    }
}

/// The files that the words name, the second under this key, or the first word, counted from 1, that is not as stated,
/// or the number of words plus 1 if one is missing.
pub fn read_words<'a>(words: &'a [String], key: &str) -> Result<Named<'a>, u32>
    ensures request { IfOk result (λ named. IsRequest key.now (map string_bytes words.now) (files_named named)) }
    ensures usage { IfErr result (IsUsage key.now (map string_bytes words.now)) }
{
    let Some(board) = path_at(words, 0, "board=") else {
        return Err(1);
    };
    let Some(file) = path_at(words, 1, key) else {
        return Err(2);
    };
    if words.len() > 2 {
        return Err(3);
    }
    Ok(Named { board, file })
}
