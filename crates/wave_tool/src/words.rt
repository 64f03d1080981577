//! The words of the command.
ghost use Rattle.std.specs.Prelude.{ℕ, List, map, string_bytes, IfSome, IfNone, IfOk, IfErr};
ghost use Rattle.wave_tool.specs.Words.{NamesTrace, IsRequest, IsUsage};

use command_words::path_under;

// The path that the first word names, if it is there and names one.
fn trace_named<'a>(words: &'a [String]) -> Option<&'a str>
    ensures some { IfSome result (λ path. NamesTrace (map string_bytes words.now) path.now) }
    ensures none { IfNone result ((path : List ℕ) → NamesTrace (map string_bytes words.now) path → ⊥) }
{
    match words.get(0) {
        Some(word) => path_under(word.as_str(), "trace="),
        None => None,
    }
}

/// The file that the words name, or the first word, counted from 1, that is not as stated, or 1 if there is none.
pub(crate) fn read_words<'a>(words: &'a [String]) -> Result<&'a str, u32>
    ensures request { IfOk result (λ path. IsRequest (map string_bytes words.now) path.now) }
    ensures usage { IfErr result (IsUsage (map string_bytes words.now)) }
{
    let Some(trace) = trace_named(words) else {
        return Err(1);
    };
    if words.len() > 1 {
        return Err(2);
    }
    Ok(trace)
}
