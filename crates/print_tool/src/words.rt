//! The words of the program.
ghost use Rattle.std.specs.Prelude.{map, string_bytes, IfOk, IfErr};
ghost use Rattle.print_tool.specs.Words.{NamesProgram, HasUsage};

use command_words::path_under;

/// The path that the one word `program=PATH` names, or the first word, counted from 1, that is not as stated, or the
/// number of words plus 1 if one is missing.
pub(crate) fn program_path<'a>(words: &'a [String]) -> Result<&'a str, u32>
    ensures named { IfOk result (λ path. NamesProgram (map string_bytes words.now) path.now) }
    ensures usage { IfErr result (λ n. HasUsage (map string_bytes words.now) n) }
{
    let [word, rest @ ..] = words else {
        return Err(1);
    };
    let Some(path) = path_under(word.as_str(), "program=") else {
        return Err(1);
    };
    if !rest.is_empty() {
        return Err(2);
    }
    Ok(path)
}
