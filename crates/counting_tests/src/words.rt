//! The words of the program.
ghost use Rattle.std.specs.Prelude.{map, string_bytes, IfSome, IfNone};
ghost use Rattle.counting_tests.specs.Words.{NamesBoard, NamesNone};

use command_words::path_under;

/// The path that the one word `board=PATH` names.
pub(crate) fn board_path(words: &[String]) -> Option<&str>
    ensures some { IfSome result (λ path. NamesBoard (map string_bytes words.now) path.now) }
    ensures none { IfNone result (NamesNone (map string_bytes words.now)) }
{
    match words {
        [word] => path_under(word.as_str(), "board="),
        _ => None,
    }
}
