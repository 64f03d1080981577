//! The words of the program.
ghost use Rattle.std.specs.Prelude.{map, string_bytes, IfSome, IfNone, IfOk, IfErr};
ghost use Rattle.command_words.specs.declared.place_run.PlaceRun.{PlaceRun};
ghost use Rattle.rewrite_tool.specs.Words.{NamesPlace, IsPlaceRun, IsRequest, IsUsage};
ghost use Rattle.rewrite_tool.specs.Named.{request_of};

use command_words::{MOST_PLACE, PlaceRun, run_under};
use named_files::path_at;

/// What the words name.
#[derive(Clone, Copy)]
pub(crate) struct Named<'a> {
    pub(crate) program: &'a str,
    pub(crate) board: &'a str,
    pub(crate) run: PlaceRun,
}

// The run of devices that the third word gives, if it is there and gives one.
fn named_run(words: &[String]) -> Option<PlaceRun>
    ensures some { IfSome result (NamesPlace (map string_bytes words.now)) }
    ensures none { IfNone result ((run : PlaceRun) → NamesPlace (map string_bytes words.now) run → ⊥) }
{
    match words.get(2) {
        Some(word) => run_under(word.as_str(), "place=", MOST_PLACE),
        None => None,
    }
}

/// What the words name, or the first word, counted from 1, that is not as stated, or the number of words plus 1 if one
/// is missing.
pub(crate) fn read_words<'a>(words: &'a [String]) -> Result<Named<'a>, u32>
    ensures request { IfOk result (λ named. IsRequest (map string_bytes words.now) (request_of named)) }
    ensures run { IfOk result (λ named. IsPlaceRun named.run) }
    ensures usage { IfErr result (IsUsage (map string_bytes words.now)) }
{
    let Some(program) = path_at(words, 0, "program=") else {
        return Err(1);
    };
    let Some(board) = path_at(words, 1, "board=") else {
        return Err(2);
    };
    let Some(run) = named_run(words) else {
        return Err(3);
    };
    if words.len() > 3 {
        return Err(4);
    }
    Ok(Named {
        program,
        board,
        run,
    })
}
