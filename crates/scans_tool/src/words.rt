//! The words of the program.
ghost use Rattle.std.specs.Prelude.{◌≡◌, ◌∷◌, [], codes, map, string_bytes, IfOk, IfErr};
ghost use Rattle.play_words.specs.declared.mode.Mode.TheVariants as modes;
ghost use Rattle.play_words.specs.declared.requests.Request.TheVariants as requests;
ghost use Rattle.play_words.specs.Words.{mode_of};
ghost use Rattle.scans_tool.specs.Words.{plain_word, plain_words, AskFor, AreRefused};

use play_words::{FilePlay, Request, WordsRefused, read_words};
use std::alloc::{AllocError, Global};

// The word, or an empty one in place of a word that asks for the clocks or the report of a play.
fn plain_word(word: &str) -> &str
    ensures { result.now ≡ plain_word word.now }
{
    if word == "pins=yes" || word == "report=yes" {
        ""
    } else {
        word
    }
}

// The words of the play that these words ask for: the word `play`, and then these, each as a plain word.
fn plain_words(alloc: Global, words: &[String]) -> Result<Vec<String>, AllocError>
    ensures { IfOk result (λ all. map string_bytes all.items ≡ plain_words (map string_bytes words.now)) }
{
    let mut all = Vec::new(alloc);
    let mode = String::from_str(alloc, "play")?;
    all.push(mode)?;
    'words: for word in words {
        let plain = String::from_str(alloc, plain_word(word.as_str()))?;
        all.push(plain)?;
    }
    Ok(all)
}

// The play that a request of the mode `play` asks for.
fn play_in(request: Request) -> FilePlay
    requires { mode_of request ≡ modes.Play }
    ensures { request ≡ requests.Play result }
{
    match request {
        Request::Play(play) => play,
        _ => unreachable!(),
    }
}

/// The play that the words ask for.
///
/// `Usage` says which word is the first that is not as stated, or that one is missing; `Memory` is want of memory.
pub(crate) fn read_play(alloc: Global, words: &[String]) -> Result<FilePlay, WordsRefused>
    ensures play { IfOk result (AskFor (map string_bytes words.now)) }
    ensures refused { IfErr result (AreRefused (map string_bytes words.now)) }
{
    let Ok(all) = plain_words(alloc, words) else {
        return Err(WordsRefused::Memory);
    };
    match read_words(alloc, &all) {
        Ok(request) => Ok(play_in(request)),
        Err(WordsRefused::Usage(n)) => Err(WordsRefused::Usage(n - 1)),
        Err(WordsRefused::Memory) => Err(WordsRefused::Memory),
    }
}
