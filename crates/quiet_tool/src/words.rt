//! The words of the program.
ghost use Rattle.std.specs.Prelude.{◌≡◌, ◌++◌, ◌∷◌, [], codes, map, string_bytes, IfOk, IfErr};
ghost use Rattle.play_words.specs.declared.mode.Mode.TheVariants as modes;
ghost use Rattle.play_words.specs.declared.requests.Request.TheVariants as requests;
ghost use Rattle.play_words.specs.Words.{mode_of};
ghost use Rattle.quiet_tool.specs.Words.{play_words, named_words, AreNoPlay, Ask, AreRefused};

use play_words::{FilePlay, Request, WordsRefused, read_words};
use std::alloc::{AllocError, Global};

/// Of which actions the plays are judged.
#[derive(Clone, Copy)]
pub enum Actions {
    /// Of the action that the words name.
    Named,
    /// Of each action of the program.
    Each,
}

/// What the words ask about.
#[derive(Drop)]
pub struct Question {
    /// The play that they ask about. If they ask about the play of each action, the action that it names is no part of
    /// the question.
    pub play: FilePlay,
    /// Of which actions the plays are judged.
    pub actions: Actions,
}

// Some words, and then these.
fn words_after(
    alloc: Global,
    front: Vec<String>,
    words: &[String],
) -> Result<Vec<String>, AllocError>
    ensures { IfOk result (λ all. map string_bytes all.items
        ≡ map string_bytes front.items ++ map string_bytes words.now) }
{
    let mut all = front;
    'words: for word in words {
        let copy = String::from_str(alloc, word.as_str())?;
        all.push(copy)?;
    }
    Ok(all)
}

// The word `play` alone.
fn play_word(alloc: Global) -> Result<Vec<String>, AllocError>
    ensures { IfOk result (λ front. map string_bytes front.items ≡ codes "play" ∷ []) }
{
    let mut front = Vec::new(alloc);
    let mode = String::from_str(alloc, "play")?;
    front.push(mode)?;
    Ok(front)
}

// The words of the play that these words ask about: the word `play`, and then these.
fn play_words(alloc: Global, words: &[String]) -> Result<Vec<String>, AllocError>
    ensures { IfOk result (λ all. map string_bytes all.items ≡ play_words (map string_bytes words.now)) }
{
    let front = play_word(alloc)?;
    words_after(alloc, front, words)
}

// The same with an action named before them.
fn named_words(alloc: Global, words: &[String]) -> Result<Vec<String>, AllocError>
    ensures { IfOk result (λ all. map string_bytes all.items ≡ named_words (map string_bytes words.now)) }
{
    let mut front = play_word(alloc)?;
    let action = String::from_str(alloc, "action=A")?;
    front.push(action)?;
    words_after(alloc, front, words)
}

// The play that a request of the mode `play` asks for.
fn play_in(request: Request) -> FilePlay
    requires { mode_of request ≡ modes.Play }
    ensures { request ≡ requests.Play result }
{
    match request {
        Request::Play(play) => play,
        _ => unreachable!(),
    }
}

// The question about each action that the words ask, which are no play at this word.
fn read_each(alloc: Global, words: &[String], refused_at: u32) -> Result<Question, WordsRefused>
    requires { AreNoPlay (map string_bytes words.now) refused_at }
    ensures question { IfOk result (Ask (map string_bytes words.now)) }
    ensures refused { IfErr result (AreRefused (map string_bytes words.now)) }
{
    let Ok(all) = named_words(alloc, words) else {
        return Err(WordsRefused::Memory);
    };
    match read_words(alloc, &all) {
        Ok(request) => Ok(Question {
            play: play_in(request),
            actions: Actions::Each,
        }),
        Err(WordsRefused::Usage(_)) => Err(WordsRefused::Usage(refused_at)),
        Err(WordsRefused::Memory) => Err(WordsRefused::Memory),
    }
}

/// What the words ask about.
///
/// `Usage` says which word is the first that is not read, or that one is missing; `Memory` is want of memory.
pub(crate) fn read_question(alloc: Global, words: &[String]) -> Result<Question, WordsRefused>
    ensures question { IfOk result (Ask (map string_bytes words.now)) }
    ensures refused { IfErr result (AreRefused (map string_bytes words.now)) }
{
    let Ok(all) = play_words(alloc, words) else {
        return Err(WordsRefused::Memory);
    };
    match read_words(alloc, &all) {
        Ok(request) => Ok(Question {
            play: play_in(request),
            actions: Actions::Named,
        }),
        Err(WordsRefused::Usage(n)) => read_each(alloc, words, n - 1),
        Err(WordsRefused::Memory) => Err(WordsRefused::Memory),
    }
}
