//! The words of the program.
ghost use Rattle.std.specs.Prelude.{◌≡◌, ◌+◌, ◌<◌, ◌≤◌, Bool, map, length, string_bytes, IfOk, IfErr, IfSome, IfNone};
ghost use Rattle.play_words.specs.declared.mode.Mode.TheVariants as modes;
ghost use Rattle.play_words.specs.declared.requests.Request.TheVariants as requests;
ghost use Rattle.play_words.specs.Words.{mode_of, IsUsage, IsAmongFirst};
ghost use Rattle.drive_tool.specs.Words.{SaysAt, NamesWire, play_words, AsksForReport, HasNoReport, AskForPlay, HasPlayUsage, IsPlayRefused, AskToDrive, HasUsage, AreRefused};
ghost use Rattle.drive_tool.specs.Named.{wire_named};

use command_words::answer_under;
use named_files::path_at;
use play_words::{FilePlay, Request, WordsRefused, read_words};
use std::alloc::{AllocError, Global};

/// The wire that words name: the file that takes the bytes, the file that gives the answers, and whether waits are
/// sent.
#[derive(Clone, Copy)]
pub struct Wire<'a> {
    pub(crate) send: &'a str,
    pub(crate) receive: &'a str,
    pub(crate) sleeps: bool,
    // How many words name it.
    count: u32,
}

/// What words ask for: a play over a wire.
#[derive(Drop)]
pub struct Asked<'a> {
    pub(crate) wire: Wire<'a>,
    pub(crate) play: FilePlay,
}

// The answer that the word at a place, counted from 0, gives under a key, if the word is there and gives one.
fn answer_at(words: &[String], place: usize, key: &str) -> Option<bool>
    ensures some { IfSome result (SaysAt key.now (map string_bytes words.now) place) }
    ensures none { IfNone result ((answer : Bool) → SaysAt key.now (map string_bytes words.now) place answer → ⊥) }
{
    match words.get(place) {
        Some(word) => answer_under(word.as_str(), key),
        None => None,
    }
}

// The wire that the first words name, or the number of the first of them, from 1, that is not as stated.
fn wire_of(words: &[String]) -> Result<Wire<'_>, u32>
    ensures named { IfOk result (λ wire. NamesWire (map string_bytes words.now) (wire_named wire) wire.count) }
    ensures within { IfOk result (λ wire. wire.count ≤ length words.now) }
    ensures few { IfOk result (λ wire. wire.count ≤ 3) }
    ensures usage { IfErr result (HasUsage (map string_bytes words.now)) }
{
    let Some(send) = path_at(words, 0, "send=") else {
        return Err(1);
    };
    let Some(receive) = path_at(words, 1, "receive=") else {
        return Err(2);
    };
    match answer_at(words, 2, "sleep=") {
        Some(sleeps) => Ok(Wire {
            send,
            receive,
            sleeps,
            count: 3,
        }),
        None => Ok(Wire {
            send,
            receive,
            sleeps: false,
            count: 2,
        }),
    }
}

// The words of a play by the tool: the word `play`, and then these.
fn play_words(alloc: Global, words: &[String]) -> Result<Vec<String>, AllocError>
    ensures { IfOk result (λ all. map string_bytes all.items ≡ play_words (map string_bytes words.now)) }
{
    let mut all = Vec::new(alloc);
    let first = String::from_str(alloc, "play")?;
    all.push(first)?;
    'words: for word in words {
        let copy = String::from_str(alloc, word.as_str())?;
        all.push(copy)?;
    }
    Ok(all)
}

// The play that a request of the mode `play` asks for.
fn play_in(request: Request) -> FilePlay
    requires { mode_of request ≡ modes.Play }
    ensures { request ≡ requests.Play result }
{
    match request {
        Request::Play(play) => play,
        _ => unreachable!(),
    }
}

// The place of the first word that asks for a report, counted from 0.
fn report_in(words: &[String]) -> Option<usize>
    ensures some { IfSome result (AsksForReport (map string_bytes words.now)) }
    ensures first { IfSome result (HasNoReport (map string_bytes words.now)) }
    ensures within { IfSome result (λ place. place < length words.now) }
    ensures none { IfNone result (HasNoReport (map string_bytes words.now) (length (map string_bytes words.now))) }
{
    for place in 0..words.len() {
        if answer_at(words, place, "report=").is_some() {
            return Some(place);
        }
    }
    None
}

// The number of the first word that is refused, by that of the first which is none of a play by the tool.
fn first_refused(words: &[String], n: u32) -> u32
    requires { IsUsage (play_words (map string_bytes words.now)) (n + 1) }
    ensures refused { HasPlayUsage (map string_bytes words.now) result }
    ensures few { result ≤ n }
{
    match report_in(words) {
        Some(place) if place < n as usize => place as u32 + 1,
        _ => n,
    }
}

// The play that the words after the wire ask for.
fn read_play(alloc: Global, words: &[String]) -> Result<FilePlay, WordsRefused>
    ensures play { IfOk result (AskForPlay (map string_bytes words.now)) }
    ensures refused { IfErr result (IsPlayRefused (map string_bytes words.now)) }
    ensures few { IfErr result IsAmongFirst }
{
    let Ok(all) = play_words(alloc, words) else {
        return Err(WordsRefused::Memory);
    };
    match read_words(alloc, &all) {
        Ok(request) => match report_in(words) {
            None => Ok(play_in(request)),
            Some(place) => Err(WordsRefused::Usage(place as u32 + 1)),
        },
        Err(WordsRefused::Usage(n)) => Err(WordsRefused::Usage(first_refused(words, n - 1))),
        Err(WordsRefused::Memory) => Err(WordsRefused::Memory),
    }
}

/// What the words ask for.
///
/// `Usage` says which word is the first that is not as stated, or that one is missing; `Memory` is want of memory.
pub(crate) fn read_asked(alloc: Global, words: &[String]) -> Result<Asked<'_>, WordsRefused>
    ensures asked { IfOk result (λ asked.
        AskToDrive (map string_bytes words.now) (wire_named asked.wire) asked.play) }
    ensures refused { IfErr result (AreRefused (map string_bytes words.now)) }
{
    let wire = match wire_of(words) {
        Ok(wire) => wire,
        Err(n) => return Err(WordsRefused::Usage(n)),
    };
    match read_play(alloc, &words[wire.count as usize..]) {
        Ok(play) => Ok(Asked { wire, play }),
        Err(WordsRefused::Usage(n)) => Err(WordsRefused::Usage(wire.count + n)),
        Err(WordsRefused::Memory) => Err(WordsRefused::Memory),
    }
}
