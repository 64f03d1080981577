//! The words of a command.
ghost use Rattle.std.specs.Prelude.{◌≡◌, ◌≢◌, ◌≤◌, ◌<◌, ◌+◌, ℕ, Bool, List, length, map, codes, string_bytes, is_some, None, IfSome, IfNone, IfOk, IfErr, OnOk};
ghost use Rattle.std.specs.Option.{option_map};
ghost use Rattle.play_words.specs.Words.{mode_word, key_of, GivesPart, HasMode, IsRequest, IsFirstUnread, IsWordsRefused, IsAmongFirst};
ghost use Rattle.play_words.specs.ReadParts.{values_of, given_of, with_part, part_of, GivesNoPart, AddsPart, Refuses, AddsWord, AddsNothing, AreReadUpTo, LacksKey, HasPlayValues, HasFileValues, LacksPlay, HasValues};
ghost use Rattle.play_words.specs.declared.mode.Mode.{Mode};

use crate::mode::WordKey;
use crate::{FilePlay, Mode, PlayRequest, Request};
use command_words::{
    FileName, MOST_PLACE, PlaceRun, answer_under, file_named, free_name_under, names_given,
    names_under, number_under, path_under, run_under,
};
use stapl_lexer::Name;
use std::alloc::{AllocError, Global};
use thiserror::Error;

/// The most turns that words may ask for.
const MOST_TURNS: u32 = 1_000_000_000;

/// How many turns there are if words ask for none.
pub const USUAL_TURNS: u32 = 100_000_000;

/// Why words are no request.
#[derive(Clone, Copy, Debug, PartialEq, Eq, Error)]
pub enum WordsRefused {
    /// The first word, counted from 1, that is not read; or the number of words plus 1, if all are read, and the mode
    /// or a key that it needs is missing.
    #[error("the word {0} is not as stated")]
    Usage(u32),
    /// There was no memory.
    #[error("out of memory")]
    Memory,
}

// What a word gives. A list of names is kept as it is spelled.
#[derive(Clone, Copy)]
enum GivenPart<'a> {
    Board(&'a str),
    Program(&'a str),
    Code(&'a str),
    Action(Name),
    Do(&'a str),
    Skip(&'a str),
    Place(PlaceRun),
    Turns(u32),
    Pins(bool),
    Report(bool),
    Seed(u32),
}

impl<'a> GivenPart<'a> {
    fn key(&self) -> WordKey
        ensures { result ≡ key_of (part_of self.now) }
    {
        match self {
            GivenPart::Board(_) => WordKey::Board,
            GivenPart::Program(_) => WordKey::Program,
            GivenPart::Code(_) => WordKey::Code,
            GivenPart::Action(_) => WordKey::Action,
            GivenPart::Do(_) => WordKey::Do,
            GivenPart::Skip(_) => WordKey::Skip,
            GivenPart::Place(_) => WordKey::Place,
            GivenPart::Turns(_) => WordKey::Turns,
            GivenPart::Pins(_) => WordKey::Pins,
            GivenPart::Report(_) => WordKey::Report,
            GivenPart::Seed(_) => WordKey::Seed,
        }
    }
}

// What the words so far have given. A list of names is kept as it is spelled.
#[derive(Clone, Copy)]
struct Given<'a> {
    mode: Mode,
    board: Option<&'a str>,
    program: Option<&'a str>,
    code: Option<&'a str>,
    action: Option<Name>,
    todo: Option<&'a str>,
    skip: Option<&'a str>,
    place: Option<PlaceRun>,
    turns: Option<u32>,
    pins: Option<bool>,
    report: Option<bool>,
    seed: Option<u32>,
}

impl<'a> Given<'a> {
    fn nothing(mode: Mode) -> Given<'a>
        ensures mode { result.mode ≡ mode }
        ensures board { result.board ≡ None }
        ensures program { result.program ≡ None }
        ensures code { result.code ≡ None }
        ensures action { result.action ≡ None }
        ensures todo { result.todo ≡ None }
        ensures skip { result.skip ≡ None }
        ensures place { result.place ≡ None }
        ensures turns { result.turns ≡ None }
        ensures pins { result.pins ≡ None }
        ensures report { result.report ≡ None }
        ensures seed { result.seed ≡ None }
    {
        Given {
            mode,
            board: None,
            program: None,
            code: None,
            action: None,
            todo: None,
            skip: None,
            place: None,
            turns: None,
            pins: None,
            report: None,
            seed: None,
        }
    }

    // What is given with one part more in place of what was given of its key.
    fn with(&self, part: &GivenPart<'a>) -> Given<'a>
        ensures { values_of result ≡ with_part (values_of self.now) (part_of part.now) }
    {
        match part {
            GivenPart::Board(path) => Given {
                board: Some(*path),
                ..*self
            },
            GivenPart::Program(path) => Given {
                program: Some(*path),
                ..*self
            },
            GivenPart::Code(path) => Given {
                code: Some(*path),
                ..*self
            },
            GivenPart::Action(name) => Given {
                action: Some(*name),
                ..*self
            },
            GivenPart::Do(spelling) => Given {
                todo: Some(*spelling),
                ..*self
            },
            GivenPart::Skip(spelling) => Given {
                skip: Some(*spelling),
                ..*self
            },
            GivenPart::Place(run) => Given {
                place: Some(*run),
                ..*self
            },
            GivenPart::Turns(turns) => Given {
                turns: Some(*turns),
                ..*self
            },
            GivenPart::Pins(written) => Given {
                pins: Some(*written),
                ..*self
            },
            GivenPart::Report(reported) => Given {
                report: Some(*reported),
                ..*self
            },
            GivenPart::Seed(seed) => Given {
                seed: Some(*seed),
                ..*self
            },
        }
    }

    // What is given with one part more; `None` where the mode does not take its key, or that has been given.
    #[tactic(auto, using(crate::proofs::WordLemmas::refuses_key))]
    fn add(&self, part: &GivenPart<'a>) -> Option<Given<'a>>
        ensures some { IfSome result (λ next. AddsPart (values_of self.now) (part_of part.now) (values_of next)) }
        ensures none { IfNone result (Refuses (values_of self.now) (part_of part.now)) }
    {
        let key = part.key();
        if !self.mode.takes(key) {
            return None;
        }
        if self.has(key) {
            return None;
        }
        Some(self.with(part))
    }

    // What is given with one word more; `None` where it gives nothing that the mode takes, or its key has been given.
    #[tactic(auto, using(crate::proofs::WordLemmas::adds_part, crate::proofs::WordLemmas::adds_no_part))]
    fn with_word(&self, word: &'a str) -> Option<Given<'a>>
        ensures some { IfSome result (λ next. AddsWord (values_of self.now) word.now (values_of next)) }
        ensures none { IfNone result (AddsNothing (values_of self.now) word.now) }
    {
        match part_in(word) {
            Some(part) => self.add(&part),
            None => None,
        }
    }

    fn has(&self, key: WordKey) -> bool
        ensures { result ≡ is_some (given_of (values_of self.now) key) }
    {
        match key {
            WordKey::Board => self.board.is_some(),
            WordKey::Program => self.program.is_some(),
            WordKey::Code => self.code.is_some(),
            WordKey::Action => self.action.is_some(),
            WordKey::Do => self.todo.is_some(),
            WordKey::Skip => self.skip.is_some(),
            WordKey::Place => self.place.is_some(),
            WordKey::Turns => self.turns.is_some(),
            WordKey::Pins => self.pins.is_some(),
            WordKey::Report => self.report.is_some(),
            WordKey::Seed => self.seed.is_some(),
        }
    }

    // What is asked of a play of this action.
    fn play_request(&self, alloc: Global, action: Name) -> Result<PlayRequest, AllocError>
        requires { self.now.action ≡ Some action }
        ensures { IfOk result (HasPlayValues (values_of self.now)) }
    {
        Ok(PlayRequest {
            action,
            todo: names_given(alloc, self.todo)?,
            skip: names_given(alloc, self.skip)?,
            place: self.place,
            turns: self.turns.unwrap_or(USUAL_TURNS),
            pins: self.pins.unwrap_or(false),
            report: self.report.unwrap_or(false),
        })
    }

    // The play of the file at a path; none if the board, the path or the action is not given.
    fn file_play(&self, alloc: Global, path: Option<&str>) -> Result<Option<FilePlay>, AllocError>
        ensures some { IfOk result (λ found. IfSome found
            (HasFileValues (values_of self.now) (option_map (λ text. text.now) path.entry))) }
        ensures none { IfOk result (λ found. IfNone found
            (LacksPlay (values_of self.now) (option_map (λ text. text.now) path.entry))) }
    {
        let Some(board) = self.board else {
            return Ok(None);
        };
        let Some(source) = path else {
            return Ok(None);
        };
        let Some(action) = self.action else {
            return Ok(None);
        };
        Ok(Some(FilePlay {
            board: FileName::of(alloc, board)?,
            source: FileName::of(alloc, source)?,
            request: self.play_request(alloc, action)?,
        }))
    }

    // The request with the values; none if a key that the mode needs is not given.
    fn request(&self, alloc: Global) -> Result<Option<Request>, AllocError>
        ensures some { IfOk result (λ found. IfSome found (HasValues (values_of self.now))) }
        ensures none { IfOk result (λ found. IfNone found (LacksKey (values_of self.now))) }
    {
        match self.mode {
            Mode::Play => Ok(self.file_play(alloc, self.program)?.map(Request::Play)),
            Mode::Run => Ok(self.file_play(alloc, self.code)?.map(Request::Run)),
            Mode::Check => Ok(file_named(alloc, self.program)?.map(Request::Check)),
            Mode::List => Ok(file_named(alloc, self.program)?.map(Request::List)),
            Mode::Compile => Ok(file_named(alloc, self.program)?.map(Request::Compile)),
            Mode::Soak => Ok(self.seed.map(Request::Soak)),
        }
    }
}

// The part that a word gives, if it gives one.
#[tactic(auto, using(crate::proofs::WordLemmas::gives_no_part))]
fn part_in<'a>(word: &'a str) -> Option<GivenPart<'a>>
    ensures some { IfSome result (λ part. GivesPart word.now (part_of part)) }
    ensures none { IfNone result (GivesNoPart word.now) }
{
    if let Some(path) = path_under(word, "board=") {
        return Some(GivenPart::Board(path));
    }
    if let Some(path) = path_under(word, "program=") {
        return Some(GivenPart::Program(path));
    }
    if let Some(path) = path_under(word, "code=") {
        return Some(GivenPart::Code(path));
    }
    if let Some(name) = free_name_under(word, "action=") {
        return Some(GivenPart::Action(name));
    }
    if let Some(spelling) = names_under(word, "do=") {
        return Some(GivenPart::Do(spelling));
    }
    if let Some(spelling) = names_under(word, "skip=") {
        return Some(GivenPart::Skip(spelling));
    }
    if let Some(run) = run_under(word, "place=", MOST_PLACE) {
        return Some(GivenPart::Place(run));
    }
    if let Some(turns) = number_under(word, "turns=", 0, MOST_TURNS) {
        return Some(GivenPart::Turns(turns));
    }
    if let Some(written) = answer_under(word, "pins=") {
        return Some(GivenPart::Pins(written));
    }
    if let Some(reported) = answer_under(word, "report=") {
        return Some(GivenPart::Report(reported));
    }
    match number_under(word, "seed=", 0, u32::MAX) {
        Some(seed) => Some(GivenPart::Seed(seed)),
        None => None,
    }
}

// The mode that a word names, if it is one of codes or of soaks.
fn mode_of_codes(word: &str) -> Option<Mode>
    ensures some { IfSome result (λ mode. word.now ≡ mode_word mode) }
    ensures compile { IfNone result (word.now ≢ codes "compile") }
    ensures run { IfNone result (word.now ≢ codes "run") }
    ensures soak { IfNone result (word.now ≢ codes "soak") }
{
    if word == "compile" {
        return Some(Mode::Compile);
    }
    if word == "run" {
        return Some(Mode::Run);
    }
    if word == "soak" {
        return Some(Mode::Soak);
    }
    None
}

// The mode that a word names.
#[tactic(auto, using(crate::proofs::WordLemmas::no_mode_word))]
fn mode_named(word: &str) -> Option<Mode>
    ensures some { IfSome result (λ mode. word.now ≡ mode_word mode) }
    ensures none { IfNone result ((mode : Mode) → word.now ≡ mode_word mode → ⊥) }
{
    if word == "play" {
        return Some(Mode::Play);
    }
    if word == "check" {
        return Some(Mode::Check);
    }
    if word == "list" {
        return Some(Mode::List);
    }
    mode_of_codes(word)
}

/// The mode that the first word names.
pub fn mode_of(words: &[String]) -> Option<Mode>
    ensures some { IfSome result (λ _. 0 < length words.now) }
    ensures mode { IfSome result (HasMode (map string_bytes words.now)) }
    ensures none { IfNone result ((mode : Mode) → HasMode (map string_bytes words.now) mode → ⊥) }
{
    if words.is_empty() {
        return None;
    }
    mode_named(words[0].as_str())
}

// What the words after the mode give; or, in `Err`, the place of the first one that is not read, counted from 0.
fn read_parts(mode: Mode, words: &[String]) -> Result<Given<'_>, usize>
    requires some { 0 < length words.now }
    requires mode { HasMode (map string_bytes words.now) mode }
    ensures read { IfOk result (λ given.
        AreReadUpTo (map string_bytes words.now) (length words.now) (values_of given)) }
    ensures unread { IfErr result (IsFirstUnread (map string_bytes words.now)) }
    ensures few { IfErr result (λ place. place ≤ 12) }
    ensures few_words { OnOk result (length words.now ≤ 12) }
{
    let mut given = Given::nothing(mode);
    for place in 1..words.len() {
        let Some(next) = given.with_word(words[place].as_str()) else {
            return Err(place);
        };
        given = next;
    }
    Ok(given)
}

/// What the words ask for.
///
/// `Usage` says which word is the first that is not read, or that one is missing; `Memory` is want of memory.
pub fn read_words(alloc: Global, words: &[String]) -> Result<Request, WordsRefused>
    ensures request { IfOk result (IsRequest (map string_bytes words.now)) }
    ensures refused { IfErr result (IsWordsRefused (map string_bytes words.now)) }

    // A word more than the mode and each key once is refused.
    ensures few { IfErr result IsAmongFirst }
    ensures few_words { OnOk result (length words.now ≤ 12) }
{
    let Some(mode) = mode_of(words) else {
        return Err(WordsRefused::Usage(1));
    };
    match read_parts(mode, words) {
        Ok(given) => match given.request(alloc) {
            Ok(Some(request)) => Ok(request),
            Ok(None) => Err(WordsRefused::Usage(words.len() as u32 + 1)),
            Err(_) => Err(WordsRefused::Memory),
        },
        Err(place) => Err(WordsRefused::Usage(place as u32 + 1)),
    }
}
