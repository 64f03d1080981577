//! The words of a command that is refused at one of them.
ghost use Rattle.std.specs.Prelude.{◌≡◌, ◌++◌, map, codes, string_bytes};
ghost use Rattle.std.specs.Option.{option_map};
ghost use Rattle.tool_io.specs.Lines.{IsWhole, HasPut};
ghost use Rattle.tool_io.specs.Texts.{labelled_text};
ghost use Rattle.tool_frame.specs.Answers.{Says};
ghost use Rattle.why_tool.specs.Texts.{numbered_word, shown_or_missing, word_shown, takes_text, IsRestTold};
ghost use Rattle.why_tool.specs.Whys.{IsWordTold, ask_why, asks_otherwise};

use named_files::put_usage;
use play_words::{HELP, Mode, Status, VERSION, mode_of};
use tool_frame::{NoAnswer, text_asked};
use tool_io::{Failed, Lines, Sink, put_count, put_labelled_text};
use tool_questions::ask_question;

// What may stand after a mode.
fn takes_text(mode: Mode) -> &'static [u8]
    ensures { result.now ≡ takes_text mode }
{
    match mode {
        Mode::Play =>
            b"play takes board=PATH program=PATH action=NAME [do=NAME,..] [skip=NAME,..] [place=N..N] [turns=N] [pins=yes|no] [report=yes|no], each once\n",
        Mode::Check => b"check takes program=PATH, each once\n",
        Mode::List => b"list takes program=PATH, each once\n",
        Mode::Compile => b"compile takes program=PATH, each once\n",
        Mode::Run =>
            b"run takes board=PATH code=PATH action=NAME [do=NAME,..] [skip=NAME,..] [place=N..N] [turns=N] [pins=yes|no] [report=yes|no], each once\n",
        Mode::Soak => b"soak takes seed=N, each once\n",
    }
}

// What may stand after the first word; or in its place, if it names no mode.
fn rest_text(words: &[String]) -> &'static [u8]
    ensures { IsRestTold (map string_bytes words.now) result.now }
{
    match mode_of(words) {
        Some(mode) => takes_text(mode),
        None => b"word 1 has to be play, check, list, compile, run or soak; see --help\n",
    }
}

// The word with this number, counted from 1.
fn word_numbered(words: &[String], n: u32) -> Option<&str>
    ensures { option_map (λ word. word.now) result ≡ numbered_word n (map string_bytes words.now) }
{
    match words.get((n as usize).saturating_sub(1)) {
        Some(word) => Some(word.as_str()),
        None => None,
    }
}

// Puts what a word is.
fn put_shown<K: Sink>(lines: &mut Lines<K>, word: &str) -> Result<(), Failed>
    requires { IsWhole lines.old }
    ensures { HasPut K.Sink lines.old (labelled_text (codes " is ") word.now ++ codes "\n") lines.new result }
{
    put_labelled_text(lines, b" is ", word.as_bytes())?;
    lines.put(b"\n")
}

// Puts that a word is missing, or what it is.
fn put_word_or_none<K: Sink>(lines: &mut Lines<K>, word: Option<&str>) -> Result<(), Failed>
    requires { IsWhole lines.old }
    ensures { HasPut K.Sink lines.old (shown_or_missing (option_map (λ word. word.now) word.entry)) lines.new result }
{
    match word {
        Some(word) => put_shown(lines, word),
        None => lines.put(b" is missing\n"),
    }
}

// Shows a word, or says that it is missing.
fn put_word<K: Sink>(lines: &mut Lines<K>, n: u32, word: Option<&str>) -> Result<(), Failed>
    requires { IsWhole lines.old }
    ensures { HasPut K.Sink lines.old (word_shown n (option_map (λ word. word.now) word.entry)) lines.new result }
{
    put_count(lines, b"word ", n)?;
    put_word_or_none(lines, word)
}

/// Says why the words are refused at this one, counted from 1, and what may stand after the first.
///
/// `Write` as of the sink.
pub(crate) fn tell_words<K: Sink>(
    words: &[String],
    n: u32,
    lines: &mut Lines<K>,
) -> Result<Status, NoAnswer>
    requires { IsWhole lines.old }
    ensures { Says K.Sink (IsWordTold n (map string_bytes words.now)) ⊥ lines.old lines.new result }
{
    let rest = rest_text(words);
    put_usage(lines, n)?;
    put_word(lines, n, word_numbered(words, n))?;
    lines.put(rest)?;
    Ok(Status::Done(0))
}

// Whether the words ask why: the first is `--why`.
fn ask_why(words: &[String]) -> bool
    ensures { result ≡ ask_why (map string_bytes words.now) }
{
    match words {
        [first, ..] => first.as_str() == "--why",
        [] => false,
    }
}

/// Whether the words are a question, or ask for a text.
pub(crate) fn asks_otherwise(words: &[String]) -> bool
    ensures { result ≡ asks_otherwise (map string_bytes words.now) }
{
    ask_question(words) || ask_why(words) || text_asked(words, HELP, VERSION).is_some()
}
