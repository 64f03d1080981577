//! The texts of `--help` and `--version`.
ghost use Rattle.std.specs.Prelude.{◌≡◌, map, string_bytes, OnOk, OnErr};
ghost use Rattle.std.specs.Option.{option_map};
ghost use Rattle.tool_io.specs.Bytes.{then_bytes, MovesFront};
ghost use Rattle.tool_io.specs.Causes.{HasCause};
ghost use Rattle.tool_frame.specs.Commands.{text_of_word, text_asked};

use tool_io::{Failed, Lines, Sink};

fn text_of_word<'a>(word: &str, help: &'a [u8], version: &'a [u8]) -> Option<&'a [u8]>
    ensures { option_map (λ text. text.now) result ≡ text_of_word help.now version.now word.now }
{
    if word == "--help" {
        Some(help)
    } else if word == "--version" {
        Some(version)
    } else {
        None
    }
}

/// The text that the words ask for: that of `--help` or of `--version`, if they are this word alone.
pub fn text_asked<'a>(words: &[String], help: &'a [u8], version: &'a [u8]) -> Option<&'a [u8]>
    ensures { option_map (λ text. text.now) result ≡ text_asked help.now version.now (map string_bytes words.now) }
{
    match words {
        [word] => text_of_word(word.as_str(), help, version),
        _ => None,
    }
}

/// Writes a text and nothing else.
///
/// `Failed` as of the sink. Then a front of the text is written.
#[tactic(auto, using(tool_io::proofs::PutLemmas::front_written, tool_io::proofs::PutLemmas::front_end, tool_io::proofs::PutLemmas::all_written, tool_io::proofs::PutLemmas::puts_end))]
pub fn write_text<K: Sink>(out: &mut K, text: &[u8]) -> Result<(), Failed>
    ensures ok { OnOk result (K.written out.new ≡ then_bytes (K.written out.old) text.now) }
    ensures front { OnErr result (MovesFront (K.written out.old) text.now (K.written out.new)) }
    ensures cause { HasCause K.faults K.is_last out.old out.new result }
{
    let mut lines = Lines::new(out);
    lines.put(text)?;
    lines.finish()?;
    Ok(())
}
