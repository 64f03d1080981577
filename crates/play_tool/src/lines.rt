//! The lines that this tool alone writes.
ghost use Rattle.std.specs.Prelude.{◌≡◌, ◌≤◌, ◌+◌, ◌++◌, ◌<◌, ◌^◌, length, pos, IfOk, OnOk};
ghost use Rattle.tool_io.specs.Lines.{IsWhole, HasPut};
ghost use Rattle.tool_io.specs.Texts.{labelled};
ghost use Rattle.play_tool.specs.Texts.{code_refusal_line};
ghost use Rattle.play_tool.specs.SoakLines.{summary_line};

use itoa::Buffer;
use stapl_code::CodeReason;
use std::alloc::{AllocError, Global};
use tool_io::{Failed, Lines, Sink, put_count, put_word_line};

/// Puts the line of a refused code: the offset of its first fault in bytes, and the reason.
///
/// `Failed` as of the sink.
pub fn put_code_refusal<K: Sink>(
    lines: &mut Lines<K>,
    offset: u32,
    reason: CodeReason,
) -> Result<(), Failed>
    requires { IsWhole lines.old }
    ensures { HasPut K.Sink lines.old (code_refusal_line offset reason) lines.new result }
{
    put_count(lines, b"R code ", offset)?;
    lines.put(b" ")?;
    put_word_line(lines, reason.name())?;
    Ok(())
}

/// What the first line of a soak tells: the number that it is made from, how many devices its board has, the place of
/// the device that its program is for, counted from 1, and how many pieces the program has.
#[derive(Clone, Copy)]
pub struct SoakSummary {
    pub seed: u32,
    pub devices: u32,
    pub place: u32,
    pub pieces: usize,
}

// Adds a label of at most 20 bytes and a number.
fn add_labelled(line: &mut Vec<u8>, label: &[u8], n: usize) -> Result<(), AllocError>
    requires { length label.now ≤ 20 }
    ensures added { OnOk result (line.new.items ≡ line.old.items ++ labelled label.now (pos n)) }
    ensures short { OnOk result (length line.new.items ≤ length line.old.items + 60) }
{
    let mut digits = Buffer::new();
    line.extend_from_slice(label)?;
    line.extend_from_slice(digits.format(n).as_bytes())?;
    Ok(())
}

/// The first line of a soak. It is short, so that it waits in the lines until more is put.
pub fn soak_line(alloc: Global, soak: SoakSummary) -> Result<Vec<u8>, AllocError>
    ensures line { IfOk result (λ line. line.items ≡ summary_line soak) }
    ensures short { IfOk result (λ line. length line.items ≤ 4096) }
{
    let mut line = Vec::new(alloc);
    add_labelled(&mut line, b"soak ", soak.seed as usize)?;
    add_labelled(&mut line, b" devices ", soak.devices as usize)?;
    add_labelled(&mut line, b" place ", soak.place as usize)?;
    add_labelled(&mut line, b" pieces ", soak.pieces)?;
    line.push(b'\n')?;
    Ok(line)
}
