//! The lines of a verdict. They are made in memory, so that nothing is written if there is none.
ghost use Rattle.std.specs.Prelude.{◌≡◌, ◌++◌, pos, IfOk, OnOk};
ghost use Rattle.std.specs.Option.{option_map_or};
ghost use Rattle.tool_io.specs.Texts.{labelled, number_line};
ghost use Rattle.stapl_meaning.specs.Texts.{ending_line};
ghost use Rattle.quiet_tool.specs.Texts.{quiet_text, why_text, unquiet_line, line_of_piece};

use itoa::Buffer;
use padded_plays::Unquiet;
use stapl_lexer::Piece;
use stapl_meaning::Ending;
use std::alloc::{AllocError, Global};

// Adds a label and a count.
fn add_count(line: &mut Vec<u8>, label: &[u8], n: u32) -> Result<(), AllocError>
    ensures { OnOk result (line.new.items ≡ line.old.items ++ labelled label.now (pos n)) }
{
    let mut digits = Buffer::new();
    line.extend_from_slice(label)?;
    line.extend_from_slice(digits.format(n).as_bytes())?;
    Ok(())
}

// The same of a number of bits.
fn add_bits(line: &mut Vec<u8>, label: &[u8], n: u64) -> Result<(), AllocError>
    ensures { OnOk result (line.new.items ≡ line.old.items ++ labelled label.now (pos n)) }
{
    let mut digits = Buffer::new();
    line.extend_from_slice(label)?;
    line.extend_from_slice(digits.format(n).as_bytes())?;
    Ok(())
}

// Adds how a scan of so many bits does not fit registers of so many, and the end of the line.
fn add_lengths(
    line: &mut Vec<u8>,
    scan: &[u8],
    shifted: u64,
    registers: &[u8],
    held: u64,
) -> Result<(), AllocError>
    ensures { OnOk result (line.new.items ≡ line.old.items
        ++ (labelled scan.now (pos shifted) ++ number_line registers.now (pos held))) }
{
    add_bits(line, scan, shifted)?;
    add_bits(line, registers, held)?;
    line.push(b'\n')?;
    Ok(())
}

// Adds why a deed is not quiet, to the end of its line.
fn add_why(line: &mut Vec<u8>, why: Unquiet) -> Result<(), AllocError>
    ensures { OnOk result (line.new.items ≡ line.old.items ++ why_text why) }
{
    match why {
        Unquiet::Instruction(shifted, held) => add_lengths(
            line,
            b"IRSCAN shifts ",
            shifted,
            b" bits, the instruction has ",
            held,
        ),
        Unquiet::Data(shifted, held) => add_lengths(
            line,
            b"DRSCAN shifts ",
            shifted,
            b" bits, the register has ",
            held,
        ),
        Unquiet::NotLoaded => line.extend_from_slice(b"DRSCAN before an IRSCAN\n"),
        Unquiet::ScanState => {
            line.extend_from_slice(b"a walk leads into a shift state or Capture-IR\n")
        }
    }
}

// Adds the line of how a play ends.
fn add_ending(line: &mut Vec<u8>, ending: Ending) -> Result<(), AllocError>
    ensures { OnOk result (line.new.items ≡ line.old.items ++ ending_line ending) }
{
    let mut digits = Buffer::new();
    match ending {
        Ending::Exit(code) => {
            line.extend_from_slice(b"E exit ")?;
            line.extend_from_slice(digits.format(code).as_bytes())?;
        }
        Ending::Fault(fault, piece) => {
            line.extend_from_slice(b"E fault ")?;
            line.extend_from_slice(fault.name())?;
            add_count(line, b" at ", piece)?;
        }
        Ending::Spent => line.extend_from_slice(b"E spent")?,
    }
    line.push(b'\n')?;
    Ok(())
}

/// The lines of a play that is quiet for so many turns, and ends so.
pub(crate) fn quiet_text(alloc: Global, turns: u32, ending: Ending) -> Result<Vec<u8>, AllocError>
    ensures { IfOk result (λ line. line.items ≡ quiet_text turns ending) }
{
    let mut line = Vec::new(alloc);
    add_count(&mut line, b"quiet turns ", turns)?;
    line.push(b'\n')?;
    add_ending(&mut line, ending)?;
    Ok(line)
}

/// The line of a play whose first deed that is not quiet is in this turn, that of a piece of this line, with why.
pub(crate) fn unquiet_line(
    alloc: Global,
    piece: u32,
    line: u32,
    turn: u32,
    why: Unquiet,
) -> Result<Vec<u8>, AllocError>
    ensures { IfOk result (λ text. text.items ≡ unquiet_line piece line turn why) }
{
    let mut text = Vec::new(alloc);
    add_count(&mut text, b"not quiet piece ", piece)?;
    add_count(&mut text, b" line ", line)?;
    add_count(&mut text, b" turn ", turn)?;
    text.extend_from_slice(b": ")?;
    add_why(&mut text, why)?;
    Ok(text)
}

/// The line of the piece with this number, counted from 1; 0 if there is none.
pub(crate) fn line_of_piece(pieces: &[Piece], number: u32) -> u32
    ensures { result ≡ line_of_piece pieces.now number }
{
    if number == 0 {
        return 0;
    }
    match pieces.get(number as usize - 1) {
        Some(piece) => piece.line,
        None => 0,
    }
}
