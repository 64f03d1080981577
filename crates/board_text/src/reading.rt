//! Boards, read line by line.
ghost use Rattle.std.specs.Prelude.{◌≡◌, ◌≢◌, ◌≤◌, ◌↔◌, ℕ, false, true, length, Some, IfOk, OnOk, Err, All, AllPairs, IsSome, IsTrue};
ghost use Rattle.dev_card.specs.declared.desc.Desc.{Desc};
ghost use Rattle.dev_card.specs.Board.{most_devices};
ghost use Rattle.dev_card.specs.Descriptions.{IsGood};
ghost use Rattle.board_text.specs.declared.reason.BoardReason.{BoardReason};
ghost use Rattle.board_text.specs.declared.shapes.Shape.TheVariants as shapes;
ghost use Rattle.board_text.specs.declared.reading.BoardTextRefused.TheVariants as refusals;
ghost use Rattle.board_text.specs.declared.reading.LineRefused.TheVariants as lines_refused;
ghost use Rattle.board_text.specs.Shapes.{fits, places_of};
ghost use Rattle.board_text.specs.Lines.{texts, is_skipped};
ghost use Rattle.board_text.specs.Contents.{device_line, register_line, device, register};
ghost use Rattle.board_text.specs.Boards.{IsBoard, IsFirstFault, IsSmallest, IsUnfinished, ReasonAgainst, HasReason, open_device, with_register};
ghost use Rattle.board_text.specs.Reading.{Extends, LeadsTo, IsNarrow};

use crate::BoardReason;
use crate::device::device;
use crate::judging::{awaits_register, open_device, repeats_in_board, repeats_in_device};
use crate::lines::{first_line, is_skipped, words_of};
use crate::opcodes::{are_opcodes, is_opcode, opcodes_of};
use crate::register::register;
use crate::shapes::{Shape, shape_of};
use base::ItemList;
use dev_card::{Desc, Kind, MOST_DEVICES, RegDesc};
use std::alloc::{AllocError, Global};
use thiserror::Error;

/// The most bytes of a board.
pub const MOST_BYTES: usize = 1_048_576;

const MOST_REGISTERS: usize = 64;

/// Why a text is no board.
#[derive(Clone, Copy, Debug, PartialEq, Eq, Error)]
pub enum BoardTextRefused {
    /// The first faulty line, counted from 1, and the smallest of its reasons. Where the text is too long, the line is
    /// 0.
    #[error("line {line} of the board is refused: {reason:?}")]
    At { line: u32, reason: BoardReason },
    /// There was no memory for the devices.
    #[error("out of memory")]
    Memory,
}

// Why a line is refused.
#[derive(Clone, Copy)]
enum LineRefused {
    Reason(BoardReason),
    Memory,
}

// Puts the device of a line after the others.
fn add_device(
    alloc: Global,
    kind: Kind,
    identified: bool,
    words: &[&[u8]],
    devices: &mut Vec<Desc>,
) -> Result<(), LineRefused>
    requires { fits (places_of (shapes.Device kind identified)) (texts words.now) ≡ true }
    ensures added { let content = Some (device (device_line kind identified (texts words.now))) in
        OnOk result (Extends devices.old.items content devices.new.items) }
    ensures fault { let content = Some (device (device_line kind identified (texts words.now))) in
        (r : BoardReason) → result ≡ Err (lines_refused.Reason r) →
        IsSmallest (ReasonAgainst devices.old.items content) r }
{
    let Some(device) = device(alloc, kind, identified, words) else {
        return Err(LineRefused::Reason(BoardReason::Range));
    };
    let Ok(opcodes) = opcodes_of(alloc, &device) else {
        return Err(LineRefused::Memory);
    };
    if !are_opcodes(&opcodes, device.ir_len) {
        return Err(LineRefused::Reason(BoardReason::Range));
    }
    if repeats_in_board(&device, &opcodes, devices) {
        return Err(LineRefused::Reason(BoardReason::Duplicate));
    }
    if awaits_register(devices) {
        return Err(LineRefused::Reason(BoardReason::Empty));
    }
    if devices.len() >= MOST_DEVICES {
        return Err(LineRefused::Reason(BoardReason::TooMany));
    }
    let Ok(()) = devices.push(device) else {
        return Err(LineRefused::Memory);
    };
    Ok(())
}

// The register of a line, where no reason speaks against it.
fn read_register(
    alloc: Global,
    constant: bool,
    words: &[&[u8]],
    earlier: &[Desc],
) -> Result<RegDesc, LineRefused>
    requires shape { fits (places_of (shapes.Register constant)) (texts words.now) ≡ true }
    requires narrow { All IsNarrow earlier.now }
    ensures register { IfOk result (λ r. r ≡ (register_line constant (texts words.now)).description) }
    ensures owner { OnOk result (IsSome (open_device earlier.now)) }
    ensures faultless { let content = Some (register (register_line constant (texts words.now))) in
        OnOk result ((r : BoardReason) → ¬ ReasonAgainst earlier.now content r) }
    ensures fault { let content = Some (register (register_line constant (texts words.now))) in
        (r : BoardReason) → result ≡ Err (lines_refused.Reason r) →
        IsSmallest (ReasonAgainst earlier.now content) r }
{
    let Some(register) = register(constant, words) else {
        return Err(LineRefused::Reason(BoardReason::Range));
    };
    let Some(device) = open_device(earlier) else {
        return Err(LineRefused::Reason(BoardReason::Misplaced));
    };
    if !is_opcode(register.op, device.ir_len) {
        return Err(LineRefused::Reason(BoardReason::Range));
    }
    let Ok(opcodes) = opcodes_of(alloc, device) else {
        return Err(LineRefused::Memory);
    };
    if repeats_in_device(&register, &opcodes, device) {
        return Err(LineRefused::Reason(BoardReason::Duplicate));
    }
    if device.registers.len() >= MOST_REGISTERS {
        return Err(LineRefused::Reason(BoardReason::TooMany));
    }
    let Ok(register) = register.description(alloc) else {
        return Err(LineRefused::Memory);
    };
    Ok(register)
}

// A device with one more register.
fn with_register(device: Desc, register: RegDesc) -> Result<Desc, AllocError>
    ensures { IfOk result (λ d. d ≡ with_register register device) }
{
    let Desc {
        kind,
        name,
        ir_len,
        id,
        registers,
        flash,
    } = device;
    let mut registers = registers.into_items();
    registers.push(register)?;
    Ok(Desc {
        kind,
        name,
        ir_len,
        id,
        registers: ItemList::of(registers),
        flash,
    })
}

// Gives the last device the register of a line.
fn add_register(
    alloc: Global,
    constant: bool,
    words: &[&[u8]],
    devices: &mut Vec<Desc>,
) -> Result<(), LineRefused>
    requires shape { fits (places_of (shapes.Register constant)) (texts words.now) ≡ true }
    requires narrow { All IsNarrow devices.old.items }
    ensures added { let content = Some (register (register_line constant (texts words.now))) in
        OnOk result (Extends devices.old.items content devices.new.items) }
    ensures fault { let content = Some (register (register_line constant (texts words.now))) in
        (r : BoardReason) → result ≡ Err (lines_refused.Reason r) →
        IsSmallest (ReasonAgainst devices.old.items content) r }
{
    let register = read_register(alloc, constant, words, devices)?;
    let device = devices.pop().unwrap();
    let Ok(device) = with_register(device, register) else {
        return Err(LineRefused::Memory);
    };
    let Ok(()) = devices.push(device) else {
        return Err(LineRefused::Memory);
    };
    Ok(())
}

// Reads a line after those that gave these devices.
fn read_line(alloc: Global, line: &[u8], devices: &mut Vec<Desc>) -> Result<(), LineRefused>
    requires { All IsNarrow devices.old.items }
    ensures read { OnOk result (LeadsTo (is_skipped line.now) devices.old.items line.now devices.new.items) }
    ensures fault { (r : BoardReason) → result ≡ Err (lines_refused.Reason r) →
        (is_skipped line.now ≡ false) × IsSmallest (HasReason devices.old.items line.now) r }
{
    if is_skipped(line) {
        return Ok(());
    }
    let Ok(words) = words_of(alloc, line) else {
        return Err(LineRefused::Memory);
    };
    match shape_of(&words) {
        Some(Shape::Device { kind, identified }) => {
            add_device(alloc, kind, identified, &words, devices)
        }
        Some(Shape::Register { constant }) => add_register(alloc, constant, &words, devices),
        None => Err(LineRefused::Reason(BoardReason::Form)),
    }
}

// Whether the end may not come after these devices.
fn is_unfinished(devices: &[Desc]) -> bool
    ensures { IsTrue result ↔ IsUnfinished devices.now }
{
    devices.is_empty() || awaits_register(devices)
}

/// The devices of a board, in the order of their lines: the first is nearest TDO. Each description is good; there are 1
/// to 64 of them, with different names. The notation is this profile's.
///
/// `At` has the first faulty line, counted from 1, and the smallest of its reasons. It is line 0 if the text has more
/// than 1,048,576 bytes, and the line after the last if the end comes too early. `Memory` is want of memory. The time
/// is linear in the length of the text.
pub fn read_board(alloc: Global, text: &[u8]) -> Result<Vec<Desc>, BoardTextRefused>
    ensures board { IfOk result (λ devices. IsBoard text.now devices.items) }
    ensures good { IfOk result (λ devices. All IsGood devices.items) }
    ensures some { IfOk result (λ devices. 1 ≤ length devices.items) }
    ensures few { IfOk result (λ devices. length devices.items ≤ most_devices) }
    ensures names_apart { IfOk result (λ devices. AllPairs (λ (a b : Desc). a.name ≢ b.name) devices.items) }
    ensures fault { (line : ℕ) (reason : BoardReason) → result ≡ Err (refusals.At line reason) →
        IsFirstFault text.now line reason }
{
    if text.len() > MOST_BYTES {
        return Err(BoardTextRefused::At {
            line: 0,
            reason: BoardReason::TooLong,
        });
    }
    let mut devices = Vec::new(alloc);
    let mut count = 0;
    let mut at = 0;
    'lines: while at < text.len() {
        let (line, len) = first_line(&text[at..]);
        count += 1;
        match read_line(alloc, line, &mut devices) {
            Ok(()) => {}
            Err(LineRefused::Reason(reason)) => {
                return Err(BoardTextRefused::At {
                    line: count,
                    reason,
                });
            }
            Err(LineRefused::Memory) => return Err(BoardTextRefused::Memory),
        }
        at += len;
    }
    if is_unfinished(&devices) {
        return Err(BoardTextRefused::At {
            line: count + 1,
            reason: BoardReason::Empty,
        });
    }
    Ok(devices)
}
