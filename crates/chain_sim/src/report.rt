//! The report of a board: a line for each device, with what it holds.
ghost use Rattle.std.specs.Prelude.{◌≡◌, ◌<◌, ◌≤◌, ◌+◌, ◌-◌, ◌*◌, ◌^◌, ◌++◌, pos, codes, drop, length, map, IsSomeAnd};
ghost use Rattle.std.specs.Fmt.{signed_decimal};
ghost use Rattle.base.specs.Bits.{number_of};
ghost use Rattle.bit_list.specs.Ranges.{taken};
ghost use Rattle.dev_card.specs.declared.desc.Kind.TheVariants as kinds;
ghost use Rattle.bit_list.specs.Hexadecimal.{all_hex_digits};
ghost use Rattle.dev_card.specs.PaddedScan.{descriptions_of};
ghost use Rattle.dev_card.specs.Reports.{named_text, registers_text, are_ones, word_text, words_text, memory_text};
ghost use Rattle.dev_card.specs.Sound.{card_in};
ghost use Rattle.tool_io.specs.Lines.{IsWhole, HasPut};
ghost use Rattle.chain_sim.specs.Places.{card_at, cards_at};
ghost use Rattle.chain_sim.specs.Reports.{cells_in, cell_in, instruction_in, held_in, line_in, report_in};

use dev_card::{Desc, Device, Kind, RegDesc};
use tool_io::{Failed, Lines, Sink, put_count, put_hex};

// The length of a cell in bits.
fn length_of<D: Device>(device: &D, cell: u32) -> u32
    requires { cell < length (cells_in (card_in (D.fitted device.now))) }
    ensures { result ≡ length (cell_in (card_in (D.fitted device.now)) cell) }
{
    device.cell_len(cell)
}

// The n bits of a cell from bit `at` on, of which there are at most 64, as a number.
fn word_of<D: Device>(device: &D, cell: u32, at: u32, n: u32) -> u64
    requires cell { cell < length (cells_in (card_in (D.fitted device.now))) }
    requires most { n ≤ 64 }
    requires inside { at + n ≤ length (cell_in (card_in (D.fitted device.now)) cell) }
    ensures { result ≡ number_of (taken at n (cell_in (card_in (D.fitted device.now)) cell)) }
{
    device.cell_word(cell, at, n)
}

// Puts all digits of a cell, the highest first.
fn put_cell<D: Device, K: Sink>(out: &mut Lines<K>, device: &D, cell: u32) -> Result<(), Failed>
    requires whole { IsWhole out.old }
    requires cell { cell < length (cells_in (card_in (D.fitted device.now))) }
    ensures { HasPut K.Sink out.old
        (all_hex_digits (cell_in (card_in (D.fitted device.now)) cell)) out.new result }
{
    let mut left = length_of(device, cell);
    'down: while left > 0 {
        let low = (left - 1) / 64 * 64;
        put_hex(out, word_of(device, cell, low, left - low), left - low)?;
        left = low;
    }
    Ok(())
}

// Puts a name, between a space and an equals sign.
fn put_name<K: Sink>(out: &mut Lines<K>, name: &[u8]) -> Result<(), Failed>
    requires { IsWhole out.old }
    ensures { HasPut K.Sink out.old (codes " " ++ name.now ++ codes "=") out.new result }
{
    out.put(b" ")?;
    out.put(name)?;
    out.put(b"=")?;
    Ok(())
}

// Puts a cell under a name.
fn put_named_cell<D: Device, K: Sink>(
    out: &mut Lines<K>,
    name: &[u8],
    device: &D,
    cell: u32,
) -> Result<(), Failed>
    requires whole { IsWhole out.old }
    requires cell { cell < length (cells_in (card_in (D.fitted device.now))) }
    ensures { HasPut K.Sink out.old
        (named_text name.now (all_hex_digits (cell_in (card_in (D.fitted device.now)) cell))) out.new result }
{
    put_name(out, name)?;
    put_cell(out, device, cell)?;
    Ok(())
}

// Puts the registers of a Regs.
fn put_registers<D: Device, K: Sink>(
    out: &mut Lines<K>,
    device: &D,
    registers: &[RegDesc],
) -> Result<(), Failed>
    requires whole { IsWhole out.old }
    requires cells { length registers.now ≡ length (cells_in (card_in (D.fitted device.now))) }
    requires few { length registers.now ≤ 64 }
    ensures { HasPut K.Sink out.old
        (registers_text registers.now (cells_in (card_in (D.fitted device.now)))) out.new result }
{
    for i in 0..registers.len() {
        put_named_cell(out, registers[i].name.bytes(), device, i as u32)?;
    }
    Ok(())
}

// The number of n ones.
fn ones(n: u32) -> u64
    requires some { 1 ≤ n }
    requires most { n ≤ 64 }
    ensures { result ≡ 2 ^ n - 1 }
{
    u64::MAX >> (64 - n)
}

// Whether all bits of a cell are 1.
fn is_ones<D: Device>(device: &D, cell: u32) -> bool
    requires { cell < length (cells_in (card_in (D.fitted device.now))) }
    ensures { result ≡ are_ones (cell_in (card_in (D.fitted device.now)) cell) }
{
    let len = length_of(device, cell);
    let mut at = 0;
    'up: while at < len {
        let n = (len - at).min(64);
        if word_of(device, cell, at, n) != ones(n) {
            return false;
        }
        at += n;
    }
    true
}

// Puts a cell under a number.
fn put_numbered_cell<D: Device, K: Sink>(
    out: &mut Lines<K>,
    number: u32,
    device: &D,
    cell: u32,
) -> Result<(), Failed>
    requires whole { IsWhole out.old }
    requires cell { cell < length (cells_in (card_in (D.fitted device.now))) }
    ensures { HasPut K.Sink out.old
        (named_text (signed_decimal (pos number)) (all_hex_digits (cell_in (card_in (D.fitted device.now)) cell)))
        out.new result }
{
    put_count(out, b" ", number)?;
    out.put(b"=")?;
    put_cell(out, device, cell)?;
    Ok(())
}

// Puts a word of a Flash, which stands in the cell after that of its number. Nothing is put of a word of ones.
fn put_word<D: Device, K: Sink>(out: &mut Lines<K>, device: &D, number: u32) -> Result<(), Failed>
    requires whole { IsWhole out.old }
    requires cell { number + 1 < length (cells_in (card_in (D.fitted device.now))) }
    requires fits { number + 1 < 2 ^ 32 }
    ensures { HasPut K.Sink out.old
        (word_text number (cell_in (card_in (D.fitted device.now)) (number + 1))) out.new result }
{
    if is_ones(device, number + 1) {
        return Ok(());
    }
    put_numbered_cell(out, number, device, number + 1)
}

// How many cells the device has.
fn count_of<D: Device>(device: &D) -> u32
    requires { 1 ≤ length (cells_in (card_in (D.fitted device.now))) }
    ensures { result ≡ length (cells_in (card_in (D.fitted device.now))) }
{
    device.cells()
}

// Puts the words of a Flash, which stand in all cells but the first.
fn put_words<D: Device, K: Sink>(out: &mut Lines<K>, device: &D) -> Result<(), Failed>
    requires whole { IsWhole out.old }
    requires address { 1 ≤ length (cells_in (card_in (D.fitted device.now))) }
    ensures { HasPut K.Sink out.old
        (words_text 0 (drop 1 (cells_in (card_in (D.fitted device.now))))) out.new result }
{
    for number in 0..count_of(device) - 1 {
        put_word(out, device, number)?;
    }
    Ok(())
}

// Puts the address of a Flash and its words.
fn put_memory<D: Device, K: Sink>(out: &mut Lines<K>, device: &D) -> Result<(), Failed>
    requires whole { IsWhole out.old }
    requires address { 1 ≤ length (cells_in (card_in (D.fitted device.now))) }
    ensures { HasPut K.Sink out.old (memory_text (cells_in (card_in (D.fitted device.now)))) out.new result }
{
    put_named_cell(out, b"addr", device, 0)?;
    put_words(out, device)?;
    Ok(())
}

// Puts what a device with this description holds.
fn put_held<D: Device, K: Sink>(out: &mut Lines<K>, device: &D, desc: &Desc) -> Result<(), Failed>
    requires whole { IsWhole out.old }
    requires desc { IsSomeAnd (card_in (D.fitted device.now)) (λ c. c.desc ≡ desc.now) }
    ensures { HasPut K.Sink out.old (held_in (card_in (D.fitted device.now))) out.new result }
{
    match desc.kind {
        Kind::Plain => Ok(()),
        Kind::Regs => put_registers(out, device, desc.registers.as_slice()),
        Kind::Flash => put_memory(out, device),
    }
}

// Puts the instruction in force under its name.
fn put_instruction<D: Device, K: Sink>(
    out: &mut Lines<K>,
    device: &D,
    desc: &Desc,
) -> Result<(), Failed>
    requires whole { IsWhole out.old }
    requires desc { IsSomeAnd (card_in (D.fitted device.now)) (λ c. c.desc ≡ desc.now) }
    ensures { HasPut K.Sink out.old (instruction_in (card_in (D.fitted device.now))) out.new result }
{
    let opcode = device.instruction();
    put_name(out, b"ir")?;
    put_hex(out, opcode, desc.ir_len)?;
    Ok(())
}

// Puts the line of a device with this description.
fn put_line<D: Device, K: Sink>(out: &mut Lines<K>, device: &D, desc: &Desc) -> Result<(), Failed>
    requires whole { IsWhole out.old }
    requires desc { IsSomeAnd (card_in (D.fitted device.now)) (λ c. c.desc ≡ desc.now) }
    ensures { HasPut K.Sink out.old (line_in (card_in (D.fitted device.now))) out.new result }
{
    let name = desc.name.bytes();
    out.put(b"D ")?;
    out.put(name)?;
    put_instruction(out, device, desc)?;
    put_held(out, device, desc)?;
    out.put(b"\n")?;
    Ok(())
}

/// Puts the report of a board: for each of these places of the rack the line of its device, in their order. The devices
/// are fitted, and these are their descriptions.
///
/// A line has the device's name, the instruction in force, and what a `Regs` or a `Flash` holds. It takes no memory, no
/// device changes, and the time is linear in the bits that the devices hold.
///
/// `Failed` as of the sink.
pub fn put_report<D: Device, K: Sink>(
    out: &mut Lines<K>,
    rack: &[D],
    places: &[u32],
    descs: &[Desc],
) -> Result<(), Failed>
    requires whole { IsWhole out.old }
    requires board { IsSomeAnd (cards_at (map D.fitted rack.now) places.now) (λ cs. descriptions_of cs ≡ descs.now) }
    ensures { HasPut K.Sink out.old (report_in (cards_at (map D.fitted rack.now) places.now)) out.new result }
{
    for i in 0..descs.len() {
        let desc = &descs[i];
        let place = places[i] as usize;
        put_line(out, &rack[place], desc)?;
    }
    Ok(())
}
