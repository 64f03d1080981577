//! Scans of a device of any kind, and what it holds.
ghost use Rattle.std.specs.Prelude.{IsSome};
ghost use Rattle.dev_card.specs.Sound.{card_in};

use dev_card::Device;

// TDO, and then a clock.
fn answer<D: Device>(device: &mut D, tms: bool, tdi: bool) -> bool
    requires { IsSome (card_in (D.fitted device.old)) }
    ensures { IsSome (card_in (D.fitted device.new)) }
{
    let tdo = device.tdo();
    device.clock(tms, tdi);
    tdo
}

/// Whether the device answers these values at TDO, each before a clock with these values at TMS and TDI.
pub fn answers<D: Device>(device: &mut D, tms: &str, tdi: &str, tdo: &str) -> bool
    requires { IsSome (card_in (D.fitted device.old)) }
    ensures { IsSome (card_in (D.fitted device.new)) }
{
    let (tms, tdi, tdo) = (tms.as_bytes(), tdi.as_bytes(), tdo.as_bytes());
    if tms.len() != tdi.len() || tdi.len() != tdo.len() {
        return false;
    }
    let mut right = true;
    for i in 0..tms.len() {
        let seen = answer(device, tms[i] == b'1', tdi[i] == b'1');
        right = right && seen == (tdo[i] == b'1');
    }
    right
}

// Whether a scan, from the idle state and back to it, sees these bits while those go in, the bit of lowest value first.
fn scans<D: Device>(device: &mut D, of_instructions: bool, sent: &str, seen: &str) -> bool
    requires { IsSome (card_in (D.fitted device.old)) }
    ensures { IsSome (card_in (D.fitted device.new)) }
{
    let way = if of_instructions { "1100" } else { "100" };
    for tms in way.as_bytes() {
        device.clock(*tms == b'1', true);
    }
    let (sent, seen) = (sent.as_bytes(), seen.as_bytes());
    if sent.len() != seen.len() {
        return false;
    }
    let mut right = true;
    for i in 0..sent.len() {
        let bit = answer(device, i == sent.len() - 1, sent[i] == b'1');
        right = right && bit == (seen[i] == b'1');
    }
    device.clock(true, true);
    device.clock(false, true);
    right
}

/// The number of the first row whose scan sees other bits than the row says. A row says whether the scan is one of the
/// instruction register, what goes in, and what is seen.
pub fn first_wrong<D: Device>(device: &mut D, rows: &[(bool, &str, &str)]) -> Option<usize>
    requires { IsSome (card_in (D.fitted device.old)) }
    ensures { IsSome (card_in (D.fitted device.new)) }
{
    for i in 0..rows.len() {
        let (of_instructions, sent, seen) = rows[i];
        if !scans(device, of_instructions, sent, seen) {
            return Some(i);
        }
    }
    None
}

/// Whether a cell holds these bits, the bit of lowest value first.
pub fn holds<D: Device>(device: &D, cell: u32, bits: &str) -> bool
    requires { IsSome (card_in (D.fitted device.now)) }
{
    let bits = bits.as_bytes();
    if cell >= device.cells() || device.cell_len(cell) as usize != bits.len() {
        return false;
    }
    for i in 0..device.cell_len(cell) {
        if device.cell_bit(cell, i) != (bits[i as usize] == b'1') {
            return false;
        }
    }
    true
}
