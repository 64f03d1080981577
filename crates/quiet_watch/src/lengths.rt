// The lengths of the registers that a scan goes through (IEEE 1149.1, clause 8, selection of test data registers).
ghost use Rattle.std.specs.Prelude.{◌≡◌, ◌<◌, ℕ, map, Some, IsSome, IfSome, vec_len};
ghost use Rattle.std.specs.Option.{option_map};
ghost use Rattle.dev_card.specs.Card.{register_with, flash_register_with, kind_selects, selected_by, selected_length};
ghost use Rattle.chain_sim.specs.Places.{card_at, cards_at};
ghost use Rattle.quiet_watch.specs.Watches.{length_by, lengths_by};
ghost use Rattle.quiet_watch.specs.WatchedRacks.{cards_there};

use dev_card::{Desc, Device, FlashDesc, Kind, RegDesc};

// The length of the register that an opcode selects among these, or of BYPASS.
fn register_length(registers: &[RegDesc], opcode: u64) -> u32
    ensures { (k : ℕ) → result ≡ selected_length (register_with registers.now opcode k) }
{
    match registers.split_first() {
        None => 1,
        Some((register, _)) if register.op == opcode => register.len,
        Some((_, rest)) => register_length(rest, opcode),
    }
}

// The length of the register of a Flash that an opcode selects, or of BYPASS.
fn flash_length(flash: Option<FlashDesc>, opcode: u64) -> u32
    ensures { result ≡ selected_length (flash_register_with flash opcode) }
{
    match flash {
        None => 1,
        Some(f) => {
            if f.addr == opcode {
                16
            } else if f.erase == opcode {
                1
            } else if f.prog == opcode {
                f.width
            } else if f.read == opcode {
                f.width
            } else {
                1
            }
        }
    }
}

// The length of the register of a kind that an opcode selects, or of BYPASS.
fn kind_length(desc: &Desc, opcode: u64) -> u32
    ensures { result ≡ selected_length (kind_selects desc.now.kind desc.now opcode) }
{
    match desc.kind {
        Kind::Plain => 1,
        Kind::Regs => register_length(desc.registers.as_slice(), opcode),
        Kind::Flash => flash_length(desc.flash, opcode),
    }
}

// The length of the data register that an opcode selects.
fn data_length(desc: &Desc, opcode: u64) -> u32
    ensures { result ≡ selected_length (selected_by desc.now opcode) }
{
    match desc.id {
        Some(id) if id.op == opcode => 32,
        _ => kind_length(desc, opcode),
    }
}

// The length of the register of the device at a place that a scan goes through.
fn length_at<D: Device>(rack: &Vec<D>, place: usize, desc: &Desc, ir: bool) -> u64
    requires inside { place < vec_len rack.now }
    requires fitted { IsSome (card_at (map D.fitted rack.now.items) place) }
    ensures { option_map (λ c. length_by ir desc.now c) (card_at (map D.fitted rack.now.items) place) ≡ Some result }
{
    let opcode = rack[place].instruction();
    if ir {
        u64::from(desc.ir_len)
    } else {
        u64::from(data_length(desc, opcode))
    }
}

/// How many bits the registers of the devices at these places have that a scan goes through, true for the instruction
/// registers. The devices are fitted, and these are their descriptions. There is no answer if the number does not fit.
pub fn lengths<D: Device>(rack: &Vec<D>, places: &[u32], descs: &[Desc], ir: bool) -> Option<u64>
    requires fitted { IsSome (cards_at (map D.fitted rack.now.items) places.now) }
    ensures { IfSome result (λ n. n ≡ lengths_by ir descs.now
        (cards_there (cards_at (map D.fitted rack.now.items) places.now))) }
{
    match descs.split_first() {
        None => Some(0),
        Some((desc, more)) => match places.split_first() {
            None => Some(0),
            Some((first, rest)) => {
                let after = lengths(rack, rest, more, ir)?;
                length_at(rack, *first as usize, desc, ir).checked_add(after)
            }
        },
    }
}
