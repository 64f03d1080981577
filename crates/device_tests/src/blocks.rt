//! Tests of blocks against as many single clocks.
ghost use Rattle.std.specs.Prelude.{IsSome};
ghost use Rattle.stapl_lexer.specs.Names.{IsUpperName};
ghost use Rattle.dev_card.specs.Descriptions.{IsGood};
ghost use Rattle.dev_card.specs.Sound.{card_in};

use crate::devices::{plain, registers};
use crate::kinds::flash;
use dev_card::{Desc, Device, FitRefused};
use dev_kinds::{Flash, Plain, Regs};
use stapl_lexer::Name;
use std::alloc::Global;
use std::test::Fail;

// TMS from reset to each state of the controller (IEEE 1149.1, TAP controller state diagram).
const WAYS: [&str; 16] = [
    "", "0", "01", "010", "0100", "0101", "01010", "010101", "01011", "011", "0110", "01100",
    "01101", "011010", "0110101", "011011",
];

// What goes in and comes out to tell two cards apart: through the data register, to reset and through it again.
const TMS: &str =
    "000100100000000000000000000000000000000000001011011111010000000000000000000000000000000000000000000";

fn clock_along<D: Device>(device: &mut D, tms: &str)
    requires { IsSome (card_in (D.fitted device.old)) }
    ensures { IsSome (card_in (D.fitted device.new)) }
{
    for byte in tms.as_bytes() {
        device.clock(*byte == b'1', true);
    }
}

// A block by single clocks.
fn by_clocks<D: Device>(device: &mut D, tdi: u64, n: u32, last: bool) -> u64
    requires { IsSome (card_in (D.fitted device.old)) }
    ensures { IsSome (card_in (D.fitted device.new)) }
{
    let mut rest = tdi;
    let mut seen = 0u64;
    for i in 0..n {
        if device.tdo() {
            seen = seen.wrapping_add(1u64 << (i % 64));
        }
        let ends = last && i == n - 1;
        device.clock(ends, rest % 2 == 1);
        rest /= 2;
    }
    seen
}

// Whether two devices have the same instruction in force, and answer the same from here on.
fn are_alike<D: Device>(device: &mut D, twin: &mut D) -> bool
    requires own { IsSome (card_in (D.fitted device.old)) }
    requires twin { IsSome (card_in (D.fitted twin.old)) }
    ensures own { IsSome (card_in (D.fitted device.new)) }
    ensures twin { IsSome (card_in (D.fitted twin.new)) }
{
    let mut same = device.instruction() == twin.instruction();
    for byte in TMS.as_bytes() {
        let (seen, other) = (device.tdo(), twin.tdo());
        same = same && seen == other;
        device.clock(*byte == b'1', true);
        twin.clock(*byte == b'1', true);
    }
    same
}

// Whether a block of a device is as many clocks of its twin, after this way from power-up and this instruction.
fn is_block<D: Device>(
    device: &mut D,
    twin: &mut D,
    opcode: &str,
    way: &str,
    n: u32,
    last: bool,
) -> bool
    requires own { IsSome (card_in (D.fitted device.old)) }
    requires twin { IsSome (card_in (D.fitted twin.old)) }
    ensures own { IsSome (card_in (D.fitted device.new)) }
    ensures twin { IsSome (card_in (D.fitted twin.new)) }
{
    device.blank();
    twin.blank();
    clock_along(device, opcode);
    clock_along(twin, opcode);
    clock_along(device, way);
    clock_along(twin, way);
    let tdi = 0x9E37_79B9_7F4A_7C15;
    let n = n.max(1).min(64);
    let seen = device.shift_block(tdi, n, last);
    let other = by_clocks(twin, tdi, n, last);
    let alike = are_alike(device, twin);
    seen == other && alike
}

fn all_blocks<D: Device>(device: &mut D, twin: &mut D) -> Option<(usize, u32, bool)>
    requires own { IsSome (card_in (D.fitted device.old)) }
    requires twin { IsSome (card_in (D.fitted twin.old)) }
{
    for i in 0..WAYS.len() {
        for n in [1u32, 7, 63, 64] {
            for last in [false, true] {
                if !is_block(device, twin, "", WAYS[i], n, last) {
                    return Some((i, n, last));
                }
            }
        }
    }
    None
}

// Fits both devices, and the first block of one that is not as many clocks of the other.
fn wrong_block<D: Device>(
    alloc: Global,
    mut device: D,
    mut twin: D,
    desc: &Desc,
) -> Result<Option<(usize, u32, bool)>, FitRefused>
    requires { IsGood desc.now }
{
    device.fit(alloc, desc)?;
    twin.fit(alloc, desc)?;
    Ok(all_blocks(&mut device, &mut twin))
}

fn shifts_in_a_plain(alloc: Global, name: Name) -> bool
    requires { IsUpperName name }
{
    let desc = plain(name, true, alloc);
    let wrong = wrong_block(alloc, Plain::unfitted(), Plain::unfitted(), &desc);
    drop(desc);
    wrong == Ok(None)
}

fn shifts_in_registers(alloc: Global, name: Name) -> Result<bool, Fail>
    requires { IsUpperName name }
{
    let desc = registers(name, alloc)?;
    let wrong = wrong_block(alloc, Regs::unfitted(), Regs::unfitted(), &desc);
    drop(desc);
    Ok(wrong == Ok(None))
}

fn shifts_in_a_flash(alloc: Global, name: Name) -> bool
    requires { IsUpperName name }
{
    let desc = flash(alloc, name);
    let wrong = wrong_block(alloc, Flash::unfitted(), Flash::unfitted(), &desc);
    drop(desc);
    wrong == Ok(None)
}

#[test]
fn shifts_blocks_as_single_clocks(rt: HostRuntime) -> Result<(), Fail> {
    let name = Name::read(b"U1").ok_or("no name")?;
    assert!(rt; shifts_in_a_plain(rt.alloc(), name));
    assert!(rt; shifts_in_registers(rt.alloc(), name)?);
    assert!(rt; shifts_in_a_flash(rt.alloc(), name));
    Ok(())
}
