//! Tests of devices with registers and of flashes, by scans.
ghost use Rattle.std.specs.Prelude.{◌≡◌, ◌≢◌, length, IfOk, IsSome};
ghost use Rattle.stapl_lexer.specs.Names.{IsUpperName};
ghost use Rattle.dev_card.specs.declared.desc.Kind.TheVariants as kinds;
ghost use Rattle.dev_card.specs.Descriptions.{IsGood};
ghost use Rattle.dev_card.specs.Sound.{card_in};

use crate::scans::{answers, first_wrong, holds};
use base::ItemList;
use bit_list::Bits;
use dev_card::{Desc, Device, FitRefused, FlashDesc, IdCode, Kind, RegDesc};
use dev_kinds::{Flash, Regs};
use stapl_lexer::Name;
use std::alloc::Global;
use std::test::Fail;

// A Regs with two registers: opcode 4 selects one of 5 bits, and opcode 5 one of 8 bits that captures this constant.
fn registers(alloc: Global, keep: Name, fixed: Name, constant: Bits) -> Result<Desc, Fail>
    requires keep { IsUpperName keep }
    requires fixed { IsUpperName fixed }
    requires apart { keep ≢ fixed }
    requires constant { length constant ≡ 8 }
    ensures good { IfOk result IsGood }
    ensures kind { IfOk result (λ d. d.kind ≡ kinds.Regs) }
{
    let first = RegDesc {
        name: keep,
        op: 4,
        len: 5,
        constant: None,
    };
    let second = RegDesc {
        name: fixed,
        op: 5,
        len: 8,
        constant: Some(constant),
    };
    Ok(Desc {
        kind: Kind::Regs,
        name: keep,
        ir_len: 4,
        id: None,
        registers: ItemList::of(vec![in alloc; first, second]?),
        flash: None,
    })
}

// A Flash of two words of four bits, with an identity. It is busy for two clocks.
pub fn flash(alloc: Global, name: Name) -> Desc
    requires { IsUpperName name }
    ensures good { IsGood result }
    ensures kind { result.kind ≡ kinds.Flash }
{
    Desc {
        kind: Kind::Flash,
        name,
        ir_len: 4,
        id: Some(IdCode {
            value: 0x1234_5679,
            op: 2,
        }),
        registers: ItemList::of(Vec::new(alloc)),
        flash: Some(FlashDesc {
            erase: 4,
            addr: 5,
            prog: 6,
            read: 7,
            words: 2,
            width: 4,
            busy: 2,
            fill: false,
        }),
    }
}

// What a device does after power-up: its scans, of which each row says whether it is one of the instruction register,
// what goes in, and what is seen; the instruction after them; and its cells, after the scans and after it is blanked.
struct Course {
    scans: &'static [(bool, &'static str, &'static str)],
    instruction: u64,
    cells: &'static [&'static str],
    blanked: &'static [&'static str],
}

const OF_REGISTERS: Course = Course {
    scans: &[
        (true, "0010", "1000"),
        (false, "11001", "00000"),
        (false, "00110", "11001"),
        (true, "1010", "1000"),
        (false, "11110000", "10100101"),
        (false, "11110001", "10100101"),
        (true, "0010", "1000"),
        (false, "10110", "00110"),
        (true, "0110", "1000"),
    ],
    instruction: 6,
    cells: &["10110", "11110001"],
    blanked: &["00000", "00000000"],
};

// The busy count of a Flash falls by one at the begin of each scan.
const OF_A_FLASH: Course = Course {
    scans: &[
        // the first word is zeros, and the address rises
        (true, "1110", "1000"),
        (false, "1111", "0000"),
        // 0 erases nothing; 1 erases, but not while the memory is busy
        (true, "0010", "1000"),
        (false, "0", "0"),
        (false, "1", "0"),
        (false, "1", "1"),
        (false, "0", "0"),
        // the address, and programming from 0 on: the second scan comes while the memory is busy, and does nothing
        (true, "1010", "1000"),
        (false, "0000000000000000", "1000000000000000"),
        (true, "0110", "1000"),
        (false, "0101", "0000"),
        (false, "0000", "1000"),
        (false, "0011", "0000"),
        (true, "0110", "1000"),
        // past the last word nothing is programmed, but the address rises
        (false, "0000", "0000"),
        (true, "1010", "1000"),
        (false, "1111111111111111", "1100000000000000"),
        // ones are read there, and after the last address comes 0
        (true, "1110", "1000"),
        (false, "0000", "1111"),
        // a bit that is 0 stays 0
        (true, "0110", "1000"),
        (false, "1001", "0000"),
        (true, "1010", "1000"),
        (false, "0000000000000000", "1000000000000000"),
        (true, "1110", "1000"),
        (false, "0000", "0001"),
        (false, "0000", "0011"),
        (false, "0000", "1111"),
    ],
    instruction: 7,
    cells: &["1100000000000000", "0001", "0011"],
    blanked: &["0000000000000000", "0000", "0000"],
};

// Whether these are the cells of a device.
fn has_cells<D: Device>(device: &D, cells: &[&str]) -> bool
    requires { IsSome (card_in (D.fitted device.now)) }
{
    if device.cells() as usize != cells.len() {
        return false;
    }
    for i in 0..device.cells() {
        if !holds(device, i, cells[i as usize]) {
            return false;
        }
    }
    true
}

// Fits a device. The first scan that sees other bits than the course says, and whether all else is as it says.
fn takes<D: Device>(
    alloc: Global,
    mut device: D,
    desc: &Desc,
    course: &Course,
) -> Result<(Option<usize>, bool), FitRefused>
    requires { IsGood desc.now }
{
    device.fit(alloc, desc)?;
    let is_awake = answers(&mut device, "0", "0", "1");
    let wrong = first_wrong(&mut device, course.scans);
    let holds = device.instruction() == course.instruction && has_cells(&device, course.cells);
    device.blank();
    let is_blank = has_cells(&device, course.blanked);
    Ok((wrong, is_awake && holds && is_blank))
}

// The same of registers.
fn registers_take(alloc: Global, course: &Course) -> Result<(Option<usize>, bool), Fail> {
    let keep = Name::read(b"KEEP").ok_or("no name")?;
    let fixed = Name::read(b"FIXED").ok_or("no name")?;
    let constant = Bits::from_hex(alloc, b"A5")?;
    if keep == fixed || constant.len() != 8 {
        return Err("no constant".into());
    }
    let desc = registers(alloc, keep, fixed, constant)?;
    let taken = takes(alloc, Regs::unfitted(), &desc, course);
    drop(desc);
    Ok(taken?)
}

// The same of a Flash in a box.
fn flash_takes(alloc: Global, course: &Course) -> Result<(Option<usize>, bool), Fail> {
    let name = Name::read(b"U1").ok_or("no name")?;
    let device: Box<dyn Device> = Box::new(alloc, Flash::unfitted())?;
    let desc = flash(alloc, name);
    let taken = takes(alloc, device, &desc, course);
    drop(desc);
    Ok(taken?)
}

#[test]
fn keeps_registers(rt: HostRuntime) -> Result<(), Fail> {
    let (wrong, holds) = registers_take(rt.alloc(), &OF_REGISTERS)?;
    assert!(rt; wrong.is_none() && holds, "{wrong:?}");
    Ok(())
}

#[test]
fn erases_programs_and_reads(rt: HostRuntime) -> Result<(), Fail> {
    let (wrong, holds) = flash_takes(rt.alloc(), &OF_A_FLASH)?;
    assert!(rt; wrong.is_none() && holds, "{wrong:?}");
    Ok(())
}
