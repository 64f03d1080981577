//! Tests of descriptions of devices.
use base::ItemList;
use bit_list::Bits;
use dev_card::{Desc, FlashDesc, IdCode, Kind, RegDesc};
use stapl_lexer::Name;
use std::alloc::{AllocError, Global};
use std::test::Fail;

// A description with all parts that there are.
fn described(alloc: Global) -> Result<Desc, Fail> {
    let name = Name::read(b"U1").ok_or("no name")?;
    let register = RegDesc {
        name,
        op: 0x2,
        len: 8,
        constant: Some(Bits::from_hex(alloc, b"A5")?),
    };
    Ok(Desc {
        kind: Kind::Regs,
        name,
        ir_len: 4,
        id: Some(IdCode {
            value: 0x1234_5679,
            op: 0xE,
        }),
        registers: ItemList::of(vec![in alloc; register]?),
        flash: Some(FlashDesc {
            erase: 3,
            addr: 4,
            prog: 5,
            read: 6,
            words: 4096,
            width: 16,
            busy: 10,
            fill: true,
        }),
    })
}

// Whether all parts of two descriptions are alike.
fn are_alike(desc: &Desc, other: &Desc) -> bool {
    desc.kind == other.kind
        && desc.name == other.name
        && desc.ir_len == other.ir_len
        && desc.id == other.id
        && desc.registers.as_slice() == other.registers.as_slice()
        && desc.flash == other.flash
}

// Whether the copy of a description has all its parts.
fn is_copied(alloc: Global, desc: &Desc) -> Result<bool, AllocError> {
    let copy = desc.copied(alloc)?;
    let alike = are_alike(&copy, desc);
    drop(copy);
    Ok(alike)
}

fn copies_a_description(alloc: Global) -> Result<bool, Fail> {
    let desc = described(alloc)?;
    let copied = is_copied(alloc, &desc);
    drop(desc);
    Ok(copied?)
}

#[test]
fn copies_all_parts_of_a_description(rt: HostRuntime) -> Result<(), Fail> {
    assert!(rt; copies_a_description(rt.alloc())?);
    Ok(())
}
