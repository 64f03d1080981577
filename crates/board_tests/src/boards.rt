//! Boards: what good ones hold, and a bad one.
use board_text::{BoardReason, BoardTextRefused, read_board};
use dev_card::{Desc, FlashDesc, IdCode, Kind, RegDesc};
use std::test::Fail;

// Whether a device is a Plain with this name, this length of its instruction register, and this identity with its
// opcode.
fn is_plain(device: &Desc, name: &str, ir_len: u32, id: Option<(u32, u64)>) -> bool {
    let id = id.map(|(value, op)| IdCode { value, op });
    let is_named = device.name.bytes() == name.as_bytes();
    is_named && device.kind == Kind::Plain && device.ir_len == ir_len && device.id == id
}

// Each text with its devices: the name, the length of the instruction register, and the identity with its opcode.
#[test]
fn reads_boards(rt: HostRuntime) -> Result<(), Fail> {
    let table: [(&str, &[(&str, u32, Option<(u32, u64)>)]); 9] = [
        ("plain U1 4", &[("U1", 4, None)]),
        ("plain U1 4\n", &[("U1", 4, None)]),
        ("plain U1 4\r\n\r\n\n", &[("U1", 4, None)]),
        (
            "' plain U0 1\n\nplain U1 2\nplain U2 64",
            &[("U1", 2, None), ("U2", 64, None)],
        ),
        (" \tplain\t\tU1  4 \t\n", &[("U1", 4, None)]),
        ("plain if 4", &[("IF", 4, None)]),
        (
            "plain u_1 8 id 0A1B2C3D 01",
            &[("U_1", 8, Some((0x0A1B_2C3D, 1)))],
        ),
        (
            "plain U1 2 id fFfFfFfF 2\nplain U2 2 id 00000001 0000000000000000",
            &[("U1", 2, Some((u32::MAX, 2))), ("U2", 2, Some((1, 0)))],
        ),
        (
            "plain U1 64 id 00000003 FFFFFFFFFFFFFFFE",
            &[("U1", 64, Some((3, u64::MAX - 1)))],
        ),
    ];
    for (text, want) in table {
        let devices = read_board(rt.alloc(), text.as_bytes())?;
        assert!(rt; devices.len() == want.len(), "at {text:?}");
        for (device, (name, ir_len, id)) in devices.iter().zip(want) {
            assert!(rt; is_plain(device, name, *ir_len, *id), "at {text:?}");
        }
    }
    Ok(())
}

// Whether a register has this name, this opcode and this length, and no constant.
fn is_kept(register: &RegDesc, name: &[u8], op: u64, len: u32) -> bool {
    register.name.bytes() == name
        && register.op == op
        && register.len == len
        && register.constant.is_none()
}

#[test]
fn reads_registers(rt: HostRuntime) -> Result<(), Fail> {
    let text =
        "regs U1 4 id 0A1B2C3D 01\nreg A 2 8 keep\nreg B 3 5 const 1a\nregs U4 64\nreg A 0 65536 keep\n";
    let devices = read_board(rt.alloc(), text.as_bytes())?;
    assert!(rt; devices.len() == 2);
    let registers = devices[0].registers.as_slice();
    assert!(rt; devices[0].kind == Kind::Regs && registers.len() == 2);
    assert!(rt; is_kept(&registers[0], b"A", 2, 8));
    let widest = devices[1].registers.as_slice();
    assert!(rt; widest.len() == 1 && is_kept(&widest[0], b"A", 0, 65536));
    assert!(rt; registers[1].op == 3);
    let constant = registers[1].constant.as_ref().ok_or("no constant")?;
    assert!(rt; constant.len() == 5);
    for (i, bit) in [false, true, false, true, true].iter().enumerate() {
        assert!(rt; constant.get(i as u32) == *bit, "at {i}");
    }
    Ok(())
}

#[test]
fn reads_memories(rt: HostRuntime) -> Result<(), Fail> {
    let text =
        "flash U2 8 id 0A1B2C3D 01 erase 10 addr 11 prog 12 read 13 words 4 width 8 busy 3 fill 0\n\
        flash U3 8 erase 0 addr 1 prog 2 read FE words 4096 width 4096 busy 1000000 fill 1\n";
    let devices = read_board(rt.alloc(), text.as_bytes())?;
    assert!(rt; devices.len() == 2);
    let first = FlashDesc {
        erase: 0x10,
        addr: 0x11,
        prog: 0x12,
        read: 0x13,
        words: 4,
        width: 8,
        busy: 3,
        fill: false,
    };
    assert!(rt; devices[0].flash == Some(first));
    let second = FlashDesc {
        erase: 0,
        addr: 1,
        prog: 2,
        read: 0xFE,
        words: 4096,
        width: 4096,
        busy: 1_000_000,
        fill: true,
    };
    assert!(rt; devices[1].flash == Some(second));
    Ok(())
}

// The plays of boards show which line is the first faulty one, and why.
#[test]
fn names_the_first_faulty_line(rt: HostRuntime) {
    let refused = read_board(rt.alloc(), b"plain U1 4\nplain U1 1").err();
    let want = BoardTextRefused::At {
        line: 2,
        reason: BoardReason::Range,
    };
    assert!(rt; refused == Some(want));
}

#[test]
fn reasons_of_boards_have_numbers_and_names(rt: HostRuntime) {
    assert!(rt; BoardReason::Form.number() == 1);
    assert!(rt; BoardReason::TooLong.number() == 7);
    assert!(rt; BoardReason::TooMany.name() == b"TooMany".as_slice());
}
