//! What the tool answers if a call of the store or of the sink fails: each of them in turn.
use crate::plays::{Outside, answer};
use play_words::Status;
use std::alloc::Global;
use std::test::Fail;

const WORDS: [&str; 5] = [
    "play",
    "board=b",
    "program=p",
    "action=PROGRAM",
    "report=yes",
];

const BOARD: &str =
    "flash U1 8 id 0A1B2C3D 01 erase 10 addr 11 prog 12 read 13 words 4 width 8 busy 3 fill 0\n";

// A program as a device tool writes it, and what it writes.
const PROGRAM: &str = "NOTE \"DEVICE\" \"EXAMPLE FLASH\";
ACTION PROGRAM \"Program and verify\" =
  ERASE RECOMMENDED, WRITE, VERIFY, SHOW_ID OPTIONAL;
DATA IMAGE;
BOOLEAN DATA_BITS[16] = $5AC3;
INTEGER COUNT = 2;
ENDDATA;
PROCEDURE ERASE;
IRSCAN 8, $10;
DRSCAN 1, #1;
WAIT IDLE, 3 CYCLES, 10 USEC;
ENDPROC;
PROCEDURE WRITE USES IMAGE;
INTEGER I;
IRSCAN 8, $11;
DRSCAN 16, $0000;
IRSCAN 8, $12;
FOR I = 0 TO COUNT - 1;
DRSCAN 8, DATA_BITS[8*I+7..8*I];
WAIT 3 CYCLES;
NEXT I;
ENDPROC;
PROCEDURE VERIFY USES IMAGE;
INTEGER I;
BOOLEAN OK;
IRSCAN 8, $11;
DRSCAN 16, $0000;
IRSCAN 8, $13;
FOR I = 0 TO COUNT - 1;
DRSCAN 8, $00, COMPARE DATA_BITS[8*I+7..8*I], $FF, OK;
IF !OK THEN GOTO BAD;
NEXT I;
PRINT \"VERIFIED \", COUNT, \" WORDS\";
GOTO DONE;
BAD: PRINT \"FAILED AT \", I;
EXIT 11;
DONE: ENDPROC;
PROCEDURE SHOW_ID;
BOOLEAN ID[32];
STATE RESET;
DRSCAN 32, $00000000, CAPTURE ID[];
EXPORT \"IDCODE\", ID[];
ENDPROC;
CRC 0000;
";

const TEXT: &[u8] = b"W 10\nP VERIFIED 2 WORDS\nD U1 ir=13 addr=0002 0=C3 1=5A\nE exit 0\n";

// The status and the text of the play, of which the write and the pick or read with these numbers fail.
fn played(alloc: Global, write: u32, read: u32) -> Result<(Status, Vec<u8>), Fail> {
    let outside = Outside {
        bite: 16,
        write,
        read,
    };
    answer(alloc, &WORDS, [BOARD, PROGRAM], outside)
}

// The text has 64 bytes, and a write takes 16 of them.
#[test]
fn writes_a_prefix_if_a_write_fails(rt: HostRuntime) -> Result<(), Fail> {
    for number in 1..1000u32 {
        let (status, written) = played(rt.alloc(), number, 0)?;
        if status == Status::Done(0) {
            assert!(rt; number > 4 && written.as_slice() == TEXT);
            return Ok(());
        }
        assert!(rt; status == Status::WriteFault, "write {number}");
        assert!(rt; TEXT.starts_with(&written), "write {number}");
    }
    Err("no play is whole".into())
}

// Each of the two files is picked, read, and read to its end.
#[test]
fn writes_nothing_if_a_pick_or_a_read_fails(rt: HostRuntime) -> Result<(), Fail> {
    for number in 1..1000u32 {
        let (status, written) = played(rt.alloc(), 0, number)?;
        if status == Status::Done(0) {
            assert!(rt; number > 6 && written.as_slice() == TEXT);
            return Ok(());
        }
        assert!(rt; status == Status::ReadFault, "call {number}");
        assert!(rt; written.is_empty(), "call {number}");
    }
    Err("no play is whole".into())
}
