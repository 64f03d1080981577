//! A code that the machine runs over a cable that answers 1, and that fails after some calls. What codes do on devices
//! is shown by cases of tests/.
ghost use Rattle.std.specs.Prelude.{◌≡◌, ◌<◌, length};
ghost use Rattle.stapl_machine.specs.Machines.{IsPrepared};

use crate::wire::Wire;
use base::Steps;
use code_files::decode_code;
use scan_paths::BasePads;
use stapl_machine::Machine;
use stapl_meaning::Ending;
use std::alloc::Global;
use std::marker::Brand;
use std::sync::ledger::{Blank, Ledger};
use std::test::Fail;
use tool_io::{Lines, MemSink};
use valid_codes::Code;
use written_cable::Trouble;

// The file of a code with an array of 4 BOOLEAN and the text A, from its head to the number of its instructions. It
// has the procedures P and Q. A line is a part of the file, or an instruction:
// P is Turn 3, Push 66, Wait IDLE clocks IDLE, Turn 4, EndProc. Q is Turn 7, State IRPAUSE RESET, Turn 8, Push 2,
// Push 5, Wait IDLE clocks microseconds IDLE, Turn 9, Push 1000000, Frequency stated, Turn 10, Push 3, Push 5, Scan of
// data registers, which shifts bits of an integer in and captures into the array, Turn 11, Export of the array, Turn
// 12, EndProc.
const FILE: &[u8] = b"STAPLC\0\x02\
    \0\0\0\x01\x03\0\0\0\x04\
    \0\0\0\0\
    \0\0\0\x01\0\0\0\x01A\
    \0\0\0\x02\x01P\0\0\0\0\x01Q\0\0\0\x05\
    \0\0\0\x01\x01A\0\0\0\x01\0\0\0\0\0\
    \0\0\0\x16\
    \x01\0\0\0\x03\
    \x02\0\0\0\x42\
    \x20\x01\x01\x01\
    \x01\0\0\0\x04\
    \x17\
    \x01\0\0\0\x07\
    \x1F\0\0\0\x02\x0D\0\
    \x01\0\0\0\x08\
    \x02\0\0\0\x02\
    \x02\0\0\0\x05\
    \x20\x01\x03\x01\
    \x01\0\0\0\x09\
    \x02\0\x0F\x42\x40\
    \x21\x01\
    \x01\0\0\0\x0A\
    \x02\0\0\0\x03\
    \x02\0\0\0\x05\
    \x1C\0\x03\x01\x01\0\0\0\0\
    \x01\0\0\0\x0B\
    \x1A\0\0\0\0\x02\x01\0\0\0\0\
    \x01\0\0\0\x0C\
    \x17";

// What Q and then P write on a cable with TDO 1, with the clocks and without. The clocks are those of the state diagram
// of IEEE 1149.1, as digits: TMS counts 4, TDI counts 2 and TDO counts 1.
const CLOCKS: &[u8] =
    b"C 5555515515155555111\nW 5\nF 1000000\nC 5113171551\nX A = $7\nC 1111111111111111111111111111111111111111111111111111111111111111\nC 11\n";

const LINES: &[u8] = b"W 5\nF 1000000\nX A = $7\n";

/// How many calls of the cable do not fail, whether pins are written, and what a whole run writes.
#[derive(Clone, Copy)]
struct Run {
    calls: u32,
    pins: bool,
    text: &'static [u8],
}

// Runs the second procedure of a code and then the first one, on a machine and over a cable that fails after so many
// calls. Whether the run exits with 0 and writes this text, or why it is broken off.
fn run_on<L: Ledger>(
    alloc: Global,
    code: &Code,
    machine: &mut Machine,
    run: &Run,
    blank: Blank,
) -> Result<Result<bool, Trouble>, Fail>
    requires prepared { IsPrepared code.now machine.old }
    requires two { length code.now.procedures ≡ 2 }
    requires name { blank.name ≡ L.name }
    requires parts { blank.parts ≡ L.parts }
    requires some { 0 < L.parts }
{
    let mut wire = Wire {
        left: run.calls,
        is_broken: false,
    };
    if machine.reset_chain(&mut wire).is_err() {
        return Err("broken off before the run".into());
    }
    let mut sink = MemSink::new(alloc, 1000, 100, Vec::new(alloc))?;
    let mut lines = Lines::new(&mut sink);
    let mut steps = Steps::<L>::none(blank);
    match machine.run(
        code,
        &[1, 0],
        &BasePads::none(),
        &mut wire,
        &mut lines,
        run.pins,
        10,
        &mut steps,
    ) {
        Ok(ending) => {
            lines.finish()?;
            Ok(Ok(ending == Ending::Exit(0) && sink.written() == run.text))
        }
        Err(trouble) => Ok(Err(trouble)),
    }
}

// The same on a new machine.
fn run_code(alloc: Global, code: &Code, run: &Run) -> Result<Result<bool, Trouble>, Fail> {
    if code.raw().lists().procedures.len() != 2 {
        return Err("not two procedures".into());
    }
    let mut machine = Machine::prepare(alloc, code)?;
    let answer = run_on::<Brand>(alloc, code, &mut machine, run, Blank::new(1));
    drop(machine);
    answer
}

// The same of the code above.
fn run_file(
    alloc: Global,
    calls: u32,
    pins: bool,
    text: &'static [u8],
) -> Result<Result<bool, Trouble>, Fail> {
    let code = decode_code(alloc, FILE)?;
    let answer = run_code(alloc, &code, &Run { calls, pins, text });
    drop(code);
    answer
}

// After the five first clocks and fourteen others stands the wait of 5 microseconds, and then the frequency. After
// these stands the scan, which shifts its bits by its fourth call.
#[test]
fn clocks_the_chain(rt: HostRuntime) -> Result<(), Fail> {
    let alloc = rt.alloc();
    assert!(rt; run_file(alloc, 100, true, CLOCKS)? == Ok(true));
    assert!(rt; run_file(alloc, 100, false, LINES)? == Ok(true));
    for calls in [19, 20, 25] {
        let found = run_file(alloc, calls, true, CLOCKS)?;
        assert!(rt; found == Err(Trouble::CableFault), "with {calls} calls");
    }
    Ok(())
}
