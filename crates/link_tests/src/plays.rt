//! A play over a wire in memory, of which each call fails in turn.
ghost use Rattle.std.specs.Prelude.{◌≡◌, ◌<◌, ◌≤◌, length, true, All};
ghost use Rattle.dev_card.specs.Descriptions.{IsGood};
ghost use Rattle.dev_card.specs.Board.{most_devices};
ghost use Rattle.scan_paths.specs.Cables.{whole};
ghost use Rattle.stapl_code.specs.Safe.{AllBelow};
ghost use Rattle.stapl_machine.specs.Machines.{IsPrepared};
ghost use Rattle.link_cable.specs.LinkCables.{cable_breakage};

use base::Steps;
use board_text::read_board;
use chain_sim::fit_board;
use dev_card::{Desc, Device};
use device_rack::{fill_rack, is_rack};
use link_cable::{LinkCable, MemWire, Wire};
use link_play::play_linked;
use scan_paths::BasePads;
use stapl_checker::check;
use stapl_codegen::generate;
use stapl_lexer::Name;
use stapl_machine::Machine;
use stapl_meaning::Ending;
use stapl_player::{base_pads, choose};
use std::alloc::Global;
use std::marker::Brand;
use std::sync::ledger::{Blank, Ledger};
use std::test::Fail;
use tool_io::{Lines, MemSink};
use valid_codes::Code;
use written_cable::Trouble;

/// A program with an action A, its board, the lines that its play puts, and from which number on calls of the wire
/// fail, one in each play.
#[derive(Clone, Copy)]
struct Case {
    board: &'static str,
    program: &'static str,
    lines: &'static [u8],
    first: u32,
}

/// A scan, of which each call fails in turn; and a flash that is erased, written and verified, in a play that has
/// fewer calls.
const CASES: [Case; 2] = [
    Case {
        board: "regs U1 4\nreg R 2 8 keep\n",
        program: "ACTION A=P;PROCEDURE P;BOOLEAN X[4];IRSCAN 4,$2;DRSCAN 4,$5,CAPTURE X[];EXPORT \"X\",X[];ENDPROC;",
        lines: b"X X = $0\n",
        first: 1,
    },
    Case {
        board: "flash U1 8 id 0A1B2C3D 01 erase 10 addr 11 prog 12 read 13 words 4 width 8 busy 3 fill 0\n",
        program: "ACTION A=ERASE,WRITE,VERIFY;
DATA IMAGE;BOOLEAN DATA_BITS[16]=$5AC3;INTEGER COUNT=2;ENDDATA;
PROCEDURE ERASE;IRSCAN 8,$10;DRSCAN 1,#1;WAIT IDLE,3 CYCLES,10 USEC;ENDPROC;
PROCEDURE WRITE USES IMAGE;INTEGER I;IRSCAN 8,$11;DRSCAN 16,$0000;IRSCAN 8,$12;
FOR I=0 TO COUNT-1;DRSCAN 8,DATA_BITS[8*I+7..8*I];WAIT 3 CYCLES;NEXT I;ENDPROC;
PROCEDURE VERIFY USES IMAGE;INTEGER I;BOOLEAN OK;IRSCAN 8,$11;DRSCAN 16,$0000;IRSCAN 8,$13;
FOR I=0 TO COUNT-1;DRSCAN 8,$00,COMPARE DATA_BITS[8*I+7..8*I],$FF,OK;IF !OK THEN GOTO BAD;NEXT I;
PRINT \"VERIFIED \",COUNT,\" WORDS\";GOTO DONE;BAD:PRINT \"FAILED AT \",I;EXIT 11;DONE:ENDPROC;",
        lines: b"W 10\nP VERIFIED 2 WORDS\n",
        first: 9000,
    },
];

/// What is played: chosen procedures of a code, on a board of one device.
#[derive(Clone, Copy)]
struct Play<'a> {
    case: &'a Case,
    code: &'a Code,
    chosen: &'a [u32],
    devices: &'a [Desc],
    base: BasePads,
}

// Whether a play on a machine and over a cable exits with 0 and puts its lines, or why it is broken off.
fn plays_on<W: Wire, L: Ledger>(
    alloc: Global,
    played: &Play,
    machine: &mut Machine,
    cable: &mut LinkCable<W>,
    blank: Blank,
) -> Result<Result<bool, Trouble>, Fail>
    requires prepared { IsPrepared played.now.code.now machine.old }
    requires below { AllBelow (length played.now.code.now.procedures) played.now.chosen.now }
    requires cable { cable_breakage W.is_ready cable.old ≡ whole }
    requires name { blank.name ≡ L.name }
    requires parts { blank.parts ≡ L.parts }
    requires some { 0 < L.parts }
{
    let mut sink = MemSink::new(alloc, 1000, 100, Vec::new(alloc))?;
    let mut lines = Lines::new(&mut sink);
    let mut steps = Steps::<L>::none(blank);
    match play_linked(
        machine,
        played.code,
        played.chosen,
        &played.base,
        cable,
        &mut lines,
        false,
        1000,
        &mut steps,
    ) {
        Ok(ending) => {
            lines.finish()?;
            Ok(Ok(ending == Ending::Exit(0) && sink.written() == played.case.lines))
        }
        Err(trouble) => Ok(Err(trouble)),
    }
}

// The same on a new machine, and over a wire.
fn plays_over<W: Wire, L: Ledger>(
    alloc: Global,
    played: &Play,
    wire: &mut W,
    blank: Blank,
) -> Result<Result<bool, Trouble>, Fail>
    requires below { AllBelow (length played.now.code.now.procedures) played.now.chosen.now }
    requires wire { W.is_ready wire.old ≡ true }
    requires name { blank.name ≡ L.name }
    requires parts { blank.parts ≡ L.parts }
    requires some { 0 < L.parts }
{
    let mut machine = Machine::prepare(alloc, played.code)?;
    let mut cable = LinkCable::over(wire);
    let answer = plays_on::<_, L>(alloc, played, &mut machine, &mut cable, blank);
    drop(machine);
    answer
}

// The same over a wire that is made for it.
fn plays_through<W: Wire>(
    alloc: Global,
    played: &Play,
    wire: &mut W,
) -> Result<Result<bool, Trouble>, Fail>
    requires below { AllBelow (length played.now.code.now.procedures) played.now.chosen.now }
    requires wire { W.is_ready wire.old ≡ true }
{
    let blank = Blank::new(1);
    plays_over::<W, Brand>(alloc, played, wire, blank)
}

// The same over the fresh device of its board, with calls of the wire that fail.
fn plays(
    alloc: Global,
    played: &Play,
    rack: &mut Vec<Box<dyn Device>>,
    failing: &[u32],
) -> Result<Result<bool, Trouble>, Fail>
    requires below { AllBelow (length played.now.code.now.procedures) played.now.chosen.now }
    requires some { 1 ≤ length played.now.devices.now }
    requires most { length played.now.devices.now ≤ most_devices }
    requires good { All IsGood played.now.devices.now }
{
    if !is_rack(rack) {
        return Err("no rack".into());
    }
    let places = fit_board(alloc, rack, played.devices)?;
    let failing = Vec::from_slice(alloc, failing)?;
    let mut wire = MemWire::over(rack, &places, failing);
    plays_through(alloc, played, &mut wire)
}

// Plays with a call of the wire that fails, one call after the other, until a play is whole: how many
// calls have failed.
fn faults_of(alloc: Global, played: &Play, rack: &mut Vec<Box<dyn Device>>) -> Result<u32, Fail>
    requires below { AllBelow (length played.now.code.now.procedures) played.now.chosen.now }
    requires some { 1 ≤ length played.now.devices.now }
    requires most { length played.now.devices.now ≤ most_devices }
    requires good { All IsGood played.now.devices.now }
{
    let first = played.case.first;
    for number in first..10_000u32 {
        match plays(alloc, played, rack, &[number])? {
            Ok(true) => return Ok(number - first),
            Err(Trouble::CableFault) => {}
            _ => return Err("a wrong play, or a write fault".into()),
        }
    }
    Err("no play is whole".into())
}

// The same on a new rack.
fn faults_on_a_rack(alloc: Global, played: &Play) -> Result<u32, Fail>
    requires below { AllBelow (length played.now.code.now.procedures) played.now.chosen.now }
    requires some { 1 ≤ length played.now.devices.now }
    requires most { length played.now.devices.now ≤ most_devices }
    requires good { All IsGood played.now.devices.now }
{
    let mut rack: Vec<Box<dyn Device>> = Vec::new(alloc);
    fill_rack!(alloc, rack);
    let faults = faults_of(alloc, played, &mut rack);
    drop(rack);
    faults
}

// The same of these procedures of a code, for the device of a board.
fn faults_on_a_board(
    alloc: Global,
    case: &Case,
    code: &Code,
    chosen: &[u32],
    devices: &[Desc],
) -> Result<u32, Fail>
    requires below { AllBelow (length code.now.procedures) chosen.now }
    requires most { length devices.now ≤ most_devices }
    requires good { All IsGood devices.now }
{
    if devices.is_empty() {
        return Err("no device".into());
    }
    let played = Play {
        case,
        code,
        chosen,
        devices,
        base: base_pads(devices, 1, 1),
    };
    faults_on_a_rack(alloc, &played)
}

// The same of the board of a case.
fn faults_of_chosen(alloc: Global, case: &Case, code: &Code, chosen: &[u32]) -> Result<u32, Fail>
    requires { AllBelow (length code.now.procedures) chosen.now }
{
    let devices = read_board(alloc, case.board.as_bytes())?;
    let faults = faults_on_a_board(alloc, case, code, chosen, &devices);
    drop(devices);
    faults
}

// The same of the action A of a code.
fn faults_of_code(alloc: Global, case: &Case, code: &Code) -> Result<u32, Fail> {
    let name = Name::read(b"A").ok_or("no name")?;
    let chosen = choose(alloc, code, &name, &[], &[])?;
    let faults = faults_of_chosen(alloc, case, code, &chosen);
    drop(chosen);
    faults
}

// The code of a program.
fn code_of(alloc: Global, text: &str) -> Result<Code, Fail> {
    let program = check(alloc, text.as_bytes())?;
    let code = generate(alloc, &program);
    drop(program);
    Ok(code?)
}

// The same of a case.
fn faults_of_case(alloc: Global, case: &Case) -> Result<u32, Fail> {
    let code = code_of(alloc, case.program)?;
    let faults = faults_of_code(alloc, case, &code);
    drop(code);
    faults
}

// Each clock sends once and receives once. After the last of these calls a play is whole, and puts its lines.
#[test]
fn a_play_is_whole_if_no_call_of_its_wire_fails(rt: HostRuntime) -> Result<(), Fail> {
    let [scan, flash] = CASES;
    let faults = faults_of_case(rt.alloc(), &scan)?;
    assert!(rt; faults > 40);
    let none = faults_of_case(rt.alloc(), &flash)?;
    assert!(rt; none == 0);
    Ok(())
}
