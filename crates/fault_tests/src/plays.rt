//! Plays in which each call of the cable fails in turn.
ghost use Rattle.std.specs.Prelude.{◌≡◌, ◌<◌, ◌≤◌, length, All};
ghost use Rattle.dev_card.specs.Descriptions.{IsGood};
ghost use Rattle.dev_card.specs.Board.{most_devices};
ghost use Rattle.scan_paths.specs.Cables.{whole};
ghost use Rattle.stapl_code.specs.Safe.{AllBelow};
ghost use Rattle.stapl_machine.specs.Machines.{IsPrepared};

use crate::cable::FailingCable;
use base::Steps;
use board_text::read_board;
use chain_sim::{Chain, fit_board};
use dev_card::{Desc, Device};
use device_rack::{fill_rack, is_rack};
use scan_paths::{BasePads, Cable};
use stapl_checker::check;
use stapl_codegen::generate;
use stapl_lexer::Name;
use stapl_machine::Machine;
use stapl_meaning::Ending;
use stapl_player::{base_pads, choose, play};
use std::alloc::Global;
use std::marker::Brand;
use std::sync::ledger::{Blank, Ledger};
use std::test::Fail;
use tool_io::{Lines, MemSink};
use valid_codes::Code;
use written_cable::Trouble;

/// A program with an action A, the lines that its play puts, and the numbers of its waits and frequencies.
#[derive(Clone, Copy)]
struct Case {
    program: &'static str,
    lines: &'static [u8],
    waits: &'static [u32],
    frequencies: &'static [u32],
}

const CASES: [Case; 2] = [
    Case {
        program: "ACTION A=P;PROCEDURE P;BOOLEAN X[8];IRSCAN 4,$2;DRSCAN 8,$A5;DRSCAN 8,$3C,CAPTURE X[];EXPORT \"X\",X[];ENDPROC;",
        lines: b"X X = $A5\n",
        waits: &[],
        frequencies: &[],
    },
    Case {
        program: "ACTION A=P;PROCEDURE P;WAIT 2 CYCLES,5 USEC;FREQUENCY 1E6 HZ;STATE IRPAUSE,RESET;WAIT 7 USEC;ENDPROC;",
        lines: b"W 5\nF 1000000\nW 7\n",
        waits: &[5, 7],
        frequencies: &[1_000_000],
    },
];

const BOARD: &str = "plain U1 2\nregs U2 4\nreg R 2 8 keep\nplain U3 5\n";

/// What is played: chosen procedures of the code of a case, with base padding for a device of a board.
#[derive(Clone, Copy)]
struct Play<'a> {
    case: &'a Case,
    code: &'a Code,
    chosen: &'a [u32],
    devices: &'a [Desc],
    base: BasePads,
}

// Whether a play on a machine and over a cable exits with 0 and puts the lines of its case, or why it is broken off.
fn plays_on<C: Cable, L: Ledger>(
    alloc: Global,
    played: &Play,
    machine: &mut Machine,
    cable: &mut C,
    blank: Blank,
) -> Result<Result<bool, Trouble>, Fail>
    requires prepared { IsPrepared played.now.code.now machine.old }
    requires below { AllBelow (length played.now.code.now.procedures) played.now.chosen.now }
    requires cable { C.breakage cable.old ≡ whole }
    requires name { blank.name ≡ L.name }
    requires parts { blank.parts ≡ L.parts }
    requires some { 0 < L.parts }
{
    let mut sink = MemSink::new(alloc, 1000, 100, Vec::new(alloc))?;
    let mut lines = Lines::new(&mut sink);
    let mut steps = Steps::<L>::none(blank);
    match play(
        machine,
        played.code,
        played.chosen,
        &played.base,
        cable,
        &mut lines,
        false,
        1000,
        &mut steps,
    ) {
        Ok(ending) => {
            lines.finish()?;
            Ok(Ok(ending == Ending::Exit(0) && sink.written() == played.case.lines))
        }
        Err(trouble) => Ok(Err(trouble)),
    }
}

// The same on a new machine.
fn plays_over<C: Cable, L: Ledger>(
    alloc: Global,
    played: &Play,
    cable: &mut C,
    blank: Blank,
) -> Result<Result<bool, Trouble>, Fail>
    requires below { AllBelow (length played.now.code.now.procedures) played.now.chosen.now }
    requires cable { C.breakage cable.old ≡ whole }
    requires name { blank.name ≡ L.name }
    requires parts { blank.parts ≡ L.parts }
    requires some { 0 < L.parts }
{
    let mut machine = Machine::prepare(alloc, played.code)?;
    let answer = plays_on::<C, L>(alloc, played, &mut machine, cable, blank);
    drop(machine);
    answer
}

// The same with calls of the cable that fail; and whether the cable gets the waits and frequencies of the case.
fn plays_through<C: Cable + Drop>(
    alloc: Global,
    played: &Play,
    cable: C,
    failing: Vec<u32>,
) -> Result<Result<bool, Trouble>, Fail>
    requires below { AllBelow (length played.now.code.now.procedures) played.now.chosen.now }
    requires cable { C.breakage cable ≡ whole }
{
    let mut cable = FailingCable::over(alloc, cable, failing);
    let blank = Blank::new(1);
    let answer = plays_over::<_, Brand>(alloc, played, &mut cable, blank)?;
    Ok(match answer {
        Ok(is_right) => {
            Ok(is_right && cable.has_made(played.case.waits, played.case.frequencies))
        }
        Err(trouble) => Err(trouble),
    })
}

// The same over the fresh devices of its board.
fn plays(
    alloc: Global,
    played: &Play,
    rack: &mut Vec<Box<dyn Device>>,
    failing: &[u32],
) -> Result<Result<bool, Trouble>, Fail>
    requires below { AllBelow (length played.now.code.now.procedures) played.now.chosen.now }
    requires some { 1 ≤ length played.now.devices.now }
    requires most { length played.now.devices.now ≤ most_devices }
    requires good { All IsGood played.now.devices.now }
{
    if !is_rack(rack) {
        return Err("no rack".into());
    }
    let places = fit_board(alloc, rack, played.devices)?;
    let failing = Vec::from_slice(alloc, failing)?;
    plays_through(alloc, played, Chain::over(rack, &places), failing)
}

// Plays with a call of the cable that fails, and after each fault again with none that does, until a play is whole:
// how many of its calls have failed.
fn faults_of(alloc: Global, played: &Play, rack: &mut Vec<Box<dyn Device>>) -> Result<u32, Fail>
    requires below { AllBelow (length played.now.code.now.procedures) played.now.chosen.now }
    requires some { 1 ≤ length played.now.devices.now }
    requires most { length played.now.devices.now ≤ most_devices }
    requires good { All IsGood played.now.devices.now }
{
    for number in 1..10_000u32 {
        match plays(alloc, played, rack, &[number])? {
            Ok(true) => return Ok(number - 1),
            Err(Trouble::CableFault) => {}
            _ => return Err("a wrong play, or a write fault".into()),
        }
        if plays(alloc, played, rack, &[])? != Ok(true) {
            return Err("a wrong play after a fault".into());
        }
    }
    Err("no play is whole".into())
}

// The same on a new rack.
fn faults_on_a_rack(alloc: Global, played: &Play) -> Result<u32, Fail>
    requires below { AllBelow (length played.now.code.now.procedures) played.now.chosen.now }
    requires some { 1 ≤ length played.now.devices.now }
    requires most { length played.now.devices.now ≤ most_devices }
    requires good { All IsGood played.now.devices.now }
{
    let mut rack: Vec<Box<dyn Device>> = Vec::new(alloc);
    fill_rack!(alloc, rack);
    let faults = faults_of(alloc, played, &mut rack);
    drop(rack);
    faults
}

// The same of these procedures of a code, for the second device of a board.
fn faults_on_a_board(
    alloc: Global,
    case: &Case,
    code: &Code,
    chosen: &[u32],
    devices: &[Desc],
) -> Result<u32, Fail>
    requires below { AllBelow (length code.now.procedures) chosen.now }
    requires most { length devices.now ≤ most_devices }
    requires good { All IsGood devices.now }
{
    if devices.len() < 2 {
        return Err("no second device".into());
    }
    let played = Play {
        case,
        code,
        chosen,
        devices,
        base: base_pads(devices, 2, 2),
    };
    faults_on_a_rack(alloc, &played)
}

// The same of the board above.
fn faults_of_chosen(alloc: Global, case: &Case, code: &Code, chosen: &[u32]) -> Result<u32, Fail>
    requires { AllBelow (length code.now.procedures) chosen.now }
{
    let devices = read_board(alloc, BOARD.as_bytes())?;
    let faults = faults_on_a_board(alloc, case, code, chosen, &devices);
    drop(devices);
    faults
}

// The same of the action A of a code.
fn faults_of_code(alloc: Global, case: &Case, code: &Code) -> Result<u32, Fail> {
    let name = Name::read(b"A").ok_or("no name")?;
    let chosen = choose(alloc, code, &name, &[], &[])?;
    let faults = faults_of_chosen(alloc, case, code, &chosen);
    drop(chosen);
    faults
}

// The code of a program.
fn code_of(alloc: Global, text: &str) -> Result<Code, Fail> {
    let program = check(alloc, text.as_bytes())?;
    let code = generate(alloc, &program);
    drop(program);
    Ok(code?)
}

// The same of a program.
fn faults_of_case(alloc: Global, case: &Case) -> Result<u32, Fail> {
    let code = code_of(alloc, case.program)?;
    let faults = faults_of_code(alloc, case, &code);
    drop(code);
    faults
}

// A play has five clocks first, and here more than twenty calls of the cable in all.
#[test]
fn plays_again_after_each_fault_of_the_cable(rt: HostRuntime) -> Result<(), Fail> {
    for case in CASES {
        let faults = faults_of_case(rt.alloc(), &case)?;
        assert!(rt; faults > 20, "{}", case.program);
    }
    Ok(())
}
