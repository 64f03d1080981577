//! Tests of blocks of a chain against as many single clocks.
ghost use Rattle.std.specs.Prelude.{◌≡◌, ◌≤◌, map, length, All, IsTrue, OnOk};
ghost use Rattle.dev_card.specs.Board.{most_devices};
ghost use Rattle.dev_card.specs.Descriptions.{IsGood};
ghost use Rattle.scan_paths.specs.Cables.{whole};
ghost use Rattle.chain_sim.specs.Places.{is_chain};
ghost use Rattle.chain_sim.specs.Rack.{IsRack};

use crate::chain::board;
use chain_sim::{Chain, fit_board};
use dev_card::{Desc, Device};
use device_rack::{MOST_DEVICES, fill_rack, is_rack};
use scan_paths::{Cable, reset_chain};
use stapl_lexer::Name;
use std::alloc::Global;
use std::test::Fail;
use tool_io::Failed;

/// From reset to idle by a scan of the instruction registers, which selects the identification register of the first
/// device, a register of the second one, and the words of the third one. A clock is a digit: TMS counts 4, and TDI
/// counts 2.
const OPCODES: &str = "04400020000202224040";

/// From idle to each state of the controller (IEEE 1149.1, TAP controller state diagram), in digits as above.
const WAYS: [&str; 16] = [
    "444", "", "4", "40", "400", "404", "4040", "40404", "4044", "44", "440", "4400", "4404",
    "44040", "440404", "44044",
];

/// What goes in and comes out to tell two chains apart: through the data registers, and through the instruction
/// registers.
const BEYOND: &str =
    "444440400020202020202020202020202020202020202020202020202044044002020202020202020";

// Makes the clocks of these digits.
fn clock_along<C: Cable>(cable: &mut C, digits: &str) -> Result<(), Failed>
    requires { C.breakage cable.old ≡ whole }
    ensures { OnOk result (C.breakage cable.new ≡ whole) }
{
    for digit in digits.as_bytes() {
        cable.clock(*digit & 4 != 0, *digit & 2 != 0)?;
    }
    Ok(())
}

// A block by single clocks.
fn by_clocks<C: Cable>(cable: &mut C, tdi: u64, n: u32, last: bool) -> Result<u64, Failed>
    requires { C.breakage cable.old ≡ whole }
    ensures { OnOk result (C.breakage cable.new ≡ whole) }
{
    let mut rest = tdi;
    let mut seen = 0u64;
    for i in 0..n {
        if cable.clock(last && i == n - 1, rest % 2 == 1)? {
            seen = seen.wrapping_add(1u64 << (i % 64));
        }
        rest /= 2;
    }
    Ok(seen)
}

// Whether two chains answer the same from here on.
fn are_alike<C: Cable>(cable: &mut C, twin: &mut C) -> Result<bool, Failed>
    requires own { C.breakage cable.old ≡ whole }
    requires twin { C.breakage twin.old ≡ whole }
    ensures own { OnOk result (C.breakage cable.new ≡ whole) }
    ensures twin { OnOk result (C.breakage twin.new ≡ whole) }
{
    let mut same = true;
    for digit in BEYOND.as_bytes() {
        let (tms, tdi) = (*digit & 4 != 0, *digit & 2 != 0);
        let seen = cable.clock(tms, tdi)?;
        let other = twin.clock(tms, tdi)?;
        same = same && seen == other;
    }
    Ok(same)
}

// Brings a chain to reset, and by this way to a state.
fn arrive<C: Cable>(cable: &mut C, way: &str) -> Result<(), Failed>
    requires { C.breakage cable.old ≡ whole }
    ensures { OnOk result (C.breakage cable.new ≡ whole) }
{
    reset_chain(cable)?;
    clock_along(cable, OPCODES)?;
    clock_along(cable, way)
}

// Whether a block of a chain is as many clocks of its twin, after this way from idle.
fn is_block<C: Cable>(
    cable: &mut C,
    twin: &mut C,
    way: &str,
    n: u32,
    last: bool,
) -> Result<bool, Failed>
    requires own { C.breakage cable.old ≡ whole }
    requires twin { C.breakage twin.old ≡ whole }
    ensures own { OnOk result (C.breakage cable.new ≡ whole) }
    ensures twin { OnOk result (C.breakage twin.new ≡ whole) }
{
    arrive(cable, way)?;
    arrive(twin, way)?;
    let (tdi, n) = (0x9E37_79B9_7F4A_7C15, n.max(1).min(64));
    let seen = cable.shift_block(tdi, n, last)?;
    let other = by_clocks(twin, tdi, n, last)?;
    let alike = are_alike(cable, twin)?;
    Ok(seen == other && alike)
}

// The first block that is not as many clocks.
fn wrong_block<C: Cable>(cable: &mut C, twin: &mut C) -> Result<Option<(usize, u32, bool)>, Failed>
    requires own { C.breakage cable.old ≡ whole }
    requires twin { C.breakage twin.old ≡ whole }
{
    for i in 0..WAYS.len() {
        for n in [1u32, 7, 63, 64] {
            for last in [false, true] {
                if !is_block(cable, twin, WAYS[i], n, last)? {
                    return Ok(Some((i, n, last)));
                }
            }
        }
    }
    Ok(None)
}

// The first block of the chain of these devices of a rack that is not as many clocks of the other chain.
fn wrong_block_of(
    rack: &mut Vec<Box<dyn Device>>,
    places: &[u32],
    twin: &mut Vec<Box<dyn Device>>,
    twin_places: &[u32],
) -> Result<Option<(usize, u32, bool)>, Failed>
    requires own { IsTrue (is_chain (map fitted rack.old.items) places.now) }
    requires twin { IsTrue (is_chain (map fitted twin.old.items) twin_places.now) }
{
    let mut chain = Chain::over(rack, places);
    let mut other = Chain::over(twin, twin_places);
    wrong_block(&mut chain, &mut other)
}

// The same of a board that is fitted twice.
fn fits_and_shifts(
    alloc: Global,
    rack: &mut Vec<Box<dyn Device>>,
    twin: &mut Vec<Box<dyn Device>>,
    descs: &[Desc],
) -> Result<Option<(usize, u32, bool)>, Fail>
    requires rack { IsRack (map kind_of rack.old.items) }
    requires twin { IsRack (map kind_of twin.old.items) }
    requires some { 1 ≤ length descs.now }
    requires most { length descs.now ≤ most_devices }
    requires good { All IsGood descs.now }
{
    let places = fit_board(alloc, rack, descs)?;
    let twin_places = fit_board(alloc, twin, descs)?;
    Ok(wrong_block_of(rack, &places, twin, &twin_places)?)
}

// The same on two new racks.
fn shifts_on_racks(alloc: Global, descs: &[Desc]) -> Result<Option<(usize, u32, bool)>, Fail>
    requires some { 1 ≤ length descs.now }
    requires most { length descs.now ≤ most_devices }
    requires good { All IsGood descs.now }
{
    let mut rack: Vec<Box<dyn Device>> = Vec::new(alloc);
    fill_rack!(alloc, rack);
    let mut twin: Vec<Box<dyn Device>> = Vec::new(alloc);
    fill_rack!(alloc, twin);
    if !is_rack(&rack) || !is_rack(&twin) {
        return Err("no rack".into());
    }
    let wrong = fits_and_shifts(alloc, &mut rack, &mut twin, descs);
    drop(twin);
    drop(rack);
    wrong
}

// The same of a board with a device of each kind.
fn shifts_on_a_board(alloc: Global) -> Result<Option<(usize, u32, bool)>, Fail> {
    let name = Name::read(b"U1").ok_or("no name")?;
    let descs = board(alloc, name, &[0x8000_0003, 0, 0])?;
    if descs.is_empty() || descs.len() > MOST_DEVICES {
        return Err("no board".into());
    }
    let wrong = shifts_on_racks(alloc, &descs);
    drop(descs);
    wrong
}

#[test]
fn shifts_blocks_as_single_clocks(rt: HostRuntime) -> Result<(), Fail> {
    let wrong = shifts_on_a_board(rt.alloc())?;
    assert!(rt; wrong == None);
    Ok(())
}
