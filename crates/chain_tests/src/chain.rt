//! Tests of chains of boxed devices.
ghost use Rattle.std.specs.Prelude.{◌≡◌, ◌≤◌, ℕ, true, map, slice_get, length, All, IfOk, IsTrue};
ghost use Rattle.std.specs.Option.{option_map};
ghost use Rattle.stapl_lexer.specs.Names.{IsUpperName};
ghost use Rattle.tap_states.specs.declared.Tap.TheVariants.{Reset, Idle};
ghost use Rattle.tap_states.specs.Path.{five_ones};
ghost use Rattle.dev_card.specs.Descriptions.{IsGood};
ghost use Rattle.dev_card.specs.Board.{AllIn, board_after, most_devices};
ghost use Rattle.dev_card.specs.Clocks.{move_inputs, with_zero};
ghost use Rattle.scan_paths.specs.Cables.{whole, WhereTold};
ghost use Rattle.chain_sim.specs.Places.{cards_at, IsAbsent, is_chain};
ghost use Rattle.chain_sim.specs.Rack.{IsRack};

use base::ItemList;
use chain_sim::{Chain, fit_board};
use dev_card::{Desc, Device, FlashDesc, IdCode, Kind, RegDesc};
use device_rack::{MOST_DEVICES, fill_rack, is_rack};
use scan_paths::{Cable, move_to, reset_chain};
use stapl_lexer::Name;
use std::alloc::{AllocError, Global};
use std::test::Fail;
use tap_states::Tap;
use tool_io::Failed;

/// Chains by the identities of their devices, where 0 stands for none, and clocks on them as IEEE 1149.1 gives them,
/// from idle on after reset. A clock is a digit: TMS counts 4, TDI counts 2 and TDO counts 1. TDO is 1 outside the
/// shift states. Instruction registers have 4 bits, and the opcode of the identification register is 0010. Other chains
/// are cases of tests/.
const CASES: [(&[u32], &[u8]); 2] = [
    // Without identities all have BYPASS selected in reset, which captures 0 and delays by one clock: 101100 through
    // two devices.
    (&[0, 0], b"511203211"),
    // BYPASS to the first device, and the opcode of its identification register to the second: their instructions are
    // captured in the one scan of both, and then the one bit of BYPASS stands before the identity 0x40000005.
    (
        &[0x8000_0003, 0x4000_0005],
        b"5511322212045511010100000000000000000000000000010",
    ),
];

// A description of a `Plain` with this identity, and with none where it is even.
fn plain(alloc: Global, name: Name, identity: u32) -> Desc
    requires { IsUpperName name }
    ensures { IsGood result }
{
    let mut id = None;
    if identity % 2 == 1 {
        id = Some(IdCode {
            value: identity,
            op: 0b0010,
        });
    }
    Desc {
        kind: Kind::Plain,
        name,
        ir_len: 4,
        id,
        registers: ItemList::of(Vec::new(alloc)),
        flash: None,
    }
}

// A description of a `Regs` without an identity.
fn registers(alloc: Global, name: Name) -> Result<Desc, AllocError>
    requires { IsUpperName name }
    ensures { IfOk result IsGood }
{
    let register = RegDesc {
        name,
        op: 0b0100,
        len: 8,
        constant: None,
    };
    Ok(Desc {
        kind: Kind::Regs,
        name,
        ir_len: 4,
        id: None,
        registers: ItemList::of(vec![in alloc; register]?),
        flash: None,
    })
}

// A description of a `Flash` without an identity.
fn flash(alloc: Global, name: Name) -> Desc
    requires { IsUpperName name }
    ensures { IsGood result }
{
    Desc {
        kind: Kind::Flash,
        name,
        ir_len: 4,
        id: None,
        registers: ItemList::of(Vec::new(alloc)),
        flash: Some(FlashDesc {
            erase: 0b0100,
            addr: 0b0101,
            prog: 0b0110,
            read: 0b0111,
            words: 2,
            width: 4,
            busy: 2,
            fill: true,
        }),
    }
}

// Device i of a board: a `Plain` where it has an identity, and else of the kinds in turn.
fn described(alloc: Global, name: Name, identity: u32, i: usize) -> Result<Desc, AllocError>
    requires { IsUpperName name }
    ensures { IfOk result IsGood }
{
    if identity % 2 == 1 || i % 3 == 0 {
        return Ok(plain(alloc, name, identity));
    }
    if i % 3 == 1 {
        return registers(alloc, name);
    }
    Ok(flash(alloc, name))
}

/// Descriptions for these identities, where 0 stands for none.
pub fn board(alloc: Global, name: Name, identities: &[u32]) -> Result<Vec<Desc>, AllocError>
    requires { IsUpperName name }
    ensures { IfOk result (λ v. All IsGood v.items) }
{
    let mut descs = Vec::new(alloc);
    for i in 0..identities.len() {
        let desc = described(alloc, name, identities[i], i)?;
        descs.push(desc)?;
    }
    Ok(descs)
}

// Whether these clocks have the TDO that their digits say.
fn gives<C: Cable>(cable: &mut C, clocks: &[u8]) -> Result<bool, Failed>
    requires { C.breakage cable.old ≡ whole }
{
    let mut same = true;
    for digit in clocks {
        let tdo = cable.clock(*digit & 4 != 0, *digit & 2 != 0)?;
        same = same && tdo == (*digit & 1 != 0);
    }
    Ok(same)
}

// Moves the devices at these places from reset to idle. The lender of the rack knows then what became of it.
fn wake(rack: &mut Vec<Box<dyn Device>>, places: &[u32]) -> bool
    requires chain { IsTrue (is_chain (map fitted rack.old.items) places.now) }
    requires at { WhereTold (cards_at (map fitted rack.old.items) places.now) (AllIn Reset) }
    ensures woken { result ≡ true }
    ensures kinds { map kind_of rack.new.items ≡ map kind_of rack.old.items }
    ensures others { (k : ℕ) → IsAbsent k places.now → slice_get rack.new.items k ≡ slice_get rack.old.items k }
    ensures cards { cards_at (map fitted rack.new.items) places.now
        ≡ option_map (λ cs. board_after cs (move_inputs Reset Idle)) (cards_at (map fitted rack.old.items) places.now) }
    ensures chain { IsTrue (is_chain (map fitted rack.new.items) places.now) }
{
    let mut chain = Chain::over(rack, places);
    match move_to(&mut chain, Tap::Reset, Tap::Idle) {
        Ok(_) => true,
        Err(_) => false,
    }
}

// Brings the devices at these places to reset, whatever states they are in.
fn reset(rack: &mut Vec<Box<dyn Device>>, places: &[u32]) -> bool
    requires chain { IsTrue (is_chain (map fitted rack.old.items) places.now) }
    ensures in_reset { result ≡ true }
    ensures cards { cards_at (map fitted rack.new.items) places.now
        ≡ option_map (λ cs. board_after cs (with_zero five_ones)) (cards_at (map fitted rack.old.items) places.now) }
    ensures chain { IsTrue (is_chain (map fitted rack.new.items) places.now) }
{
    let mut chain = Chain::over(rack, places);
    match reset_chain(&mut chain) {
        Ok(()) => true,
        Err(_) => false,
    }
}

// Moves the devices at these places from reset to idle, and once more after a reset.
fn wake_twice(rack: &mut Vec<Box<dyn Device>>, places: &[u32]) -> bool
    requires chain { IsTrue (is_chain (map fitted rack.old.items) places.now) }
    requires at { WhereTold (cards_at (map fitted rack.old.items) places.now) (AllIn Reset) }
    ensures chain { IsTrue (is_chain (map fitted rack.new.items) places.now) }
{
    let woken = wake(rack, places);
    let in_reset = reset(rack, places);
    let woken_again = wake(rack, places);
    woken && in_reset && woken_again
}

// Fits the board and moves it to idle twice, and whether these clocks have their TDO on its chain then.
fn fits_and_gives(
    alloc: Global,
    rack: &mut Vec<Box<dyn Device>>,
    descs: &[Desc],
    clocks: &[u8],
) -> Result<bool, Fail>
    requires rack { IsRack (map kind_of rack.old.items) }
    requires some { 1 ≤ length descs.now }
    requires most { length descs.now ≤ most_devices }
    requires good { All IsGood descs.now }
{
    let places = fit_board(alloc, rack, descs)?;
    let woken = wake_twice(rack, &places);
    let mut chain = Chain::over(rack, &places);
    Ok(woken && gives(&mut chain, clocks)?)
}

// The same on a new rack.
fn gives_on_a_rack(alloc: Global, descs: &[Desc], clocks: &[u8]) -> Result<bool, Fail>
    requires some { 1 ≤ length descs.now }
    requires most { length descs.now ≤ most_devices }
    requires good { All IsGood descs.now }
{
    let mut rack: Vec<Box<dyn Device>> = Vec::new(alloc);
    fill_rack!(alloc, rack);
    if !is_rack(&rack) {
        return Err("no rack".into());
    }
    let same = fits_and_gives(alloc, &mut rack, descs, clocks);
    drop(rack);
    same
}

// The same of the board of these identities.
fn gives_on_a_board(alloc: Global, identities: &[u32], clocks: &[u8]) -> Result<bool, Fail> {
    let name = Name::read(b"U1").ok_or("no name")?;
    let descs = board(alloc, name, identities)?;
    if descs.is_empty() || descs.len() > MOST_DEVICES {
        return Err("no board".into());
    }
    let same = gives_on_a_rack(alloc, &descs, clocks);
    drop(descs);
    same
}

#[test]
fn clocks_chains_as_the_standard_says(rt: HostRuntime) -> Result<(), Fail> {
    for (identities, clocks) in CASES {
        assert!(rt; gives_on_a_board(rt.alloc(), identities, clocks)?);
    }
    Ok(())
}
