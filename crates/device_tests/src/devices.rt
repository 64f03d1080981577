//! Tests of the kinds of device.
ghost use Rattle.std.specs.Prelude.{◌≡◌, IfOk};
ghost use Rattle.stapl_lexer.specs.Names.{IsUpperName};
ghost use Rattle.dev_card.specs.declared.desc.Kind.TheVariants as kinds;
ghost use Rattle.dev_card.specs.Descriptions.{IsGood};

use crate::scans::answers;
use base::ItemList;
use dev_card::{Desc, Device, FitRefused, IdCode, Kind, RegDesc};
use dev_kinds::Plain;
use stapl_lexer::Name;
use std::alloc::Global;
use std::test::Fail;

// The instruction register of each device here has four bits, and opcode 2 selects the identity.
const IDENTITY: IdCode = IdCode {
    value: 0x1234_5679,
    op: 2,
};

// A Plain with the identity above, or with none.
pub fn plain(name: Name, id: bool, alloc: Global) -> Desc
    requires { IsUpperName name }
    ensures good { IsGood result }
    ensures kind { result.kind ≡ kinds.Plain }
{
    Desc {
        kind: Kind::Plain,
        name,
        ir_len: 4,
        id: if id { Some(IDENTITY) } else { None },
        registers: ItemList::of(Vec::new(alloc)),
        flash: None,
    }
}

// A Regs with one register.
pub fn registers(name: Name, alloc: Global) -> Result<Desc, Fail>
    requires { IsUpperName name }
    ensures good { IfOk result IsGood }
    ensures kind { IfOk result (λ d. d.kind ≡ kinds.Regs) }
{
    let register = RegDesc {
        name,
        op: 2,
        len: 8,
        constant: None,
    };
    Ok(Desc {
        kind: Kind::Regs,
        name,
        ir_len: 4,
        id: None,
        registers: ItemList::of(vec![in alloc; register]?),
        flash: None,
    })
}

// Fits a device, and whether it answers these values at TDO from power-up on, and again after it is blanked.
fn answers_twice<D: Device>(
    alloc: Global,
    mut device: D,
    desc: &Desc,
    tms: &str,
    tdi: &str,
    tdo: &str,
) -> Result<bool, FitRefused>
    requires { IsGood desc.now }
{
    device.fit(alloc, desc)?;
    let first = answers(&mut device, tms, tdi, tdo);
    device.blank();
    let again = answers(&mut device, tms, tdi, tdo);
    Ok(first && again)
}

// The same of a Plain.
fn plain_answers(alloc: Global, name: Name, id: bool, tms: &str, tdi: &str, tdo: &str) -> bool
    requires { IsUpperName name }
{
    let desc = plain(name, id, alloc);
    let answered = answers_twice(alloc, Plain::unfitted(), &desc, tms, tdi, tdo);
    drop(desc);
    answered == Ok(true)
}

// Each row: whether the device has an identity, and from power-up on the values at TMS and TDI, a clock each, with TDO
// before each clock, written out from IEEE 1149.1. Outside the shift states TDO is 1.
#[test]
fn answers_as_the_standard_says(rt: HostRuntime) -> Result<(), Fail> {
    let table: [(bool, &str, &str, &str); 6] = [
        // the identity after reset, its lowest bit first
        (
            true,
            "010000000000000000000000000000000001",
            "000000000000000000000000000000000000",
            "111110011110011010100010110001001000",
        ),
        // after the identity come the bits that were shifted in
        (
            true,
            "010000000000000000000000000000000000001",
            "000011000000000000000000000000000000000",
            "111110011110011010100010110001001000110",
        ),
        // BYPASS after reset, where there is no identity: a 0, and then what was shifted in, one clock later
        (false, "010000001", "000010110", "111101011"),
        // the instruction register captures binary 01; all ones select BYPASS
        (
            true,
            "01100000110100001",
            "00000111100000110",
            "11111100011111011",
        ),
        // opcode 2 selects the identity
        (
            true,
            "01100000110100001",
            "00000010000000000",
            "11111100011111100",
        ),
        // BYPASS in force, and then five clocks with TMS 1: the identity again
        (
            true,
            "011000001101111101000000",
            "000001111000000000000000",
            "111111000111111111111001",
        ),
    ];
    let name = Name::read(b"U1").ok_or("no name")?;
    for (id, tms, tdi, tdo) in table {
        assert!(rt;
            plain_answers(rt.alloc(), name, id, tms, tdi, tdo),
            "at {tms}"
        );
    }
    Ok(())
}

// Whether a Plain refuses a description of another kind, before and after it is fitted.
fn refuses_another<D: Device>(
    alloc: Global,
    mut device: D,
    good: &Desc,
    other: &Desc,
) -> Result<bool, FitRefused>
    requires good { IsGood good.now }
    requires other { IsGood other.now }
{
    let first = device.fit(alloc, other);
    device.fit(alloc, good)?;
    let is_fitted = device.kind() == Kind::Plain
        && device.instruction() == 2
        && device.cells() == 0;
    let again = device.fit(alloc, other);
    let refused = Err(FitRefused::WrongKind);
    Ok(first == refused && is_fitted && again == refused)
}

fn plain_refuses(alloc: Global, name: Name, other: &Desc) -> bool
    requires name { IsUpperName name }
    requires other { IsGood other.now }
{
    let good = plain(name, true, alloc);
    let refused = refuses_another(alloc, Plain::unfitted(), &good, other);
    drop(good);
    refused == Ok(true)
}

fn plain_refuses_registers(alloc: Global, name: Name) -> Result<bool, Fail>
    requires { IsUpperName name }
{
    let other = registers(name, alloc)?;
    let refused = plain_refuses(alloc, name, &other);
    drop(other);
    Ok(refused)
}

#[test]
fn refuses_a_description_of_another_kind(rt: HostRuntime) -> Result<(), Fail> {
    let name = Name::read(b"U1").ok_or("no name")?;
    assert!(rt; plain_refuses_registers(rt.alloc(), name)?);
    Ok(())
}
