//! What earlier devices say against a line.
ghost use Rattle.std.specs.Prelude.{◌≡◌, ◌↔◌, IsTrue, option_map};
ghost use Rattle.std.specs.List.{Any};
ghost use Rattle.dev_card.specs.Descriptions.{opcodes_of};
ghost use Rattle.board_text.specs.Boards.{HasName, HasRegisterName, RepeatsInBoard, RepeatsInDevice, AwaitsRegister, open_device};
ghost use Rattle.board_text.specs.Reading.{line_of};

use crate::opcodes::are_apart;
use crate::register::RegisterWords;
use dev_card::{Desc, Kind, RegDesc};
use stapl_lexer::Name;

// The device that the next register belongs to, if there is one.
pub fn open_device(earlier: &[Desc]) -> Option<&Desc>
    ensures { option_map (λ d. d.now) result ≡ open_device earlier.now }
{
    let device = earlier.last()?;
    match device.kind {
        Kind::Regs => Some(device),
        Kind::Plain | Kind::Flash => None,
    }
}

// Whether the last device is of kind `Regs`, and no line has given it a register yet.
pub fn awaits_register(earlier: &[Desc]) -> bool
    ensures { IsTrue result ↔ AwaitsRegister earlier.now }
{
    match open_device(earlier) {
        Some(device) => device.registers.is_empty(),
        None => false,
    }
}

// Whether one of these devices has the name.
fn is_taken(name: &Name, devices: &[Desc]) -> bool
    ensures { IsTrue result ↔ Any (HasName name.now) devices.now }
{
    devices.iter().any(|device| device.name == *name)
}

// Whether one of these registers has the name.
fn is_given(name: &Name, registers: &[RegDesc]) -> bool
    ensures { IsTrue result ↔ Any (HasRegisterName name.now) registers.now }
{
    registers.iter().any(|register| register.name == *name)
}

// Whether a device with these opcodes repeats a name or one of them.
pub fn repeats_in_board(device: &Desc, opcodes: &[u64], earlier: &[Desc]) -> bool
    requires { opcodes.now ≡ opcodes_of device.now }
    ensures { IsTrue result ↔ RepeatsInBoard earlier.now device.now }
{
    is_taken(&device.name, earlier) || !are_apart(opcodes)
}

// Whether a register repeats a name or one of the opcodes of its device.
pub fn repeats_in_device(register: &RegisterWords<'_>, opcodes: &[u64], device: &Desc) -> bool
    requires { opcodes.now ≡ opcodes_of device.now }
    ensures { IsTrue result ↔ RepeatsInDevice ((line_of register.now).description) device.now }
{
    is_given(&register.name, device.registers.as_slice()) || opcodes.contains(&register.op)
}
