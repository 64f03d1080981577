//! The board of a seed.
ghost use Rattle.std.specs.Prelude.{◌≡◌, ◌+◌, ◌++◌, map, IfOk, OnOk};
ghost use Rattle.std.specs.List.{range_with_len};
ghost use Rattle.soak_texts.specs.Draws.{state_after};
ghost use Rattle.soak_texts.specs.Boards.{soak_devices, register_length, device_lines, soak_board};

use crate::draws::Draws;
use crate::lines::put_numbered_line;
use std::alloc::{AllocError, Global};

/// A board: its text, how many devices it has, and how many bits the register of each has.
#[derive(Drop)]
pub(crate) struct Board {
    pub(crate) text: Vec<u8>,
    pub(crate) devices: u32,
    pub(crate) lengths: Vec<u32>,
}

// Puts the lines of a device.
#[tactic(auto, unfolding(crate::specs::Boards::device_lines))]
fn put_device(out: &mut Vec<u8>, number: u32, bits: u32) -> Result<(), AllocError>
    ensures { OnOk result (out.new.items ≡ out.old.items ++ device_lines number bits) }
{
    put_numbered_line(out, b"regs U", number, b" 8")?;
    put_numbered_line(out, b"reg R 2 ", bits, b" keep")
}

/// Draws the board.
pub(crate) fn draw_board(alloc: Global, draws: &mut Draws) -> Result<Board, AllocError>
    ensures text { IfOk result (λ board. board.text.items ≡ soak_board draws.old.state) }
    ensures devices { IfOk result (λ board. board.devices ≡ soak_devices draws.old.state) }
    ensures lengths { IfOk result (λ board. board.lengths.items
        ≡ map (register_length draws.old.state) (range_with_len 1 (soak_devices draws.old.state))) }
    ensures state { OnOk result (draws.new.state ≡ state_after (1 + soak_devices draws.old.state) draws.old.state) }
{
    let devices = 1 + draws.below(16);
    let mut text = Vec::new(alloc);
    let mut lengths = Vec::new(alloc);
    for i in 0..devices {
        let bits = 8 + draws.below(57);
        put_device(&mut text, i + 1, bits)?;
        lengths.push(bits)?;
    }
    Ok(Board {
        text,
        devices,
        lengths,
    })
}
