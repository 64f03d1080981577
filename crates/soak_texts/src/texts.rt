//! The board and the program of a seed.
ghost use Rattle.std.specs.Prelude.{◌≡◌, IfOk};
ghost use Rattle.soak_texts.specs.Boards.{soak_board, soak_devices, soak_place};
ghost use Rattle.soak_texts.specs.Soak.{soak_program};

use crate::board::draw_board;
use crate::draws::Draws;
use crate::program::draw_program;
use std::alloc::{AllocError, Global};

// How many steps a program has.
const STEPS: u32 = 2000;

/// A board and a program that is played on it.
#[derive(Drop)]
pub struct Soak {
    /// The text of the board.
    pub board: Vec<u8>,
    /// The text of the program.
    pub program: Vec<u8>,
    /// The place of the device that the program is for, counted from 1.
    pub place: u32,
    /// How many devices the board has, 1 to 16.
    pub devices: u32,
}

/// The board and the program of a seed: a program of 2,000 steps, which scan the register of one device and count.
///
/// The same seed gives the same texts. Errors: only want of memory.
pub fn soak_texts(alloc: Global, seed: u32) -> Result<Soak, AllocError>
    ensures board { IfOk result (λ soak. soak.board.items ≡ soak_board seed) }
    ensures program { IfOk result (λ soak. soak.program.items ≡ soak_program seed) }
    ensures place { IfOk result (λ soak. soak.place ≡ soak_place seed) }
    ensures devices { IfOk result (λ soak. soak.devices ≡ soak_devices seed) }
{
    let mut draws = Draws::from_seed(seed);
    let board = draw_board(alloc, &mut draws)?;
    let place = 1 + draws.below(board.devices);
    let bits = board.lengths[place as usize - 1];
    let program = draw_program(alloc, &mut draws, bits, STEPS)?;
    Ok(Soak {
        board: board.text,
        program,
        place,
        devices: board.devices,
    })
}
