//! Laws of the definitions.
ghost use Rattle.std.specs.Prelude.{◌≡◌, ◌≤◌, ℕ};
ghost use Rattle.soak_texts.specs.Draws.{state_after};
ghost use Rattle.soak_texts.specs.Boards.{soak_devices, soak_place, register_length};

/// The board of each seed has 1 to 16 devices.
pub fn a_board_has_1_to_16_devices()
    ensures { (seed : ℕ) → (1 ≤ soak_devices seed) × (soak_devices seed ≤ 16) }
{}

/// Each register has 8 to 64 bits.
pub fn a_register_has_8_to_64_bits()
    ensures { (seed i : ℕ) → (8 ≤ register_length seed i) × (register_length seed i ≤ 64) }
{}

/// The place of each seed is one on its board.
pub fn soak_place_is_on_the_board()
    ensures { (seed : ℕ) → (1 ≤ soak_place seed) × (soak_place seed ≤ soak_devices seed) }
{}

/// The first state of the seed 0 makes a board of 15 devices, and the second a first register of 24 bits.
pub fn the_board_of_seed_0()
    ensures first_state { state_after 1 0 ≡ 0x3C6EF35F }
    ensures devices { soak_devices 0 ≡ 15 }
    ensures second_state { state_after 2 0 ≡ 0x47502932 }
    ensures first_register { register_length 0 1 ≡ 24 }
{}
