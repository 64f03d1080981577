//! Why bytes are no file of a code.
ghost use Rattle.std.specs.Prelude.{◌≡◌};
ghost use Rattle.code_files.specs.declared.fault.Stop.TheVariants.{Memory};

use stapl_code::CodeReason;
use std::alloc::{AllocError, AllocFailed};

/// The first fault that is met from left to right: how many bytes stand from its place to the end, and the reason.
#[derive(Clone, Copy)]
pub struct Fault {
    pub left: usize,
    pub reason: CodeReason,
}

/// Why a field was not read.
#[derive(Drop)]
pub enum Stop {
    Memory,
    At(Fault),
}

impl From<AllocError> for Stop {
    ghost from_gives = { λ _ e. e ≡ Memory };

    fn from(_e: AllocError) -> Stop {
        Stop::Memory
    }
}

impl<T: Drop> From<AllocFailed<T>> for Stop {
    ghost from_gives = { λ _ e. e ≡ Memory };

    fn from(_e: AllocFailed<T>) -> Stop {
        Stop::Memory
    }
}
