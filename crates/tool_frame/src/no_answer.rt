//! Why there is no answer.
ghost use Rattle.std.specs.Prelude.{◌≡◌};
ghost use Rattle.tool_frame.specs.declared.no_answer.NoAnswer.TheVariants.{Write, Memory};

use std::alloc::AllocError;
use thiserror::Error;
use tool_io::Failed;

/// Why a call gives no answer.
#[derive(Clone, Copy, Debug, PartialEq, Eq, Error)]
pub enum NoAnswer {
    /// A file could not be read.
    #[error("a file could not be read")]
    Read,
    /// The output could not be written.
    #[error("the output could not be written")]
    Write,
    /// There was no memory.
    #[error("out of memory")]
    Memory,
}

impl From<Failed> for NoAnswer {
    ghost from_gives = { λ _ no_answer. no_answer ≡ Write };

    fn from(_: Failed) -> NoAnswer {
        NoAnswer::Write
    }
}

impl From<AllocError> for NoAnswer {
    ghost from_gives = { λ _ no_answer. no_answer ≡ Memory };

    fn from(_: AllocError) -> NoAnswer {
        NoAnswer::Memory
    }
}
