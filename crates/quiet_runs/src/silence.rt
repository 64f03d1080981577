//! A sink for a text that nobody reads.
ghost use Rattle.std.specs.Prelude.{None};

use tool_io::{Failed, Sink};

/// A sink that takes all that is written, and keeps nothing. No call fails.
#[derive(Drop)]
pub struct Silence;

impl Sink for Silence {
    ghost written = { λ _. None };

    ghost faults = { λ _. 0 };

    ghost is_last = { λ _. ⊥ };

    fn write(&mut self, bytes: &[u8]) -> Result<u32, Failed> {
        Ok(bytes.len().min(u32::MAX as usize) as u32)
    }

    fn flush(&mut self) -> Result<(), Failed> {
        Ok(())
    }
}
