//! The program of a seed.
ghost use Rattle.std.specs.Prelude.{◌≡◌, ◌<◌, ◌++◌, IfOk, OnOk};
ghost use Rattle.soak_texts.specs.Steps.{state_after_steps};
ghost use Rattle.soak_texts.specs.Programs.{lines_of_steps, program_text};

use crate::draws::Draws;
use crate::lines::put;
use crate::step::{draw_step, put_step};
use std::alloc::{AllocError, Global};

const HEADING: &[u8] = b"ACTION A = P;\nPROCEDURE P;\nBOOLEAN X[64];\nINTEGER S = 0;\nINTEGER I;\n";

const ENDING: &[u8] = b"PRINT S;\nEXPORT \"X\", X[];\nEXIT 0;\nENDPROC;\n";

// Draws so many steps, and puts their lines.
fn put_steps(out: &mut Vec<u8>, draws: &mut Draws, bits: u32, steps: u32) -> Result<(), AllocError>
    requires { 0 < bits }
    ensures { OnOk result (out.new.items ≡ out.old.items ++ lines_of_steps steps bits draws.old.state) }
{
    for _done in 0..steps {
        let step = draw_step(draws);
        put_step(out, bits, step)?;
    }
    Ok(())
}

/// The program with so many steps, over a register with so many bits.
pub(crate) fn draw_program(
    alloc: Global,
    draws: &mut Draws,
    bits: u32,
    steps: u32,
) -> Result<Vec<u8>, AllocError>
    requires { 0 < bits }
    ensures { IfOk result (λ text. text.items ≡ program_text steps bits draws.old.state) }
{
    let mut text = Vec::from_slice(alloc, HEADING)?;
    put_steps(&mut text, draws, bits, steps)?;
    put(&mut text, ENDING)?;
    Ok(text)
}
