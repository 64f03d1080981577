//! The steps of a program.
ghost use Rattle.std.specs.Prelude.{◌≡◌, ◌<◌, ◌++◌, OnOk};
ghost use Rattle.soak_texts.specs.Draws.{state_after};
ghost use Rattle.soak_texts.specs.Steps.{four_draws, drawn_step, state_after_step, scan_lines, mix_lines, step_lines};

use crate::draws::Draws;
use crate::lines::{put, put_data, put_decimal, put_numbered_line};
use std::alloc::AllocError;

/// What one step of a program does.
#[derive(Clone, Copy)]
pub(crate) enum Step {
    /// It scans these numbers, four hexadecimal digits each, into the register, and captures what comes out.
    Scan([u16; 4]),
    /// It multiplies the sum by 31, and adds this number.
    Multiply(u32),
    /// It combines the sum with the multiples of 7, up to this one.
    Mix(u32),
    /// It adds this number if the sum is even.
    Raise(u32),
}

// The four numbers of a scan.
#[tactic(auto, unfolding(crate::specs::Steps::four_draws, crate::specs::Draws::nth_draw, crate::specs::Draws::state_after))]
fn draw_data(draws: &mut Draws) -> [u16; 4]
    ensures numbers { result ≡ four_draws draws.old.state }
    ensures state { draws.new.state ≡ state_after 4 draws.old.state }
{
    let first = draws.below(65_536) as u16;
    let second = draws.below(65_536) as u16;
    let third = draws.below(65_536) as u16;
    let fourth = draws.below(65_536) as u16;
    [first, second, third, fourth]
}

// Draws a step.
pub(crate) fn draw_step(draws: &mut Draws) -> Step
    ensures step { result ≡ drawn_step draws.old.state }
    ensures state { draws.new.state ≡ state_after_step draws.old.state }
{
    let kind = draws.below(4);
    let number = draws.below(100);
    match kind {
        0 => Step::Scan(draw_data(draws)),
        1 => Step::Multiply(number),
        2 => Step::Mix(number),
        _ => Step::Raise(number),
    }
}

// Puts the lines of a scan.
fn put_scan(out: &mut Vec<u8>, bits: u32, shifted: &[u16]) -> Result<(), AllocError>
    requires { 0 < bits }
    ensures { OnOk result (out.new.items ≡ out.old.items ++ scan_lines bits shifted.now) }
{
    put(out, b"IRSCAN 8, $02;\nDRSCAN ")?;
    put_decimal(out, bits)?;
    put(out, b", $")?;
    put_data(out, shifted)?;
    put(out, b", CAPTURE X[")?;
    put_decimal(out, bits - 1)?;
    put(out, b"..0];")?;
    put(out, b"\n")?;
    Ok(())
}

// Puts the lines of a loop.
fn put_mix(out: &mut Vec<u8>, number: u32) -> Result<(), AllocError>
    ensures { OnOk result (out.new.items ≡ out.old.items ++ mix_lines number) }
{
    put_numbered_line(out, b"FOR I = 0 TO ", number, b";")?;
    put(out, b"S = S ^ (I * 7);\n")?;
    put(out, b"NEXT I;\n")?;
    Ok(())
}

// Puts the lines of a step.
#[tactic(auto, unfolding(crate::specs::Steps::step_lines))]
pub(crate) fn put_step(out: &mut Vec<u8>, bits: u32, step: Step) -> Result<(), AllocError>
    requires { 0 < bits }
    ensures { OnOk result (out.new.items ≡ out.old.items ++ step_lines bits step) }
{
    match step {
        Step::Scan(shifted) => put_scan(out, bits, &shifted),
        Step::Multiply(number) => put_numbered_line(out, b"S = S * 31 + ", number, b";"),
        Step::Mix(number) => put_mix(out, number),
        Step::Raise(number) => {
            put_numbered_line(out, b"IF S % 2 == 0 THEN S = S + ", number, b";")
        }
    }
}
