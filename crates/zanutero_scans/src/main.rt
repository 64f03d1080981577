//! A play with an account of its scans, over the real files and the real output.
#![tactic(auto)]

use dev_card::Device;
use device_rack::{fill_rack, is_rack};
use scans_tool::ScansPlay;
use std::alloc::AllocError;
use std::io;
use std::process::ExitCode;
use tool_frame::{NO_WORDS, run_program, words_of};
use tool_io::{FileShelf, StdSink};

// The exit code if there is no memory for the rack.
const NO_RACK: u8 = 11;

// Makes the devices of the rack, and runs the program with them.
fn run(rt: &HostRuntime, words: &[String]) -> Result<u8, AllocError> {
    let alloc = rt.alloc();
    let mut rack: Vec<Box<dyn Device>> = Vec::new(alloc);
    fill_rack!(alloc, rack);
    // It is one, which tells the proofs so.
    if !is_rack(&rack) {
        return Err(AllocError);
    }
    let mut shelf = FileShelf::new(rt);
    let mut out = StdSink::new(io::writer(rt));
    Ok(run_program(&ScansPlay, alloc, words, &mut shelf, &mut rack, &mut out))
}

fn main(rt: HostRuntime) -> ExitCode {
    let Some(words) = words_of(&rt) else {
        return ExitCode::from(NO_WORDS);
    };
    ExitCode::from(run(&rt, &words).unwrap_or(NO_RACK))
}
