//! The server of a link, over the real files and the real output.
#![tactic(auto)]

use dev_card::Device;
use device_rack::{fill_rack, is_rack};
use link_tool::{LinkStatus, run_command};
use std::alloc::AllocError;
use std::io;
use std::process::ExitCode;
use tool_frame::{NO_WORDS, words_of};
use tool_io::{FileShelf, StdSink};

// Makes the devices of the rack, and runs the command with them.
fn run(rt: &HostRuntime, words: &[String]) -> Result<LinkStatus, AllocError> {
    let alloc = rt.alloc();
    let mut rack: Vec<Box<dyn Device>> = Vec::new(alloc);
    fill_rack!(alloc, rack);
    // It is one, which tells the proofs so.
    if !is_rack(&rack) {
        return Err(AllocError);
    }
    let mut shelf = FileShelf::new(rt);
    let mut out = StdSink::new(io::writer(rt));
    Ok(run_command(alloc, words, &mut shelf, &mut rack, &mut out))
}

fn main(rt: HostRuntime) -> ExitCode {
    let Some(words) = words_of(&rt) else {
        return ExitCode::from(NO_WORDS);
    };
    let status = run(&rt, &words).unwrap_or(LinkStatus::Memory);
    ExitCode::from(status.exit_code())
}
