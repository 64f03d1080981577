//! Plays a program over a wire, over the real files and the real output.
#![tactic(auto)]

use drive_cable::FilePeer;
use drive_tool::run_command;
use std::io;
use std::process::ExitCode;
use tool_frame::{NO_WORDS, words_of};
use tool_io::{FileShelf, StdSink};

fn main(rt: HostRuntime) -> ExitCode {
    let Some(words) = words_of(&rt) else {
        return ExitCode::from(NO_WORDS);
    };
    let mut shelf = FileShelf::new(&rt);
    let mut peer = FilePeer::new(&rt);
    let mut out = StdSink::new(io::writer(&rt));
    let status = run_command(rt.alloc(), &words, &mut shelf, &mut peer, &mut out);
    ExitCode::from(status.exit_code())
}
