//! The wave of a trace, over the real files and the real output.
#![tactic(auto)]

use std::io;
use std::process::ExitCode;
use tool_frame::{NO_WORDS, run_program, words_of};
use tool_io::{FileShelf, StdSink};
use wave_tool::Waver;

fn main(rt: HostRuntime) -> ExitCode {
    let Some(words) = words_of(&rt) else {
        return ExitCode::from(NO_WORDS);
    };
    let mut shelf = FileShelf::new(&rt);
    let mut out = StdSink::new(io::writer(&rt));
    ExitCode::from(run_program(&Waver, rt.alloc(), &words, &mut shelf, &mut (), &mut out))
}
