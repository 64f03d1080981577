//! The words of a program, as the system has them.
use std::env;

/// The exit code if the words cannot be had.
pub const NO_WORDS: u8 = 11;

/// The words after the program's name. There are none to be had if there is no memory for them, or one is not UTF-8.
pub fn words_of(rt: &HostRuntime) -> Option<Vec<String>> {
    let mut args = env::args(rt).ok()?;
    let _program = args.next();
    args.collect::<Vec<String>>(rt.alloc()).ok()
}
