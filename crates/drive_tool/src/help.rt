//! What the words `--help` and `--version`, each alone, are answered.

/// The text of `--help`.
pub const HELP: &[u8] = b"zanutero-drive: plays a STAPL program over a wire of remote bitbang

  zanutero-drive send=PATH receive=PATH [sleep=yes] board=PATH program=PATH
      action=NAME [do=NAME,..] [skip=NAME,..] [place=N..N] [turns=N] [pins=yes]
      plays the action NAME of the program on what answers the bytes of the wire:
      they go to the file send=PATH, and the answers come from the file
      receive=PATH, each of which may be a named pipe. receive= is opened first.
      The words after sleep= are those of zanutero play, after the word play, but
      report=. Of the board in the file board=PATH only the lengths around the
      place are used.
      sleep=yes sends waits, too: Z for a millisecond, z for a microsecond
  zanutero-drive --help
  zanutero-drive --version

Bytes:
  0 to 7  the levels of 4 TCK + 2 TMS + TDI; a clock is a digit with TCK low, R,
          and the digit with TCK high
  R       asks for TDO: 0 or 1 is to be answered
  Q       after a play that came to an ending

Exit codes:
  0 to 7, 9 to 11  as of zanutero play
  18               the wire could not be opened, sent over or received from, or an
                   answer was neither 0 nor 1
";

/// The text of `--version`.
pub const VERSION: &[u8] = b"zanutero-drive 0.1.0
";
