//! What the words `--help` and `--version`, each alone, are answered.

/// The text of `--help`.
pub const HELP: &[u8] = b"zanutero-link: answers a debugger that drives a board over remote bitbang

  zanutero-link board=PATH link=PATH
      reads the bytes of a session from the file link=PATH, which may be a named
      pipe, takes them against the board in the file board=PATH from power-up on,
      and writes what the board answers, as soon as it is due, and nothing else
  zanutero-link --help
  zanutero-link --version

Bytes:
  0 to 7            the levels of 4 TCK + 2 TMS + TDI; the board is clocked if
                    TCK rises
  R                 asks for TDO: 0 or 1 is written
  B, b, r, s, t, u  lamp and reset lines: nothing changes
  Q                 ends the session
  any other         is refused

Exit codes:
  0  the session ended with a Q, or with the file
  5  the board is refused
  7  the words are refused
  9  the board or the bytes could not be read
  10 the output could not be written
  11 there was no memory, or a word is not UTF-8
  12 the session took 16777216 bytes, and there are more
  14 a byte is refused
";

/// The text of `--version`.
pub const VERSION: &[u8] = b"zanutero-link 0.1.0
";
