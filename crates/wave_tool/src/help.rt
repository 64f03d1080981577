//! What the words `--help` and `--version`, each alone, are answered.

pub(crate) const HELP: &[u8] =
    b"zanutero-wave: writes the clocks and waits of a play as a Value Change Dump

  zanutero-wave trace=PATH
      reads the lines C DIGITS and W MICROSECONDS of the file trace=PATH, as
      zanutero play pins=yes writes them, and writes the wires TCK, TMS, TDI and
      TDO and the number of the TAP state over time (IEEE 1364); a clock takes
      two microseconds
  zanutero-wave --help
  zanutero-wave --version

Exit codes:
  0  the dump is written
  7  the words are refused: the line R usage WORD
  9  the trace could not be read
  10 the output could not be written
  11 there was no memory, or a word is not UTF-8
  12 the trace has more than 67108864 bytes: the line R trace TooLong
  16 a line begins with C and a space and is not 1 to 64 digits from 0 to 7: the
     line R trace LINE BadLine
";

pub(crate) const VERSION: &[u8] = b"zanutero-wave 0.1.0
";
