//! What the words `--help` and `--version`, each alone, are answered.

pub(crate) const HELP: &[u8] = b"zanutero-trace: compares the clocks of a play with those of a board

  zanutero-trace board=PATH trace=PATH
      reads the lines C DIGITS of the file trace=PATH, as zanutero play pins=yes
      writes them, and clocks the board in the file board=PATH by their TMS and
      TDI from power-up on; says how many clocks there are and what the devices
      hold after them, or which is the first clock that the board answers with
      another TDO
  zanutero-trace --help
  zanutero-trace --version

Exit codes:
  0  the clocks are those of the board: the line trace good clocks COUNT
  5  the board is refused: the line R board LINE REASON
  7  the words are refused: the line R usage WORD
  9  the board or the trace could not be read
  10 the output could not be written
  11 there was no memory, or a word is not UTF-8
  12 the trace has more than 67108864 bytes: the line R trace TooLong
  15 a clock differs: the line trace differs clock NUMBER
  16 a line begins with C and a space and is not 1 to 64 digits from 0 to 7: the
     line R trace LINE BadLine
";

pub(crate) const VERSION: &[u8] = b"zanutero-trace 0.1.0
";
