//! What the words `--help` and `--version`, each alone, are answered.

pub(crate) const HELP: &[u8] =
    b"zanutero-print: writes STAPL programs (JEDEC JESD71) in canonical form

  zanutero-print program=PATH
      writes the program in the file PATH with a line for each statement, one
      form for all texts that are the same program, and a right CRC

exit codes:
  0  the program is written
  4  the program is refused: its piece, its line and the reason are written
  7  the words are refused: the number of the first wrong one is written
  9  the program could not be read
  10 the output could not be written
  11 there was no memory, or a word is not UTF-8
  12 the canonical form has more than 4194304 bytes
";

pub(crate) const VERSION: &[u8] = b"zanutero-print 0.1.0
";
