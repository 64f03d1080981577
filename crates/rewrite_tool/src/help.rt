//! What the words `--help` and `--version`, each alone, are answered.

pub(crate) const HELP: &[u8] =
    b"zanutero-rewrite: writes a STAPL program (JEDEC JESD71) that plays on a whole chain

  zanutero-rewrite program=PATH board=PATH place=RUN
      writes the program of the file program=PATH in canonical form, with the
      padding for the devices RUN of the board in the file board=PATH, as 2 or
      2..3, counted from 1: a player that knows no place plays it on the whole
      board as zanutero play plays the program with place=RUN
  zanutero-rewrite --help
  zanutero-rewrite --version

Exit codes:
  0  the new program is written
  4  the program is refused: its piece, its line and the reason are written
  5  the board is refused: its line and the reason are written
  6  the board lacks a device of RUN: the line R place
  7  the words are refused: the number of the first wrong one is written
  9  a file could not be read
  10 the output could not be written
  11 there was no memory, or a word is not UTF-8
  12 the new program has more than 100000 pieces or 4194304 bytes: the line
     R print TooLarge
  13 the program sets a padding itself: the line R padding PIECE
";

pub(crate) const VERSION: &[u8] = b"zanutero-rewrite 0.1.0
";
