//! What the words `--help` and `--version` of the program `zanutero`, each alone, are answered.

/// The text of `--help`.
pub const HELP: &[u8] = b"zanutero: checks, lists, compiles and plays STAPL programs (JEDEC JESD71)

  zanutero check program=PATH
      checks the program in the file PATH: counts its statements, or names its
      first fault, and says whether its CRC is that of the text
  zanutero list program=PATH
      lists the notes of the program, and its actions with their procedures
  zanutero play board=PATH program=PATH action=NAME [do=NAME,..] [skip=NAME,..]
      [place=N..N] [turns=N] [pins=yes|no] [report=yes|no]
      plays the action NAME of the program on the board in the file board=PATH,
      and writes what it prints and how it ends
      board=PATH    the devices of the chain, a line for each, as plain U1 4;
                    the first is nearest TDO
      do=NAME,..    runs these OPTIONAL procedures, too
      skip=NAME,..  leaves out these RECOMMENDED procedures
      place=N..N    plays the program for these neighbours on the board, from 1,
                    or for one device, as place=2: pads each scan for the others
      turns=N       the most turns of the play, 0 to 1000000000, or 100000000 if
                    it is missing; each statement that is played takes one
      pins=yes      writes the clocks of the chain, too
      report=yes    writes what the devices hold after the play, too; with a
                    place, what its devices hold
  zanutero compile program=PATH
      writes the program as the file of its code
  zanutero run board=PATH code=PATH action=NAME [do=NAME,..] [skip=NAME,..]
      [place=N..N] [turns=N] [pins=yes|no] [report=yes|no]
      plays the action NAME of the code in the file code=PATH, as play does
  zanutero soak seed=N
      makes a large board and program from N, 0 to 4294967295, and plays them
  zanutero --explain WORD
      says what a reason, a fault, an exit code or the word of a statement
      means, and what to do
  zanutero --piece N program=PATH
      shows piece N of the program, from 1, with its line, and if the program
      is refused there, why and what to do
  zanutero --line N board=PATH
      shows line N of the board, from 1, and if the board is refused there, why
      and what to do
  zanutero --board board=PATH
      checks the board: counts its devices, or shows its first faulty line as
      --line does
  zanutero --why WORD..
      says why the command of these words does not do what was asked, and what
      to do, or that it does it; a play is played for that, and its lines are
      not written. As in: zanutero --why check program=PATH
  zanutero --help
  zanutero --version

The keys stand in any order. For example:
  zanutero check program=examples/hello.stp
  zanutero play board=examples/one.board program=examples/hello.stp action=A

Exit codes:
  0  the program is checked, listed or compiled, or the play ended with code 0
  1  the play ended with another code
  2  a fault ended the play
  3  the play still went on after its turns
  4  the program is refused: the line R program PIECE line LINE REASON
  5  the board is refused: the line R board LINE REASON
  6  the program has no such action: the line R action; or a name of do or skip
     is not that of such a procedure of the action: the line R choice; or the
     board lacks a device of the place: the line R place
  7  the words are refused: the line R usage WORD
  8  the code is refused: the line R code OFFSET REASON
  9  the board, the program or the code could not be read
  10 the output could not be written
  11 there was no memory, or a word is not UTF-8
";

/// The text of `--version`.
pub const VERSION: &[u8] = b"zanutero 0.1.0
";
