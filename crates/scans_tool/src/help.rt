//! What the words `--help` and `--version`, each alone, are answered.

pub(crate) const HELP: &[u8] = b"zanutero-scans: plays a program with an account of its scans

  zanutero-scans board=PATH program=PATH action=NAME [do=NAME,..]
      [skip=NAME,..] [place=N..N] [turns=N]
      plays the action NAME of the program on the board, and writes a line for
      each scan, what the play writes, the sums, and how it ends
      The words are those of zanutero play, after the word play; pins=no and
      report=no may stand there, and change nothing.
  zanutero-scans --help
  zanutero-scans --version

The line of a scan stands before what else its statement writes:
  S PIECE line LINE IRSCAN BITS in HEX out HEX
  S PIECE line LINE DRSCAN BITS in HEX out HEX
HEX are the bits at TDI and at TDO as EXPORT writes them, without $: the first
bit is the lowest. With a place they are those of the place alone. A statement
that does not scan and still leads through a shift state has such a line with
WALK IR or WALK DR. The sums stand before the line of the ending:
  S turns N clocks N usec N irscans N drscans N
All other lines are those of zanutero play.

Exit codes:
  0  the play ended with code 0
  1  the play ended with another code
  2  a fault ended the play
  3  the play still went on after its turns
  4  the program is refused: the line R program PIECE line LINE REASON
  5  the board is refused: the line R board LINE REASON
  6  the program has no such action: the line R action; or a name of do or skip
     is not that of such a procedure of the action: the line R choice; or the
     board lacks a device of the place: the line R place
  7  the words are refused: the line R usage WORD
  9  the board or the program could not be read
  10 the output could not be written
  11 there was no memory, or a word is not UTF-8
";

pub(crate) const VERSION: &[u8] = b"zanutero-scans 0.1.0
";
