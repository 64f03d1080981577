//! What the words `--help` and `--version`, each alone, are answered.

pub(crate) const HELP: &[u8] =
    b"zanutero-quiet: says whether a play may be made at any place of a chain

  zanutero-quiet board=PATH program=PATH [action=NAME] [do=NAME,..]
      [skip=NAME,..] [place=N..N] [turns=N]
      plays the action NAME of the program on the devices of the board alone, or
      with a place on those of the place alone; says whether the play is quiet,
      or which is its first scan or walk that is not, and why
      Without action= it says this of each action of the program, in the order
      of the program: the line begins with A NAME.
      The words are those of zanutero play, after the word play: pins= and
      report= may stand there, too, and change nothing.
  zanutero-quiet --help
  zanutero-quiet --version

A play is quiet if each IRSCAN has as many bits as the instruction, each DRSCAN
as many as the selected register, no DRSCAN comes before an IRSCAN or after a
reset, and no walk leads into a shift state or Capture-IR. A quiet play prints
and ends the same at each place of each chain.

Exit codes, without action= that of the first action whose play is not quiet:
  0  the play is quiet: the line quiet turns COUNT, and how it ends
  4  the program is refused: the line R program PIECE line LINE REASON
  5  the board is refused: the line R board LINE REASON
  6  the program has no such action: the line R action; or a name of do
     or skip is not that of such a procedure of the action: the line
     R choice; or the board lacks a device of the place: the line R place
  7  the words are refused: the line R usage WORD
  9  the board or the program could not be read
  10 the output could not be written
  11 there was no memory, or a word is not UTF-8
  17 the play is not quiet: the line not quiet piece PIECE line LINE turn TURN,
     and why
";

pub(crate) const VERSION: &[u8] = b"zanutero-quiet 0.1.0
";
