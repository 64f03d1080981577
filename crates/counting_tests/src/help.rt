//! What the words `--help` and `--version`, each alone, are answered.

pub(crate) const HELP: &[u8] =
    b"counter board=PATH: counts the devices of the board in the file PATH
";

pub(crate) const VERSION: &[u8] = b"counter 0.1.0
";
