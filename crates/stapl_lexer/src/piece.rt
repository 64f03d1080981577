//! A piece of a text.

/// A piece of a text: a statement as it stands there, with the white space and the comments around it (JESD71,
/// program text). Places count the bytes of the text from 0.
#[derive(Clone, Copy)]
pub struct Piece {
    /// Where the piece begins: at the front of the text, or after the semicolon of the piece before.
    pub start: u32,
    /// Where the piece ends: the place of its semicolon, or the length of the text where it has none.
    pub end: u32,
    /// The line, from 1, of the first byte that is neither white space nor comment; where there is none, that of the
    /// semicolon.
    pub line: u32,
    /// Whether a semicolon ends the piece. Only the last piece may have none.
    pub closed: bool,
}
