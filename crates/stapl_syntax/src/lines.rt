//! Lines of pieces.
ghost use Rattle.std.specs.Prelude.{◌≡◌, ◌≤◌, length};
ghost use Rattle.stapl_lexer.specs.Pieces.{text_limit};
ghost use Rattle.stapl_syntax.specs.Programs.{line_of_index, end_line};

use stapl_lexer::Piece;

// The line where a text ends.
fn line_of_end(text: &[u8]) -> u32
    requires { length text.now ≤ text_limit }
    ensures { result ≡ end_line text.now }
{
    let feeds = text.iter().filter(|byte| **byte == b'\n').count();
    feeds as u32 + 1
}

/// The line of the piece at an index, or that of the end of the text.
pub fn line_of_index(text: &[u8], pieces: &[Piece], index: usize) -> u32
    requires { length text.now ≤ text_limit }
    ensures { result ≡ line_of_index text.now pieces.now index }
{
    match pieces.get(index) {
        Some(piece) => piece.line,
        None => line_of_end(text),
    }
}
