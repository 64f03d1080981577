//! The tokens of pieces, and check words.

use stapl_lexer::{Name, Token, TokenKind, capped_digits, crc_of, cut, literal_digits, tokens};
use std::alloc::Global;
use std::test::Fail;

// The kind, the start, the end and the value of a token.
type Shape = (TokenKind, u32, u32, i32);

// The tokens of the first piece of a text.
fn first_tokens(alloc: Global, text: &[u8]) -> Result<Vec<Token>, Fail> {
    if text.len() >= 1000 {
        return Err("a long text".into());
    }
    let pieces = cut(alloc, text)?;
    if pieces.is_empty() {
        return Err("no piece".into());
    }
    Ok(tokens(alloc, text, &pieces[0])?)
}

// Whether the tokens of the first piece are of these shapes.
fn has_tokens(alloc: Global, text: &str, want: &[Shape]) -> Result<bool, Fail> {
    let found = first_tokens(alloc, text.as_bytes())?;
    let mut same = found.len() == want.len();
    for (token, want) in found.iter().zip(want) {
        same = same && (token.kind, token.start, token.end, token.value) == *want;
    }
    Ok(same)
}

#[test]
fn reads_tokens(rt: HostRuntime) -> Result<(), Fail> {
    use TokenKind::{Binary, Hex4, Hexadecimal, Mark, Number, Text, Word};
    let table: [(&str, &[Shape]); 5] = [
        (
            "PRINT CHR$(65);",
            &[
                (Word, 0, 5, 0),
                (Word, 6, 10, 0),
                (Mark, 10, 11, 0),
                (Number, 11, 13, 65),
                (Mark, 13, 14, 0),
            ],
        ),
        (
            "#1 0 '0\n 1 $A5 C;",
            &[(Binary, 0, 10, 0), (Hexadecimal, 11, 16, 0)],
        ),
        (
            "1E2 2147483648;",
            &[(Number, 0, 3, 100), (Number, 4, 14, i32::MIN)],
        ),
        ("\"a;'b\"!=;", &[(Text, 0, 6, 0), (Mark, 6, 8, 0)]),
        ("crc 9 '@\n06E;", &[(Word, 0, 3, 0), (Hex4, 4, 12, 0)]),
    ];
    for (text, want) in table {
        assert!(rt; has_tokens(rt.alloc(), text, want)?, "at {text}");
    }
    Ok(())
}

// Whether a spelling is of this free name.
fn is_free(spelling: &str, want: Option<&str>) -> bool {
    let name = Name::read_free(spelling.as_bytes());
    let found = name.as_ref().map(|name| name.bytes());
    found == want.map(|want| want.as_bytes())
}

#[test]
fn reads_free_names(rt: HostRuntime) {
    let names: [(&str, Option<&str>); 3] = [("q_1", Some("Q_1")), ("crc", None), ("1a", None)];
    for (spelling, want) in names {
        assert!(rt; is_free(spelling, want), "at {spelling}");
    }
}

// Whether this stands between the quotes of a token that is a whole text.
fn holds(text: &str, want: &str) -> bool {
    if text.is_empty() || text.len() >= 100 {
        return false;
    }
    let token = Token {
        kind: TokenKind::Text,
        start: 0,
        end: text.len() as u32,
        value: 0,
        terminal: None,
    };
    token.inside(text.as_bytes()) == want.as_bytes()
}

#[test]
fn reads_what_strings_hold(rt: HostRuntime) {
    for (text, want) in [("\"a;'b\"", "a;'b"), ("\"\"", "")] {
        assert!(rt; holds(text, want), "at {text}");
    }
}

// Whether the digits of a token with these bytes are these.
fn has_digits(alloc: Global, kind: TokenKind, own: &str, want: &str) -> bool {
    match literal_digits(alloc, kind, own.as_bytes()) {
        Ok(found) => found.as_slice() == want.as_bytes(),
        Err(_) => false,
    }
}

#[test]
fn reads_digits(rt: HostRuntime) {
    assert!(rt; has_digits(rt.alloc(), TokenKind::Binary, " 1 0 '0\n 1", "101"));
    assert!(rt; has_digits(rt.alloc(), TokenKind::Hex4, "9 '@\n06E", "906E"));
    assert!(rt; capped_digits(b"0042", 100) == 42);
    assert!(rt; capped_digits(b"1000", 100) == 100);
}

#[test]
fn computes_check_words(rt: HostRuntime) {
    assert!(rt; crc_of(b"123456789") == 0x906E);
    assert!(rt; crc_of(b"1234\r\r56789\r") == 0x906E);
    assert!(rt; crc_of(b"") == 0);
}
