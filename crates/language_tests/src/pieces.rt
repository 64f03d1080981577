//! The pieces of a text, names and reasons.

use stapl_lexer::{Name, Reason, cut};
use std::alloc::Global;
use std::collections::HashMap;
use std::test::Fail;

// The start, the end and the line of a piece, and whether it is closed.
type Place = (u32, u32, u32, bool);

// Whether a text has pieces at these places.
fn has_pieces(alloc: Global, text: &str, want: &[Place]) -> Result<bool, Fail> {
    if text.len() >= 100 {
        return Err("a long text".into());
    }
    let pieces = cut(alloc, text.as_bytes())?;
    let mut same = pieces.len() == want.len();
    for (piece, want) in pieces.iter().zip(want) {
        let found = (piece.start, piece.end, piece.line, piece.closed);
        same = same && found == *want;
    }
    Ok(same)
}

#[test]
fn cuts_a_text_into_pieces(rt: HostRuntime) -> Result<(), Fail> {
    let table: [(&str, &[Place]); 3] = [
        ("' \"\nA;B;", &[(0, 5, 2, true), (6, 7, 2, true)]),
        ("PRINT \"A;'B\";", &[(0, 12, 1, true)]),
        ("A;\n B\n", &[(0, 1, 1, true), (2, 6, 2, false)]),
    ];
    for (text, want) in table {
        assert!(rt; has_pieces(rt.alloc(), text, want)?, "at {text}");
    }
    Ok(())
}

// Whether a spelling is of this name, and whether that is reserved.
fn is_read(spelling: &str, want: Option<&str>, reserved: bool) -> bool {
    let name = Name::read(spelling.as_bytes());
    let is_reserved = name.is_some_and(|name| name.is_reserved());
    let found = name.as_ref().map(|name| name.bytes());
    found == want.map(|want| want.as_bytes()) && is_reserved == reserved
}

// Each spelling with its name, and whether that is reserved.
#[test]
fn reads_names(rt: HostRuntime) {
    let table: [(&str, Option<&str>, bool); 4] = [
        ("Q_1z", Some("Q_1Z"), false),
        ("irupdate", Some("IRUPDATE"), true),
        ("a12345678901234567890123456789012", None, false),
        ("A-B", None, false),
    ];
    for (spelling, want, reserved) in table {
        assert!(rt; is_read(spelling, want, reserved), "at {spelling}");
    }
}

// What a table that has 7 under one spelling has under another one.
fn found_under(alloc: Global, spelling: &[u8], other: &[u8]) -> Result<Option<i32>, Fail> {
    let name = Name::read(spelling).ok_or("no name")?;
    let other = Name::read(other).ok_or("no name")?;
    let mut places = HashMap::new(alloc);
    places.insert(name, 7)?;
    let found = places.get(&other).copied();
    drop(places);
    Ok(found)
}

// Whether a name is written in this way.
fn is_shown(alloc: Global, spelling: &[u8], text: &str) -> Result<bool, Fail> {
    let name = Name::read(spelling).ok_or("no name")?;
    let shown = format!(in alloc; "{name:?}")?;
    Ok(shown.as_str() == text)
}

#[test]
fn names_are_keys_without_case(rt: HostRuntime) -> Result<(), Fail> {
    let alloc = rt.alloc();
    assert!(rt; found_under(alloc, b"Clock_2", b"cLOCK_2")? == Some(7));
    assert!(rt; found_under(alloc, b"Clock_2", b"CLOCK_3")?.is_none());
    assert!(rt; is_shown(alloc, b"Clock_2", "CLOCK_2")?);
    Ok(())
}

#[test]
fn numbers_and_names_reasons(rt: HostRuntime) -> Result<(), Fail> {
    assert!(rt; Reason::TooManyPieces.number() == 1);
    assert!(rt; Reason::TooLong.number() == 21);
    assert!(rt; Reason::TooManyPieces.name() == b"TooManyPieces".as_slice());
    Ok(())
}
