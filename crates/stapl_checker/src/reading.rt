//! What the pieces of a text are.
ghost use Rattle.std.specs.Prelude.{◌≡◌, ◌≤◌, ◌<◌, ◌+◌, ◌-◌, ◌^◌, [], None, length, All, OnOk, IfOk};
ghost use Rattle.stapl_lexer.specs.Pieces.{LiesIn, text_limit};
ghost use Rattle.stapl_checker.specs.Readings.{IsRead, Adds, IsReading};

use crate::walk::PIECE_LIMIT;
use stapl_grammar::{ParseRefused, parse};
use stapl_lexer::{Piece, Reason};
use stapl_syntax::Stmt;
use std::alloc::{AllocError, Global};

/// What a piece is: a statement, or none for the smallest of its reasons.
#[derive(Drop)]
pub(crate) enum Read {
    Statement(Stmt),
    Faulty(Reason),
}

/// A piece that is no statement.
#[derive(Clone, Copy, Drop)]
pub(crate) struct Unread {
    /// Its index.
    pub(crate) index: u32,
    /// The smallest of its reasons.
    pub(crate) reason: Reason,
}

/// The statements of a text.
#[derive(Drop)]
pub(crate) struct Reading {
    /// The numbers of the pieces that have a statement, counted from 1.
    pub(crate) numbers: Vec<u32>,
    /// Their statements.
    pub(crate) statements: Vec<Stmt>,
    /// The first piece that has none.
    pub(crate) unread: Option<Unread>,
}

// What a piece of a text is.
fn read_piece(alloc: Global, text: &[u8], piece: &Piece) -> Result<Read, AllocError>
    requires small { length text.now ≤ text_limit }
    requires lies { LiesIn text.now piece.now }
    ensures { IfOk result (IsRead text.now piece.now) }
{
    match parse(alloc, text, piece) {
        Ok(statement) => Ok(Read::Statement(statement)),
        Err(ParseRefused::Because(reason)) => Ok(Read::Faulty(reason)),
        Err(ParseRefused::Memory) => Err(AllocError),
    }
}

impl Reading {
    // No pieces, with room for so many statements.
    fn none(alloc: Global, room: usize) -> Result<Reading, AllocError>
        ensures numbers { IfOk result (λ reading. reading.numbers.items ≡ []) }
        ensures statements { IfOk result (λ reading. reading.statements.items ≡ []) }
        ensures unread { IfOk result (λ reading. reading.unread ≡ None) }
    {
        Ok(Reading {
            numbers: Vec::with_capacity(alloc, room)?,
            statements: Vec::with_capacity(alloc, room)?,
            unread: None,
        })
    }

    // Adds the piece with this index.
    fn add(&mut self, index: u32, read: Read) -> Result<(), AllocError>
        requires { index < 2 ^ 32 - 1 }
        ensures { OnOk result (Adds index read self.old self.new) }
    {
        match read {
            Read::Statement(statement) => {
                self.statements.push(statement)?;
                self.numbers.push(index + 1)?;
            }
            Read::Faulty(reason) => {
                if self.unread.is_none() {
                    self.unread = Some(Unread { index, reason });
                }
            }
        }
        Ok(())
    }
}

/// What the pieces of a text are. The only error is want of memory. The time is linear in the length of the text.
pub(crate) fn read_pieces(
    alloc: Global,
    text: &[u8],
    pieces: &[Piece],
) -> Result<Reading, AllocError>
    requires small { length text.now ≤ text_limit }
    requires few { length pieces.now ≤ text_limit + 1 }
    requires lie { All (LiesIn text.now) pieces.now }
    ensures { IfOk result (IsReading text.now pieces.now) }
{
    let mut reading = Reading::none(alloc, pieces.len().min(PIECE_LIMIT))?;
    for (i, piece) in pieces.iter().enumerate() {
        let read = read_piece(alloc, text, piece)?;
        reading.add(i as u32, read)?;
    }
    Ok(reading)
}
