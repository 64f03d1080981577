//! The record stack in memory that is taken at once.
ghost use Rattle.std.specs.Prelude.{◌≡◌, ◌<◌, ◌+◌, ◌∷◌, ◌++◌, [], IfOk, MatchOption, length, take};
ghost use Rattle.stapl_meaning.specs.Effects.{record_limit};

use stapl_meaning::Record;
use std::alloc::{AllocError, Global};
use std::marker::Model;

/// How many records the stack may hold.
pub const RECORD_LIMIT: usize = 16_384;

/// The records, the topmost last. It has room for the most records there may be, so putting one on top takes no memory.
#[derive(Drop)]
pub struct RecordStack {
    list: Vec<Record>,
}

impl Model for RecordStack {
    ghost use Rattle.std.specs.Prelude.{vec_capacity, ◌≤◌};
    ghost use Rattle.machine_memory.specs.Rooms.{Stacked};
    ghost use Rattle.stapl_meaning.specs.Effects.{record_limit};

    ghost Value = { Stacked };

    ghost view = { λ s. record { items = s.list.items } };

    ghost invariant = { λ s. record_limit ≤ vec_capacity s.list };
}

impl RecordStack {
    /// No record, and the memory for all of them.
    pub fn new(alloc: Global) -> Result<RecordStack, AllocError>
        ensures { IfOk result (λ s. s.items ≡ []) }
    {
        let list = Vec::with_capacity(alloc, RECORD_LIMIT)?;
        Ok(RecordStack { list })
    }

    /// How many records there are.
    pub fn len(&self) -> usize
        ensures { result ≡ length self.now.items }
    {
        self.list.len()
    }

    /// The records, the topmost last.
    pub fn as_slice(&self) -> &[Record]
        ensures { result.now ≡ self.now.items }
    {
        &self.list
    }

    /// Puts a record on top.
    pub fn push(&mut self, top: Record)
        requires { length self.old.items < record_limit }
        ensures items { self.new.items ≡ self.old.items ++ top ∷ [] }
    {
        match self.list.push(top) {
            Ok(()) => {}
            Err(_) => unreachable!(),
        }
    }

    /// Takes the topmost record off, if there is one.
    pub fn pop(&mut self) -> Option<Record>
        ensures items { MatchOption result ((self.old.items ≡ []) × (self.new.items ≡ []))
            (λ top. self.old.items ≡ self.new.items ++ top ∷ []) }
    {
        self.list.pop()
    }

    /// Keeps the lowest n records.
    pub fn truncate(&mut self, n: usize)
        ensures items { self.new.items ≡ take n self.old.items }
    {
        self.list.truncate(n);
    }

    /// Keeps the records up to and with the one at a place.
    pub fn keep_through(&mut self, at: usize)
        requires { at < length self.old.items }
        ensures items { self.new.items ≡ take (at + 1) self.old.items }
    {
        self.list.truncate(at + 1);
    }
}
