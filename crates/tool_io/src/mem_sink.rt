// A sink in memory, whose writes fail where a test wants it.
ghost use Rattle.std.specs.Prelude.{◌≡◌, ◌+◌, ◌<◌, ◌≤◌, [], length, take, IfOk, IsOk, OnErr, Some};
ghost use Rattle.tool_io.specs.Causes.{HasCause};
ghost use Rattle.tool_io.specs.Bytes.{then_bytes, MovesFront};
ghost use Rattle.tool_io.specs.Sinks.{MemState, fault_count, IsCountLast, Writes};

use crate::count::raise;
use crate::{Failed, Sink};
use std::alloc::{AllocError, Global};
use std::marker::Model;

/// A sink in memory, with a fixed room, whose writes with the listed numbers fail.
///
/// It tells what was written. Writes are numbered from 1, and the number stays at 4,294,967,295 once it is reached. A
/// write takes as many bytes as its bite and the room that is left allow. It fails exactly where its number is listed,
/// or it has bytes and no room is left; then it takes none, and raises the count of faults by one, up to the last value
/// of 64 bits. A flush never fails.
#[derive(Drop)]
pub struct MemSink {
    taken: Vec<u8>,
    room: u32,
    bite: u32,
    failing: Vec<u32>,
    number: u32,
    faults: u64,
}

impl Model for MemSink {
    ghost use Rattle.std.specs.Prelude.{◌≤◌, length, vec_capacity};
    ghost use Rattle.tool_io.specs.Sinks.{MemState};

    ghost Value = { MemState };

    ghost view = { λ s. record {
      written = s.taken.items;
      room = s.room;
      bite = s.bite;
      failing = s.failing.items;
      number = s.number;
      faults = s.faults;
    } };

    ghost invariant = { λ s. (length s.taken.items ≤ s.room) × (s.room ≤ vec_capacity s.taken) × (1 ≤ s.bite) };
}

impl MemSink {
    /// An empty sink with room for `room` bytes in all.
    ///
    /// A write takes at most `bite` bytes, which is at least 1. `failing` has the numbers of the writes that fail.
    pub fn new(
        alloc: Global,
        room: u32,
        bite: u32,
        failing: Vec<u32>,
    ) -> Result<MemSink, AllocError>
        requires { 1 ≤ bite }
        ensures { IfOk result (λ s. s ≡ record {
          written = [];
          room = room;
          bite = bite;
          failing = failing.items;
          number = 0;
          faults = 0;
        }) }
    {
        Ok(MemSink {
            taken: Vec::with_capacity(alloc, room as usize)?,
            room,
            bite,
            failing,
            number: 0,
            faults: 0,
        })
    }

    /// All bytes that the sink took, in order.
    pub fn written(&self) -> &[u8]
        ensures { result.now ≡ self.now.written }
    {
        &self.taken
    }
}

impl Sink for MemSink {
    ghost written = { λ s. Some s.written };

    ghost faults = { fault_count };

    ghost is_last = { IsCountLast };

    fn write(&mut self, bytes: &[u8]) -> Result<u32, Failed>
        ensures bound { IfOk result (λ n. n ≤ length bytes.now) }
        ensures progress { IfOk result (λ n. 0 < length bytes.now → 0 < n) }
        ensures taken { IfOk result (λ n. Some self.new.written ≡ then_bytes (Some self.old.written) (take n bytes.now)) }
        ensures front { OnErr result (MovesFront (Some self.old.written) bytes.now (Some self.new.written)) }
        ensures cause { HasCause fault_count IsCountLast self.old self.new result }
        ensures exact { Writes self.old bytes.now result self.new }
    {
        self.number = self.number.saturating_add(1);
        let left = self.room - self.taken.len() as u32;
        if self.failing.contains(&self.number) || (!bytes.is_empty() && left == 0) {
            raise(&mut self.faults);
            return Err(Failed);
        }
        let n = bytes.len().min(self.bite.min(left) as usize);
        self.taken.extend_from_slice(&bytes[..n]).unwrap();
        Ok(n as u32)
    }

    fn flush(&mut self) -> Result<(), Failed>
        ensures keeps { Some self.new.written ≡ Some self.old.written }
        ensures cause { HasCause fault_count IsCountLast self.old self.new result }
        ensures exact { IsOk result × (self.new ≡ self.old) }
    {
        Ok(())
    }
}
