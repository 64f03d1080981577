// Output that is gathered before it is written.
ghost use Rattle.std.specs.Prelude.{◌≡◌, ◌+◌, ◌<◌, ◌≤◌, [], ◌++◌, not, length, IsOk, OnOk, OnErr};
ghost use Rattle.std.specs.Fmt.{signed_decimal};
ghost use Rattle.tool_io.specs.Causes.{HasCause};
ghost use Rattle.tool_io.specs.Bytes.{then_bytes, MovesFront};

use crate::block::Block;
use crate::{Failed, Sink};
use itoa::Buffer;

/// Bytes on their way to a sink: 4,096 are gathered before they are written. It takes no memory from an allocator.
///
/// What is put has been written whole only after `finish`. Once a call has failed, no further one may be made on this
/// value. `Failed` comes only where the sink's count of faults rose, or stands at its last value; what was written then
/// is a front of all that was put, with the bytes of the failed call.
#[derive(Drop)]
pub struct Lines<'a, K: Sink> {
    sink: &'a mut K,
    block: Block,
    failed: bool,
}

// Writes all of the bytes.
fn write_all<K: Sink>(sink: &mut K, bytes: &[u8]) -> Result<(), Failed>
    ensures all { OnOk result (K.written sink.new ≡ then_bytes (K.written sink.old) bytes.now) }
    ensures front { OnErr result (MovesFront (K.written sink.old) bytes.now (K.written sink.new)) }
    ensures cause { HasCause K.faults K.is_last sink.old sink.new result }
{
    let mut rest = bytes;
    'turns: while !rest.is_empty() {
        let n = sink.write(rest)?;
        rest = &rest[n as usize..];
    }
    Ok(())
}

impl<'a, K: Sink> Lines<'a, K> {
    ghost use Rattle.tool_io.specs.Lines.{gathered, IsWhole, sink_of, IsOver, IsSinkUntouched, HasPut};

    /// Over this sink, with nothing gathered.
    pub fn new(sink: &'a mut K) -> Lines<'a, K>
        ensures same_sink { IsOver result sink.entry }
        ensures sink { sink_of result ≡ sink.old }
        ensures empty { gathered result ≡ [] }
        ensures whole { IsWhole result }
    {
        Lines {
            sink,
            block: Block::new(),
            failed: false,
        }
    }

    /// Whether no call has failed.
    pub fn is_whole(&self) -> bool
        ensures { result ≡ not self.now.failed }
    {
        !self.failed
    }

    /// Puts the bytes after all that was put before. The sink is not touched while all that is gathered fits into
    /// 4,096 bytes.
    ///
    /// `Failed` as of the sink.
    pub fn put(&mut self, bytes: &[u8]) -> Result<(), Failed>
        requires { IsWhole self.old }
        ensures put { HasPut K.Sink self.old bytes.now self.new result }
        ensures gathers { length (gathered self.old) + length bytes.now ≤ 4096 → IsOk result × IsSinkUntouched self.old self.new }
    {
        let mut rest = bytes;
        'turns: while !rest.is_empty() {
            self.make_room()?;
            let n = self.block.gather(rest);
            rest = &rest[n..];
        }
        Ok(())
    }

    /// Puts the decimal digits of a number, with a minus sign before them if it is below zero.
    ///
    /// `Failed` as of the sink.
    pub fn put_int(&mut self, n: i64) -> Result<(), Failed>
        requires { IsWhole self.old }
        ensures put { HasPut K.Sink self.old (signed_decimal n) self.new result }
        ensures gathers { length (gathered self.old) + length (signed_decimal n) ≤ 4096 →
            IsOk result × IsSinkUntouched self.old self.new }
    {
        let mut digits = Buffer::new();
        self.put(digits.format(n).as_bytes())
    }

    /// Writes all that is gathered, and flushes the sink.
    ///
    /// `Failed` as of the sink.
    pub fn finish(&mut self) -> Result<(), Failed>
        requires { IsWhole self.old }
        ensures put { HasPut K.Sink self.old [] self.new result }
        ensures empty { OnOk result (gathered self.new ≡ []) }
    {
        self.empty()?;
        if self.sink.flush().is_err() {
            self.failed = true;
            return Err(Failed);
        }
        Ok(())
    }

    // Writes the block.
    fn empty(&mut self) -> Result<(), Failed>
        requires { IsWhole self.old }
        ensures put { HasPut K.Sink self.old [] self.new result }
        ensures empty { OnOk result (gathered self.new ≡ []) }
    {
        self.failed = true;
        write_all(self.sink, self.block.bytes())?;
        self.failed = false;
        self.block.clear();
        Ok(())
    }

    // Writes the block if it is full.
    fn make_room(&mut self) -> Result<(), Failed>
        requires { IsWhole self.old }
        ensures room { OnOk result (length (gathered self.new) < 4096) }
        ensures same { length (gathered self.old) < 4096 →
            IsOk result × IsSinkUntouched self.old self.new × (gathered self.new ≡ gathered self.old) }
        ensures put { HasPut K.Sink self.old [] self.new result }
    {
        if self.block.is_full() {
            return self.empty();
        }
        Ok(())
    }
}
