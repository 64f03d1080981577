// The real files and the real output. Through the traits nothing is told of them; the calls say what std's reader and
// writer did.
ghost use Rattle.std.specs.Prelude.{◌≡◌, ◌<◌, ◌≤◌, ℕ, List, [], None, length, IfOk, OnErr};
ghost use Rattle.std.specs.Io.KnownBytes.{Keeps, ReadConsumes, WriteAppends};
ghost use Rattle.tool_io.specs.Bytes.{MovesFront};
ghost use Rattle.tool_io.specs.Causes.{HasCause, HasCauseAt};

use crate::count::raise;
use crate::{Failed, Shelf, Sink};
use std::fs::File;
use std::io::{Read, Write};
use std::rt::Files;

/// The files of the system, by their paths. It tells nothing.
///
/// The count of every name is one number, which each failure raises by one, up to the last value of 64 bits.
#[derive(Drop)]
pub struct FileShelf<'a, R: Files> {
    rt: &'a R,
    file: Option<R::File>,
    faults: u64,
}

impl<'a, R: Files> FileShelf<'a, R> {
    /// The files that this handle reaches. None is read yet.
    pub fn new(rt: &'a R) -> FileShelf<'a, R>
        ensures no_faults { (name : List ℕ) → ⟦<FileShelf<'a, R> as Shelf>⟧.faults result name ≡ 0 }
    {
        FileShelf {
            rt,
            file: None,
            faults: 0,
        }
    }
}

impl<R: Files> Shelf for FileShelf<'_, R> {
    ghost use Rattle.tool_io.specs.Adapters.{file_faults, IsFileSaturated, HasFile, file_left};

    ghost told = { λ _. None };

    ghost faults = { λ s _. file_faults s };

    ghost is_last = { λ s _. IsFileSaturated s };

    ghost reads = { λ s _. HasFile s };

    ghost left = { λ _. [] };

    ghost picks = { λ _. None };

    fn pick(&mut self, name: &str) -> Result<(), Failed> {
        match File::open(self.rt, name) {
            Ok(file) => {
                self.file = Some(file);
                Ok(())
            }
            Err(_) => {
                self.file = None;
                raise(&mut self.faults);
                Err(Failed)
            }
        }
    }

    // The trait's clauses, and what the file gave.
    fn read(&mut self, into: &mut [u8]) -> Result<u32, Failed>
        requires picked { (name : List ℕ) × HasFile self.old }
        requires room { 0 < length into.old }
        ensures same { (name : List ℕ) → HasFile self.old → HasFile self.new }
        ensures bound { IfOk result (λ n. n ≤ length into.new) }
        ensures cause { (name : List ℕ) → HasFile self.old →
            HasCauseAt (λ s _. file_faults s) (λ s _. IsFileSaturated s) name self.old self.new result }
        ensures given { ReadConsumes (file_left R.File.remaining self.old) (file_left R.File.remaining self.new) result into.new }
    {
        let most = into.len().min(u32::MAX as usize);
        let file = self.file.as_mut().unwrap();
        match file.read(&mut into[..most]) {
            Ok(n) => Ok(n as u32),
            Err(_) => {
                raise(&mut self.faults);
                Err(Failed)
            }
        }
    }
}

/// A writer of std, as standard output. It tells nothing.
///
/// A write that takes none of the bytes that it is given is a fault. Each failure raises the count by one, up to the
/// last value of 64 bits.
#[derive(Drop)]
pub struct StdSink<W: Write + Drop> {
    to: W,
    faults: u64,
}

impl<W: Write + Drop> StdSink<W> {
    ghost use Rattle.tool_io.specs.Adapters.{writer_of};

    /// A sink that writes to this writer.
    pub fn new(to: W) -> StdSink<W>
        ensures no_faults { ⟦<StdSink<W> as Sink>⟧.faults result ≡ 0 }
        ensures over { writer_of result ≡ to }
    {
        StdSink { to, faults: 0 }
    }
}

impl<W: Write + Drop> Sink for StdSink<W> {
    ghost use Rattle.tool_io.specs.Adapters.{output_faults, IsOutputSaturated, writer_of};

    ghost written = { λ _. None };

    ghost faults = { output_faults };

    ghost is_last = { IsOutputSaturated };

    // The trait's clauses, and what the writer was given.
    fn write(&mut self, bytes: &[u8]) -> Result<u32, Failed>
        ensures bound { IfOk result (λ n. n ≤ length bytes.now) }
        ensures progress { IfOk result (λ n. 0 < length bytes.now → 0 < n) }
        ensures front { OnErr result (MovesFront None bytes.now None) }
        ensures cause { HasCause output_faults IsOutputSaturated self.old self.new result }
        ensures given { WriteAppends (W.contents (writer_of self.old)) (W.contents (writer_of self.new)) result bytes.now }
    {
        let most = bytes.len().min(u32::MAX as usize);
        match self.to.write(&bytes[..most]) {
            Ok(n) if n > 0 || most == 0 => Ok(n as u32),
            _ => {
                raise(&mut self.faults);
                Err(Failed)
            }
        }
    }

    // The trait's clauses, and that the writer was given nothing.
    fn flush(&mut self) -> Result<(), Failed>
        ensures cause { HasCause output_faults IsOutputSaturated self.old self.new result }
        ensures given { Keeps (W.contents (writer_of self.old)) (W.contents (writer_of self.new)) }
    {
        if self.to.flush().is_err() {
            raise(&mut self.faults);
            return Err(Failed);
        }
        Ok(())
    }
}
