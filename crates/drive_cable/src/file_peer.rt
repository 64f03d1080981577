//! A pair of files as a peer, each of which may be a named pipe.
ghost use Rattle.std.specs.Prelude.{◌≡◌, None};
ghost use Rattle.tool_io.specs.Causes.{NeverFalls, HasRisen};

use crate::digits::put_bits;
use crate::peer::Peer;
use link_server::raise;
use std::fs::{File, OpenOptions};
use std::io::{Read, Write};
use std::rt::Files;
use tool_io::Failed;

/// The most answers that are read at once.
const MOST_DIGITS: usize = 64;

/// A pair of files of the system: one takes the bytes, the other gives the answers. It tells nothing.
///
/// Before both are open each call fails. The end of the answers is a fault, and so are an answer that is neither 0 nor
/// 1, and a write that takes no byte. Each failure raises the count by one, up to the last value of 64 bits.
#[derive(Drop)]
pub struct FilePeer<'a, R: Files> {
    rt: &'a R,
    receiving: Option<R::File>,
    sending: Option<R::File>,
    faults: u64,
}

impl<'a, R: Files> FilePeer<'a, R> {
    ghost use Rattle.drive_cable.specs.FilePeers.{peer_faults, IsPeerSaturated};

    /// The files that this handle reaches. None is open yet.
    pub fn new(rt: &'a R) -> FilePeer<'a, R>
        ensures no_faults { ⟦<FilePeer<'a, R> as Peer>⟧.faults result ≡ 0 }
    {
        FilePeer {
            rt,
            receiving: None,
            sending: None,
            faults: 0,
        }
    }

    // A call that failed.
    fn fail(&mut self) -> Failed
        ensures kept { NeverFalls peer_faults IsPeerSaturated self.old self.new }
        ensures rose { HasRisen peer_faults IsPeerSaturated self.old self.new }
    {
        raise(&mut self.faults);
        Failed
    }
}

impl<R: Files> Peer for FilePeer<'_, R> {
    ghost use Rattle.drive_cable.specs.FilePeers.{peer_faults, IsPeerSaturated};

    ghost sent = { λ _. None };

    ghost left = { λ _. None };

    ghost faults = { peer_faults };

    ghost is_last = { IsPeerSaturated };

    fn open(&mut self, receive: &str, send: &str) -> Result<(), Failed> {
        let Ok(receiving) = File::open(self.rt, receive) else {
            return Err(self.fail());
        };
        self.receiving = Some(receiving);
        let Ok(sending) = OpenOptions::new()
            .write(true)
            .create(true)
            .truncate(true)
            .open(self.rt, send)
        else {
            return Err(self.fail());
        };
        self.sending = Some(sending);
        Ok(())
    }

    fn send(&mut self, bytes: &[u8]) -> Result<u32, Failed> {
        let most = bytes.len().min(u32::MAX as usize);
        let Some(file) = &mut self.sending else {
            return Err(self.fail());
        };
        match file.write(&bytes[..most]) {
            Ok(n) if n > 0 || most == 0 => Ok(n as u32),
            _ => Err(self.fail()),
        }
    }

    fn flush(&mut self) -> Result<(), Failed> {
        let Some(file) = &mut self.sending else {
            return Err(self.fail());
        };
        if file.flush().is_err() {
            return Err(self.fail());
        }
        Ok(())
    }

    fn receive(&mut self, into: &mut [bool]) -> Result<u32, Failed> {
        let mut digits = [0u8; MOST_DIGITS];
        let most = into.len().min(MOST_DIGITS);
        let Some(file) = &mut self.receiving else {
            return Err(self.fail());
        };
        match file.read(&mut digits[..most]) {
            Ok(n) if n > 0 && put_bits(&digits[..n], into) == n => Ok(n as u32),
            _ => Err(self.fail()),
        }
    }
}
