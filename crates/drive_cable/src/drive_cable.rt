//! A cable that is driven by bytes.
ghost use Rattle.std.specs.Prelude.{◌≡◌};
ghost use Rattle.scan_paths.specs.Cables.{whole};

use crate::calls::{clock_peer, move_peer, shift_peer, wait_peer};
use crate::peer::Peer;
use scan_paths::Cable;
use tool_io::Failed;

/// A cable over a peer that answers the bytes of remote bitbang. It is broken exactly if one of its calls has failed.
///
/// For each clock it sends the digit of its levels with TCK low, an `R`, and the digit with TCK high, and receives one
/// answer; for a block of n clocks it sends the bytes of all, and then receives n answers. A wait sends nothing, or, if
/// waits are sent, a `Z` for each millisecond and a `z` for each microsecond more. A frequency sends nothing. It tells
/// no board. Its count is the peer's. It takes no memory.
#[derive(Drop)]
pub struct DriveCable<'a, P> {
    peer: &'a mut P,
    sleeps: bool,
    is_broken: bool,
}

impl<'a, P: Peer> DriveCable<'a, P> {
    ghost use Rattle.drive_cable.specs.DriveCables.{IsOver, peer_of, sends_waits, drive_breakage};

    /// Over this peer, with or without the bytes of waits.
    pub fn over(peer: &'a mut P, sleeps: bool) -> DriveCable<'a, P>
        ensures same_peer { IsOver result peer.entry }
        ensures peer { peer_of result ≡ peer.old }
        ensures waits { sends_waits result ≡ sleeps }
        ensures whole { drive_breakage result ≡ whole }
    {
        DriveCable {
            peer,
            sleeps,
            is_broken: false,
        }
    }
}

impl<P: Peer> Cable for DriveCable<'_, P> {
    ghost use Rattle.drive_cable.specs.DriveCables.{no_board, Leads, drive_count, IsCountLast, drive_breakage, no_faults, IsNever, never_told, nothing_leads, leads_both};

    ghost board = { no_board };

    ghost made = { Leads P.sent P.left };

    ghost line_faults = { drive_count P.faults };

    ghost is_line_last = { IsCountLast P.is_last };

    ghost pin_faults = { no_faults };

    ghost is_pin_last = { IsNever };

    ghost breakage = { drive_breakage };

    fn clock(&mut self, tms: bool, tdi: bool) -> Result<bool, Failed> {
        self.is_broken = true;
        let tdo = clock_peer(self.peer, tms, tdi)?;
        self.is_broken = false;
        Ok(tdo)
    }

    fn shift_block(&mut self, tdi: u64, n: u32, last: bool) -> Result<u64, Failed> {
        self.is_broken = true;
        let tdo = shift_peer(self.peer, tdi, n, last)?;
        self.is_broken = false;
        Ok(tdo)
    }

    fn move_block(&mut self, tms: u64, n: u32) -> Result<u64, Failed> {
        self.is_broken = true;
        let tdo = move_peer(self.peer, tms, n)?;
        self.is_broken = false;
        Ok(tdo)
    }

    fn usec(&mut self, n: u32) -> Result<(), Failed> {
        if self.sleeps {
            self.is_broken = true;
            wait_peer(self.peer, n)?;
            self.is_broken = false;
        }
        Ok(())
    }

    fn hertz(&mut self, n: u32) -> Result<(), Failed> {
        let _n = n;
        Ok(())
    }

    ghost sound = { never_told };

    ghost none_made = { nothing_leads P.sent P.left };

    ghost both_made = { leads_both P.sent P.left };
}
