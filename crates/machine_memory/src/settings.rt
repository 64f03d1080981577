//! How scans go.
ghost use Rattle.std.specs.Prelude.{◌≡◌, ◌≤◌, IfOk, length};
ghost use Rattle.scan_paths.specs.Scans.{AreInside};
ghost use Rattle.stapl_meaning.specs.Plays.{first_settings};
ghost use Rattle.stapl_meaning.specs.Scans.{padding_limit};
ghost use Rattle.machine_memory.specs.PadSettings.{settings_seen};

use crate::scan_bits::ScanBits;
use bit_list::Bits;
use scan_paths::Pads;
use std::alloc::{AllocError, Global};
use std::marker::Model;
use tap_states::Tap;

/// The most bits of a padding.
pub const PADDING_LIMIT: u32 = 65_536;

/// How scans through some registers go: the paddings of the program, and the state in which scans end. Contracts see it
/// as that.
#[derive(Drop)]
pub struct Settings {
    pads: Pads,
    stop: Tap,
}

impl Model for Settings {
    ghost use Rattle.stapl_meaning.specs.States.{ScanSettings};

    ghost Value = { ScanSettings };

    ghost use Rattle.machine_memory.specs.PadSettings.{settings_seen, HasPadRoom};

    ghost view = { λ s. settings_seen s.pads s.stop };

    ghost invariant = { λ s. HasPadRoom s.pads };
}

impl Settings {
    /// No padding, and scans end in Run-Test/Idle. It takes the memory of the longest paddings.
    pub fn first(alloc: Global) -> Result<Settings, AllocError>
        ensures { IfOk result (λ s. s ≡ first_settings) }
    {
        Ok(Settings {
            pads: Pads {
                pre: 0,
                pre_bits: Bits::zeros(alloc, PADDING_LIMIT)?,
                post: 0,
                post_bits: Bits::zeros(alloc, PADDING_LIMIT)?,
            },
            stop: Tap::Idle,
        })
    }

    /// The state in which scans end.
    pub fn stop(&self) -> Tap
        ensures { result ≡ self.now.stop }
    {
        self.stop
    }

    /// The paddings of scans.
    pub fn pads(&self) -> &Pads
        ensures inside { AreInside result.now }
        ensures seen { settings_seen result.now self.now.stop ≡ self.now }
    {
        &self.pads
    }

    /// Sets the state in which scans end.
    pub fn set_stop(&mut self, stop: Tap)
        ensures { self.new ≡ record self.old { stop = stop } }
    {
        self.stop = stop;
    }

    /// Sets the bits before the data.
    pub fn set_pre(&mut self, bits: &ScanBits)
        requires { length bits.now ≤ padding_limit }
        ensures { self.new ≡ record self.old { pre = bits.now } }
    {
        let n = bits.len();
        self.pads.pre_bits.copy_range(0, bits.as_bits(), 0, n);
        self.pads.pre = n;
    }

    /// Sets the bits after the data.
    pub fn set_post(&mut self, bits: &ScanBits)
        requires { length bits.now ≤ padding_limit }
        ensures { self.new ≡ record self.old { post = bits.now } }
    {
        let n = bits.len();
        self.pads.post_bits.copy_range(0, bits.as_bits(), 0, n);
        self.pads.post = n;
    }
}
