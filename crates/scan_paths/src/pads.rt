//! The paddings of a scan.
ghost use Rattle.std.specs.Prelude.{◌≡◌, List, None};
ghost use Rattle.dev_card.specs.declared.desc.Desc.{Desc};
ghost use Rattle.dev_card.specs.Padding.{base_lengths, base_pre_of, base_post_of};
ghost use Rattle.scan_paths.specs.Scans.{lengths_of};

use bit_list::Bits;

/// The lengths of base padding, in bits: of the ones before and after all that a program shifts, in scans of the
/// instruction registers and of the data registers.
#[derive(Clone, Copy)]
pub struct BasePads {
    pub pre_ir: u32,
    pub post_ir: u32,
    pub pre_dr: u32,
    pub post_dr: u32,
}

impl BasePads {
    /// No base padding, as without a place in the chain.
    pub fn none() -> BasePads
        ensures { (descs : List Desc) → lengths_of result ≡ base_lengths descs None }
    {
        BasePads {
            pre_ir: 0,
            post_ir: 0,
            pre_dr: 0,
            post_dr: 0,
        }
    }

    /// How many ones stand before all else in a scan, true for the instruction registers.
    pub fn pre(&self, ir: bool) -> u32
        ensures { result ≡ base_pre_of ir (lengths_of self.now) }
    {
        if ir { self.pre_ir } else { self.pre_dr }
    }

    /// How many ones stand after all else in a scan, true for the instruction registers.
    pub fn post(&self, ir: bool) -> u32
        ensures { result ≡ base_post_of ir (lengths_of self.now) }
    {
        if ir { self.post_ir } else { self.post_dr }
    }
}

/// What the program shifts before and after the data of a scan: of two lists the lowest `pre` and `post` bits. Both are
/// shifted from the lowest index on.
///
/// The lists may have more bits than that, so that one place in memory serves for paddings of any length.
#[derive(Drop)]
pub struct Pads {
    /// How many bits of `pre_bits` stand before the data.
    pub pre: u32,
    pub pre_bits: Bits,
    /// How many bits of `post_bits` stand after the data.
    pub post: u32,
    pub post_bits: Bits,
}
