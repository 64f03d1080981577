//! A box is the device inside.
ghost use Rattle.std.specs.Prelude.{◌≡◌};

use crate::desc::{Desc, Kind};
use crate::device::{Device, FitRefused};
use std::alloc::Global;

/// A box is the device inside.
impl Device for Box<dyn Device> {
    ghost fitted = { λ b. (Device-box b).fitted b.value };

    ghost kind_of = { λ b. (Device-box b).kind_of b.value };

    fn kind(&self) -> Kind {
        (**self).kind()
    }

    fn fit(&mut self, alloc: Global, desc: &Desc) -> Result<(), FitRefused> {
        (**self).fit(alloc, desc)
    }

    fn blank(&mut self) {
        (**self).blank()
    }

    fn tdo(&self) -> bool {
        (**self).tdo()
    }

    fn clock(&mut self, tms: bool, tdi: bool) {
        (**self).clock(tms, tdi)
    }

    fn shift_block(&mut self, tdi: u64, n: u32, last: bool) -> u64 {
        (**self).shift_block(tdi, n, last)
    }

    fn instruction(&self) -> u64 {
        (**self).instruction()
    }

    fn cells(&self) -> u32 {
        (**self).cells()
    }

    fn cell_len(&self, cell: u32) -> u32 {
        (**self).cell_len(cell)
    }

    fn cell_bit(&self, cell: u32, bit: u32) -> bool {
        (**self).cell_bit(cell, bit)
    }

    fn cell_word(&self, cell: u32, at: u32, n: u32) -> u64 {
        (**self).cell_word(cell, at, n)
    }
}
