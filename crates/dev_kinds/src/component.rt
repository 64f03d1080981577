//! A device of any kind.
ghost use Rattle.std.specs.Prelude.{◌≡◌, Some, IsSome};
ghost use Rattle.std.specs.Option.{option_map};
ghost use Rattle.dev_kinds.specs.DataRegisters.{card_with};

use crate::data_registers::DataRegisters;
use crate::fitted::FittedDevice;
use dev_card::{Desc, Device, FitRefused, Kind};
use std::alloc::Global;

/// A device with test logic (IEEE 1149.1) and the data registers of one kind. It is unfitted at first.
#[derive(Drop)]
pub struct Component<R: DataRegisters> {
    pub(crate) state: Option<FittedDevice<R>>,
}

impl<R: DataRegisters> Component<R> {
    // The device that was fitted.
    fn fitted(&self) -> &FittedDevice<R>
        requires { IsSome self.now.state }
        ensures { self.now.state ≡ Some result.now }
    {
        match &self.state {
            Some(s) => s,
            None => unreachable!(),
        }
    }
}

impl<R: DataRegisters> Device for Component<R> {
    ghost fitted = { λ p. option_map
        (λ s. record { card = card_with s.logic (R.contents s.registers); sound = s.fits.sound }) p.state };

    ghost kind_of = { λ _. R.own_kind };

    fn kind(&self) -> Kind {
        R::kind()
    }

    fn fit(&mut self, alloc: Global, desc: &Desc) -> Result<(), FitRefused> {
        self.state = None;
        if desc.kind != R::kind() {
            return Err(FitRefused::WrongKind);
        }
        match FittedDevice::new(alloc, desc) {
            Ok(fitted) => {
                self.state = Some(fitted);
                Ok(())
            }
            Err(_) => Err(FitRefused::Memory),
        }
    }

    fn blank(&mut self) {
        match &mut self.state {
            Some(s) => s.blank(),
            None => unreachable!(),
        }
    }

    fn tdo(&self) -> bool {
        self.fitted().logic.tdo()
    }

    fn clock(&mut self, tms: bool, tdi: bool) {
        match &mut self.state {
            Some(s) => s.clock(tms, tdi),
            None => unreachable!(),
        }
    }

    fn shift_block(&mut self, tdi: u64, n: u32, last: bool) -> u64 {
        match &mut self.state {
            Some(s) => s.shift_block(tdi, n, last),
            None => unreachable!(),
        }
    }

    fn instruction(&self) -> u64 {
        self.fitted().logic.instruction()
    }

    fn cells(&self) -> u32 {
        self.fitted().registers.cell_count()
    }

    fn cell_len(&self, cell: u32) -> u32 {
        self.fitted().cell(cell).len()
    }

    fn cell_bit(&self, cell: u32, bit: u32) -> bool {
        self.fitted().cell(cell).get(bit)
    }

    fn cell_word(&self, cell: u32, at: u32, n: u32) -> u64 {
        self.fitted().cell(cell).word(at, n)
    }
}
