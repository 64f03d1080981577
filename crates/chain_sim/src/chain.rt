//! Devices of a rack as one chain.
ghost use Rattle.std.specs.Prelude.{◌≡◌, map, refl, IsTrue};
ghost use Rattle.chain_sim.specs.Places.{cards_at, is_chain};
ghost use Rattle.chain_sim.specs.Runs.{HasRun};
ghost use Rattle.chain_sim.specs.RunLaws.{told_sound, run_none, signals_both};
ghost use Rattle.std.proofs.Common.{◌∙◌};
ghost use Rattle.scan_paths.specs.Cables.{whole_if, clocks_in};

use crate::rack::{clock_all, first_tdo, shift_all};
use dev_card::Device;
use scan_paths::Cable;
use tool_io::Failed;

/// The devices at some places of a lent rack as one chain, the first place nearest TDO (IEEE 1149.1, serial
/// connection).
///
/// It tells its board: the cards of these devices. A clock is one of that board, and touches no other device. No call
/// fails, both counts of faults stay at 0, and it is never broken. A clock takes no memory, and time linear in the
/// number of places.
#[derive(Drop)]
pub struct ChainOf<'a, D> {
    rack: &'a mut Vec<D>,
    places: &'a [u32],
}

/// A chain over a rack of boxed devices.
pub type Chain<'a> = ChainOf<'a, Box<dyn Device>>;

impl<'a, D: Device> ChainOf<'a, D> {
    ghost use Rattle.chain_sim.specs.Chains.{IsOver, devices_of, chain_places};

    /// The chain of the devices at these places. There is at least one place, the places differ, and each has a fitted
    /// device.
    pub fn over(rack: &'a mut Vec<D>, places: &'a [u32]) -> ChainOf<'a, D>
        requires chain { IsTrue (is_chain (map D.fitted rack.old.items) places.now) }
        ensures same_rack { IsOver result rack.entry }
        ensures devices { devices_of result ≡ rack.old.items }
        ensures places { chain_places result ≡ places.now }
    {
        ChainOf { rack, places }
    }
}

impl<D: Device> Cable for ChainOf<'_, D> {
    ghost use Rattle.chain_sim.specs.Chains.{IsOverSame, devices_of, chain_places};

    ghost board = { λ c. cards_at (map D.fitted (devices_of c)) (chain_places c) };

    ghost made = { λ a signals b. IsOverSame a b × HasRun D.fitted D.kind_of
        (devices_of a) (devices_of b) (chain_places a) (chain_places b) (clocks_in signals) };

    ghost line_faults = { λ _. 0 };

    ghost is_line_last = { λ _. ⊥ };

    ghost pin_faults = { λ _. 0 };

    ghost is_pin_last = { λ _. ⊥ };

    ghost breakage = { λ c. whole_if (is_chain (map D.fitted (devices_of c)) (chain_places c)) };

    fn clock(&mut self, tms: bool, tdi: bool) -> Result<bool, Failed> {
        let tdo = first_tdo(self.rack, self.places, tdi);
        clock_all(self.rack, self.places, tms, tdi);
        Ok(tdo)
    }

    fn shift_block(&mut self, tdi: u64, n: u32, last: bool) -> Result<u64, Failed> {
        Ok(shift_all(self.rack, self.places, tdi, n, last))
    }

    fn usec(&mut self, _n: u32) -> Result<(), Failed> {
        Ok(())
    }

    fn hertz(&mut self, _n: u32) -> Result<(), Failed> {
        Ok(())
    }

    ghost sound = { λ c cs told. told_sound (map D.fitted (devices_of c)) (chain_places c) cs told };

    ghost none_made = { λ c. (refl, run_none D.fitted D.kind_of (devices_of c) (chain_places c)) };

    ghost both_made = { λ a b c front back p q. (
      q.0 ∙ p.0,
      signals_both D.fitted D.kind_of (devices_of a) (devices_of b) (devices_of c)
          (chain_places a) (chain_places b) (chain_places c) front back p.1 q.1,
    ) };
}
