//! The test of a rack.
ghost use Rattle.std.specs.Prelude.{◌≡◌, ◌↔◌, map, IsTrue};
ghost use Rattle.dev_card.specs.declared.desc.Kind.TheVariants as kinds;
ghost use Rattle.chain_sim.specs.Rack.{IsRack};

use dev_card::{Device, Kind, MOST_DEVICES};

// Whether these devices are of the three kinds, in their order.
fn are_of_all_kinds<D: Device>(first: &D, second: &D, third: &D) -> bool
    ensures { IsTrue result ↔ ((D.kind_of first.now ≡ kinds.Plain)
        × (D.kind_of second.now ≡ kinds.Regs) × (D.kind_of third.now ≡ kinds.Flash)) }
{
    first.kind() == Kind::Plain && second.kind() == Kind::Regs && third.kind() == Kind::Flash
}

/// Whether the rack is as `fit_board` wants it: a device of each kind for each device that a board may have.
pub fn is_rack<D: Device>(rack: &[D]) -> bool
    ensures { IsTrue result ↔ IsRack (map D.kind_of rack.now) }
{
    if rack.len() != 3 * MOST_DEVICES {
        return false;
    }
    for p in 0..MOST_DEVICES {
        let (first, second, third) = (&rack[3 * p], &rack[3 * p + 1], &rack[3 * p + 2]);
        if !are_of_all_kinds(first, second, third) {
            return false;
        }
    }
    true
}
