//! Runs of neighbours.
ghost use Rattle.std.specs.Prelude.{◌≡◌};

/// The highest place that words may name.
pub const MOST_PLACE: u32 = 999;

/// A run of neighbours of a board, by the places of its first and its last device, which are counted from 1. A single
/// device is a run whose places are the same.
#[derive(Clone, Copy)]
pub struct PlaceRun {
    pub first: u32,
    pub last: u32,
}

impl PlaceRun {
    /// The run of a single place.
    pub fn only(place: u32) -> PlaceRun
        ensures { result ≡ record { first = place; last = place } }
    {
        PlaceRun {
            first: place,
            last: place,
        }
    }
}
