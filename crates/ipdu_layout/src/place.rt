//! Places of signals, and whether they stand beside each other.
ghost use Rattle.std.specs.Prelude.{◌≡◌, ◌≤◌, ◌+◌, ◌*◌, ◌↔◌, All, AllPairs, Any, IsTrue};
ghost use Rattle.ipdu_layout.specs.Layout.{IsApart, Meets, PlacesStand};

use crate::marks::{POSITIONS, stand_by_marks};

/// The positions of one signal: `start` to `start + bits - 1`.
#[derive(Clone, Copy, Debug, PartialEq, Eq)]
pub struct Place {
    /// The position of the signal's least significant bit.
    pub start: u32,
    /// How many bits the signal has.
    pub bits: u32,
}

/// Whether each place has a bit and ends within `bytes` bytes, and no two share a position.
pub fn places_stand(places: &[Place], bytes: u32) -> bool
    ensures { IsTrue result ↔ PlacesStand places.now bytes }
{
    let positions = 8 * u64::from(bytes);
    if !lie_inside(places, positions) {
        return false;
    }
    if positions <= POSITIONS as u64 {
        stand_by_marks(places)
    } else {
        stand_by_pairs(places)
    }
}

/// Whether each place has a bit and ends within the first `positions` positions.
fn lie_inside(places: &[Place], positions: u64) -> bool
    ensures { IsTrue result
        ↔ All (λ place. (1 ≤ place.bits) × (place.start + place.bits ≤ positions)) places.now }
{
    places
        .iter()
        .all(|place| place.bits >= 1 && end_of(*place) <= positions)
}

/// Whether no two places share a position, by comparing each with those before it.
fn stand_by_pairs(places: &[Place]) -> bool
    ensures { IsTrue result ↔ AllPairs IsApart places.now }
{
    for (number, place) in places.iter().enumerate() {
        if meets_any(*place, &places[..number]) {
            return false;
        }
    }
    true
}

/// Whether a place shares a position with one of these.
fn meets_any(place: Place, others: &[Place]) -> bool
    ensures { IsTrue result ↔ Any (λ other. Meets place other) others.now }
{
    others.iter().any(|other| meets(place, *other))
}

/// Whether two places share a position.
fn meets(place: Place, other: Place) -> bool
    ensures { IsTrue result ↔ Meets place other }
{
    u64::from(place.start.max(other.start)) < end_of(place).min(end_of(other))
}

/// The position after the last of a place.
fn end_of(place: Place) -> u64
    ensures { result ≡ place.start + place.bits }
{
    u64::from(place.start) + u64::from(place.bits)
}
