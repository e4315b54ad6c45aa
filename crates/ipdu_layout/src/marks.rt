//! Places told apart in one pass, by marks at the positions of up to 64 bytes.
ghost use Rattle.std.specs.Prelude.{◌≤◌, ◌+◌, ◌↔◌, All, AllPairs, IsTrue, MatchBool, length};
ghost use Rattle.ipdu_layout.specs.Layout.{IsApart};
ghost use Rattle.ipdu_layout.specs.Marks.{MarksPlace, MeetsMark};

use crate::place::Place;

/// The number of positions in 64 bytes.
pub const POSITIONS: usize = 512;

/// Whether no two places share a position, where all end within [`POSITIONS`].
pub fn stand_by_marks(places: &[Place]) -> bool
    requires { All (λ place. place.start + place.bits ≤ POSITIONS) places.now }
    ensures { IsTrue result ↔ AllPairs IsApart places.now }
{
    let mut marks = [false; POSITIONS];
    for place in places {
        if !mark(&mut marks, *place) {
            return false;
        }
    }
    true
}

/// Marks the positions of a place, unless one is marked already.
pub fn mark(marks: &mut [bool], place: Place) -> bool
    requires { place.start + place.bits ≤ length marks.old }
    ensures { MatchBool result (MarksPlace place marks.old marks.new) (MeetsMark place marks.old) }
{
    let start = place.start as usize;
    for position in start..start + place.bits as usize {
        if marks[position] {
            return false;
        }
        marks[position] = true;
    }
    true
}
