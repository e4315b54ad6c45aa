//! Laws of the acceptance rule and of the walk over events.
ghost use Rattle.cert_check.specs.Joined.{EventTaken, FailedStays, FoundInFull, HoleTaken, HolesAimed, HolesStay, StandsInFull};
ghost use Rattle.cert_check.specs.Laws.{AcceptedHolds, SubtreeTaken};

/// What follows from the acceptance rule holds wherever it accepts.
pub fn accepted_holds()
    ensures { AcceptedHolds }
{}

/// The events of a subtree take a walk from a place to the next, and say there whether the subtree stands.
pub fn subtree_taken()
    ensures { SubtreeTaken }
{}

/// An event adds no hole to those that a walk was told.
pub fn event_taken()
    ensures { EventTaken }
{}

/// A hole that was passed over is where the walk was.
pub fn hole_taken()
    ensures { HoleTaken }
{}

/// Where the tree of some hole doesn't stand at its place, that stays so, whatever comes after.
pub fn holes_stay()
    ensures { HolesStay }
{}

/// Holes are to show what the main tree or a lemma's tree is to show, by what the walk stores.
pub fn holes_aimed()
    ensures { HolesAimed }
{}

/// Where a walk has failed, what it was told doesn't stand, whatever follows.
pub fn failed_stays()
    ensures { FailedStays }
{}

/// What was told stands in full where it stands with holes, and the tree of each hole at its place.
pub fn stands_in_full()
    ensures { StandsInFull }
{}

/// What is found of a certificate with holes, once their trees were judged, is what is found of it in full.
pub fn found_in_full()
    ensures { FoundInFull }
{}
