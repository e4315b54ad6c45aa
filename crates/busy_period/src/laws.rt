ghost use Rattle.std.specs.Prelude.{◌≡◌, ℕ, ◌≤◌, List, nat_eq};
ghost use Rattle.std.specs.List.{IsDistinct};
ghost use Rattle.busy_period.specs.declared.timed.Timed.{Timed};
ghost use Rattle.busy_period.specs.Stage.{IsSameSet};
ghost use Rattle.busy_period.specs.Demand.{blocking_of, demand_against};

/// A law: the demand at a frame's level never falls in time.
pub fn demand_never_falls()
    ensures { (frames : List Timed) (own : ℕ) (higher lower : List ℕ) (earlier later : ℕ) → earlier ≤ later
        → demand_against frames own higher lower earlier ≤ demand_against frames own higher lower later }
{}

/// A law: the demand depends on the higher frames as a set, and on the lower ones by their greatest ticks
/// alone.
pub fn demand_depends_on_sets()
    ensures { (frames : List Timed) (own : ℕ) (higher lower higher' lower' : List ℕ)
        → IsDistinct nat_eq higher → IsDistinct nat_eq higher' → IsSameSet higher higher'
        → blocking_of frames lower ≡ blocking_of frames lower'
        → (time : ℕ)
        → demand_against frames own higher lower time ≡ demand_against frames own higher' lower' time }
{}
