//! Laws of assignment.
ghost use Rattle.std.specs.Prelude.{◌≡◌, ◌≤◌, ℕ, List, All, length, take};
ghost use Rattle.busy_period.specs.declared.timed.Timed.{Timed};
ghost use Rattle.busy_period.specs.Timed.{IsInRange};
ghost use Rattle.priority_assign.specs.Lowest.{IsLowestFirst};

/// A law: frames have one order in which lowest-priority-first assignment leaves none without a place.
pub fn one_order_is_lowest_first()
    ensures { (frames : List Timed) (bit : ℕ) (order other : List ℕ) → 1 ≤ bit → All IsInRange frames
        → IsLowestFirst frames bit 0 order → IsLowestFirst frames bit 0 other → order ≡ other }
{}

/// A law: where lowest-priority-first assignment leaves frames without a place, they are always the same.
pub fn one_set_is_stuck()
    ensures { (frames : List Timed) (bit count other_count : ℕ) (order other : List ℕ) → 1 ≤ bit
        → All IsInRange frames → IsLowestFirst frames bit count order
        → IsLowestFirst frames bit other_count other → count ≤ length frames → other_count ≤ length frames
        → take count order ≡ take other_count other }
{}
