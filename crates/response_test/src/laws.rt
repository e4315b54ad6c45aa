ghost use Rattle.std.specs.Prelude.{◌≡◌, ℕ, ◌<◌, ◌≤◌, ◌↔◌, List, nat_eq, All, length, map, slice_index};
ghost use Rattle.std.specs.List.{IsDistinct};
ghost use Rattle.busy_period.specs.declared.timed.Timed.{Timed};
ghost use Rattle.busy_period.specs.Timed.{IsInRange, frame_at};
ghost use Rattle.busy_period.specs.Stage.{IsSameSet};
ghost use Rattle.busy_period.specs.Harder.{IsHarder, Grows};
ghost use Rattle.busy_period.specs.Demand.{blocking_of};
ghost use Rattle.response_test.specs.Queueing.{queueing_against};
ghost use Rattle.response_test.specs.Passing.{Passes, Shown};
ghost use Rattle.response_test.specs.Frame.{PassesAgainst, FramePasses, IsShown};
ghost use Rattle.response_test.specs.Order.{FailSet, OrderPasses};

/// A law: the demand before an instance never falls in time.
pub fn queueing_never_falls()
    ensures { (frames : List Timed) (own : ℕ) (higher lower : List ℕ) (bit instance earlier later : ℕ) → earlier ≤ later
        → queueing_against frames own higher lower bit instance earlier
        ≤ queueing_against frames own higher lower bit instance later }
{}

/// A law: the demand before an instance, and with it the written test, depends on the higher frames as a set, and on
/// the lower ones by their greatest ticks alone.
pub fn test_depends_on_sets()
    ensures queueing { (frames : List Timed) (own : ℕ) (higher lower higher' lower' : List ℕ)
        → IsDistinct nat_eq higher → IsDistinct nat_eq higher' → IsSameSet higher higher'
        → blocking_of frames lower ≡ blocking_of frames lower'
        → (bit instance start : ℕ)
        → queueing_against frames own higher lower bit instance start
        ≡ queueing_against frames own higher' lower' bit instance start }
    ensures passes { (frames : List Timed) (own : ℕ) (higher lower higher' lower' : List ℕ)
        → IsDistinct nat_eq higher → IsDistinct nat_eq higher' → IsSameSet higher higher'
        → blocking_of frames lower ≡ blocking_of frames lower'
        → (bit : ℕ) → PassesAgainst frames own higher lower bit ↔ PassesAgainst frames own higher' lower' bit }
{}

/// A law: a frame passes exactly where some busy period and some starts show it, whatever its demands are.
pub fn passing_is_being_shown()
    ensures { (own : Timed) (demand : ℕ → ℕ) (queueing : ℕ → ℕ → ℕ)
        → Passes own demand queueing ↔ Shown own demand queueing }
{}

/// A law: numbers that show it imply that the frame passes.
pub fn shown_numbers_pass()
    ensures { (frames : List Timed) (order : List ℕ) (place bit busy : ℕ) (starts : List ℕ)
        → IsShown frames order place bit busy starts → FramePasses frames order place bit }
{}

/// A law: a frame that passes after it, the higher and the lower frames got harder passed before.
pub fn growth_keeps_failing()
    ensures { (frames frames' : List Timed) (own : ℕ) (higher lower higher' lower' : List ℕ) (bit : ℕ) → 1 ≤ bit
        → IsHarder (frame_at frames own) (frame_at frames' own) → Grows frames higher lower frames' higher' lower'
        → PassesAgainst frames' own higher' lower' bit → PassesAgainst frames own higher lower bit }
{}

/// A law: no order of all frames passes where some of them are a failing set.
pub fn no_order_passes_failing_set()
    ensures { (frames : List Timed) (bit : ℕ) (members order : List ℕ) → 1 ≤ bit → All IsInRange frames
        → FailSet frames bit members → ¬ (OrderPasses frames bit order) }
{}

/// A law: what is shown of frames in an order stays shown where the frames are numbered in that order.
pub fn shown_in_order_is_shown_by_number()
    ensures { (frames : List Timed) (order numbers : List ℕ) → length numbers ≡ length order
        → ((number : ℕ) → number < length numbers → slice_index numbers number ≡ number)
        → (place bit busy : ℕ) (starts : List ℕ) → place < length order
        → IsShown frames order place bit busy starts
        → IsShown (map (frame_at frames) order) numbers place bit busy starts }
{}
