ghost use Rattle.std.specs.Prelude.{◌≡◌, ℕ, ◌+◌, ◌<◌, ◌≤◌, ◌↔◌, List, length, All, slice_index, take};
ghost use Rattle.busy_period.specs.Timed.{IsInRange};
ghost use Rattle.response_test.specs.Queueing.{IsBit};
ghost use Rattle.response_test.specs.Order.{OrderPasses, FailSet};
ghost use Rattle.priority_assign.specs.Lowest.{IsLowestFirst, remaining_count};

use crate::in_time::once_of;
use crate::level::choose_last;
use busy_period::Timed;

/// What the assignment comes to.
#[derive(Clone, Copy, Debug, PartialEq, Eq)]
pub enum Assigned {
    /// Each frame has a place, and passes there.
    All,
    /// No order of all frames passes.
    Stuck {
        /// The number of frames without a place: the first entries of the order, ascending, which are a failing set.
        remaining: usize,
    },
}

/// Writes the numbers from 0 on.
fn number_each(order: &mut [u32])
    requires { length order.old ≤ 128 }
    ensures { (index : ℕ) → index < length order.old → slice_index order.new index ≡ index }
{
    for (index, number) in order.iter_mut().enumerate() {
        *number = index as u32;
    }
}

/// Assigns places to the frames, lowest priority first: `order` comes to be the order of the frames' numbers, from the
/// highest priority to the lowest. `bit` is the time of a nominal bit. All exactly where some order of all frames passes,
/// and `order` is one then; what it was before does not count.
pub fn assign(frames: &[Timed], bit: u64, order: &mut [u32]) -> Assigned
    requires few { length frames.now ≤ 128 }
    requires in_range { All IsInRange frames.now }
    requires bit { IsBit frames.now bit }
    requires length { length order.old ≡ length frames.now }
    ensures lowest_first { IsLowestFirst frames.now bit (remaining_count result) order.new }
    ensures solvable { (result ≡ Assigned.All) ↔ ((some : List ℕ) × OrderPasses frames.now bit some) }
    ensures passes { result ≡ Assigned.All → OrderPasses frames.now bit order.new }
    ensures stuck { (remaining : ℕ) → result ≡ Assigned.Stuck remaining → FailSet frames.now bit (take remaining order.new) }
    ensures remaining { remaining_count result ≤ length frames.now }
{
    number_each(order);
    let mut once = once_of(frames, order);
    let mut blocked = 0;
    for placed in 0..order.len() {
        let remaining = order.len() - placed;
        if choose_last(frames, bit, blocked, &mut once, &mut order[..remaining]).is_none() {
            return Assigned::Stuck { remaining };
        }
        let ticks = frames[order[remaining - 1] as usize].ticks;
        blocked = ticks.max(blocked);
        once.ticks -= ticks;
    }
    Assigned::All
}
