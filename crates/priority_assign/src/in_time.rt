ghost use Rattle.std.specs.Prelude.{ℕ, ◌<◌, ◌≤◌, ◌^◌, length, IfSome, IfNone};
ghost use Rattle.busy_period.specs.Stage.{AreNamed};
ghost use Rattle.priority_assign.specs.Once.{IsOnce, EndsInTime, IsLastInTime};

use crate::once::Once;
use busy_period::Timed;

/// What the frames of these numbers ask for; no busy period is known.
pub(crate) fn once_of(frames: &[Timed], numbers: &[u32]) -> Once
    requires { AreNamed frames.now numbers.now }
    ensures { IsOnce frames.now numbers.now 0 result }
{
    let mut ticks = 0;
    let mut window = u64::MAX;
    for &number in numbers {
        let frame = frames[number as usize];
        ticks += frame.ticks;
        window = window.min(frame.period.saturating_sub(frame.jitter));
    }
    Once {
        ticks,
        window,
        busy: None,
    }
}

/// The last frame of a level that ends by its deadline where it ends `busy` ticks, at most 2^46, after
/// the level's busy period began. None exactly where none does.
pub(crate) fn last_in_time(frames: &[Timed], level: &[u32], busy: u64) -> Option<usize>
    requires named { AreNamed frames.now level.now }
    requires busy { busy ≤ 2 ^ 46 }
    ensures last { IfSome result (IsLastInTime frames.now level.now busy) }
    ensures none { IfNone result ((index : ℕ) → index < length level.now
        → ¬ (EndsInTime frames.now level.now busy index)) }
{
    for index in (0..level.len()).rev() {
        let frame = frames[level[index] as usize];
        if frame.jitter + busy <= frame.deadline {
            return Some(index);
        }
    }
    None
}
