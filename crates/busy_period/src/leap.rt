ghost use Rattle.std.specs.Prelude.{ℕ, ◌≤◌, ◌<◌, ◌+◌, ◌^◌, IfSome, IfNone};
ghost use Rattle.busy_period.specs.Stage.{AreNamed};
ghost use Rattle.busy_period.specs.Busy.{IsMadeUp};

use crate::line::{PARTS, rise_after};
use crate::timed::Timed;

/// A time before which `gap` ticks are not made up for after `time`, by the frames that ask again within
/// `reach` ticks; None only where they never are. `time` and `gap` are at most 2^46.
fn made_up_after(
    frames: &[Timed],
    numbers: &[u32],
    time: u64,
    gap: u64,
    reach: u128,
) -> Option<u128>
    requires named { AreNamed frames.now numbers.now }
    requires time { time ≤ 2 ^ 46 }
    requires gap { gap ≤ 2 ^ 46 }
    ensures some { IfSome result (λ ticks. (more : ℕ)
        → IsMadeUp frames.now numbers.now time gap more → ticks ≤ more) }
    ensures none { IfNone result ((more : ℕ) → ¬ (IsMadeUp frames.now numbers.now time gap more)) }
{
    let rise = rise_after(frames, numbers, time, reach);
    let parts = u128::from(PARTS);
    let missing = u128::from(gap) * parts;
    if missing <= rise.lag {
        return Some(0);
    }
    if rise.slope >= parts {
        return None;
    }
    Some((missing - rise.lag).div_ceil(parts - rise.slope))
}

/// A time before which `gap` ticks are not made up for after `time`: `gap` itself, or what `made_up_after`
/// finds in as many rounds, each for the frames that ask again within the time that was found before.
pub(crate) fn leap_from(
    frames: &[Timed],
    numbers: &[u32],
    time: u64,
    gap: u64,
    rounds: u32,
) -> Option<u128>
    requires named { AreNamed frames.now numbers.now }
    requires time { time ≤ 2 ^ 46 }
    requires gap { gap ≤ 2 ^ 46 }
    ensures some { IfSome result (λ ticks. (more : ℕ)
        → IsMadeUp frames.now numbers.now time gap more → ticks ≤ more) }
    ensures none { IfNone result ((more : ℕ) → ¬ (IsMadeUp frames.now numbers.now time gap more)) }
    ensures gap { IfSome result (λ ticks. gap ≤ ticks) }
{
    let mut reach = u128::from(gap);
    for _ in 0..rounds {
        let longer = made_up_after(frames, numbers, time, gap, reach)?;
        if longer <= reach {
            return Some(reach);
        }
        reach = longer;
    }
    Some(reach)
}
