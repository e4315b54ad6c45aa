ghost use Rattle.std.specs.Prelude.{ℕ, ◌≤◌, ◌<◌, ◌+◌, ◌*◌, ◌^◌, ◌↔◌, IsTrue, IfSome, IfNone};
ghost use Rattle.busy_period.specs.Stage.{AreNamed, IsStage};
ghost use Rattle.busy_period.specs.Least.{IsLeast};
ghost use Rattle.busy_period.specs.Busy.{IsFit, FrameBusy, FrameLeastBusy};

use crate::leap::leap_from;
use crate::level::{blocking, demand, work};
use crate::line::climb_start;
use crate::quick::quick_climb;
use crate::timed::Timed;

/// From which of its steps on a climb is long: each of these is a leap, and quick steps follow it. Most climbs
/// end before.
const LONG_FROM: u32 = 16;

/// In how many rounds a leap is lengthened.
const LEAP_ROUNDS: u32 = 4;

/// The most instances of a frame in a busy period that counts.
pub const MAX_INSTANCES: u64 = 256;

/// The least time from `from` to `limit` into which `base` ticks and all that the frames ask for within the
/// time and `ahead` ticks more fit; None exactly where there is none up to `limit`. It climbs from below,
/// from a start that what the frames ask for on the average gives.
pub fn least_fit(
    frames: &[Timed],
    numbers: &[u32],
    base: u64,
    ahead: u64,
    from: u64,
    limit: u64,
) -> Option<u64>
    requires named { AreNamed frames.now numbers.now }
    requires ahead { ahead ≤ 2 ^ 45 }
    requires limit { limit ≤ 2 ^ 45 }
    ensures least { IfSome result (IsLeast (IsFit frames.now numbers.now base ahead from)) }
    ensures within { IfSome result (λ time. time ≤ limit) }
    ensures none { IfNone result
        ((time : ℕ) → IsFit frames.now numbers.now base ahead from time → limit < time) }
{
    let mut time = climb_start(frames, numbers, base, ahead, from, limit)?;
    let mut steps: u32 = 0;
    while time <= limit {
        let asked = u128::from(base) + work(frames, numbers, time + ahead);
        if asked <= u128::from(time) {
            return Some(time);
        }
        if asked > u128::from(limit) {
            return None;
        }
        steps = steps.saturating_add(1);
        let rounds = if steps < LONG_FROM { 0 } else { LEAP_ROUNDS };
        let leap = leap_from(frames, numbers, time + ahead, asked as u64 - time, rounds)?;
        if leap > u128::from(limit - time) {
            return None;
        }
        time += leap as u64;
        if rounds > 0 {
            time = quick_climb(frames, numbers, base, ahead, time, limit);
        }
    }
    None
}

/// The least busy period of the frame at `place`: the least time of at least one tick after which all that
/// was asked for within it is done. None exactly where there is none within 256 instances.
pub fn least_busy(frames: &[Timed], order: &[u32], place: usize) -> Option<u64>
    requires { IsStage frames.now order.now place }
    ensures least { IfSome result (FrameLeastBusy frames.now order.now place) }
    ensures none { IfNone result ((time : ℕ) → ¬ (FrameBusy frames.now order.now place time)) }
{
    let own = frames[order[place] as usize];
    let limit = (MAX_INSTANCES * own.period).checked_sub(own.jitter)?;
    let blocked = blocking(frames, order, place);
    least_fit(frames, &order[..place + 1], blocked, 0, 1, limit)
}

/// Whether `t` is a busy period of the frame at `place` within 256 instances, not needing to be the least.
pub fn busy_holds(frames: &[Timed], order: &[u32], place: usize, t: u64) -> bool
    requires { IsStage frames.now order.now place }
    ensures { IsTrue result ↔ FrameBusy frames.now order.now place t }
{
    let own = frames[order[place] as usize];
    t >= 1
        && t <= MAX_INSTANCES * own.period
        && t + own.jitter <= MAX_INSTANCES * own.period
        && demand(frames, order, place, t) <= u128::from(t)
}
