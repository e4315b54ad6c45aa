ghost use Rattle.std.specs.Prelude.{◌≡◌, ℕ, ◌+◌, ◌*◌, ◌<◌, ◌≤◌, ◌^◌, IfSome, IfNone};
ghost use Rattle.busy_period.specs.Timed.{IsInRange};
ghost use Rattle.busy_period.specs.Stage.{AreNamed};
ghost use Rattle.busy_period.specs.Demand.{instances_of, work_of};
ghost use Rattle.busy_period.specs.Busy.{IsFit};

use crate::timed::Timed;

/// The parts that a tick is counted in, for shares of the bus.
pub(crate) const PARTS: u64 = 68_719_476_736;

/// A line that the work of some frames never falls below, in parts of a tick.
#[derive(Clone, Copy)]
struct Line {
    /// What it has at the time 0.
    offset: u128,
    /// By how much it rises in a tick.
    slope: u128,
}

/// A line below the work of the frames of these numbers: each frame asks for its ticks in each of its
/// periods, over the time and its jitter.
fn line_below(frames: &[Timed], numbers: &[u32]) -> Line
    requires { AreNamed frames.now numbers.now }
    ensures below { (time : ℕ)
        → result.offset + result.slope * time ≤ PARTS * work_of frames.now numbers.now time }
    ensures offset { result.offset ≤ 2 ^ 107 }
    ensures slope { result.slope ≤ 2 ^ 70 }
{
    let mut offset = 0;
    let mut slope = 0;
    for &number in numbers {
        let frame = frames[number as usize];
        let share = u128::from(frame.ticks * PARTS / frame.period);
        offset += share * u128::from(frame.jitter);
        slope += share;
    }
    Line { offset, slope }
}

/// How the work of some frames rises from a time on, at least, in parts of a tick.
#[derive(Clone, Copy)]
pub(crate) struct Rise {
    /// By how much it rises in a tick.
    pub(crate) slope: u128,
    /// How much less that is in all, since the frames wait before they ask again.
    pub(crate) lag: u128,
}

/// The ticks from `time` until a frame asks for one sending more than within `time`.
fn wait_after(frame: Timed, time: u64) -> u64
    requires range { IsInRange frame }
    requires time { time ≤ 2 ^ 46 }
    ensures until { time + frame.jitter + result ≡ instances_of frame time * frame.period }
    ensures bound { result < frame.period }
{
    frame.instances(time) * frame.period - (time + frame.jitter)
}

/// A frame's share of the bus in parts, or 0 for one that waits for `reach` ticks or more.
fn share_within(frame: Timed, wait: u64, reach: u128) -> u128
    requires { IsInRange frame }
    ensures share { result * frame.period ≤ frame.ticks * PARTS }
    ensures bound { result ≤ 2 ^ 63 }
{
    if u128::from(wait) < reach {
        u128::from(frame.ticks * PARTS / frame.period)
    } else {
        0
    }
}

/// How the work of the frames of these numbers rises from `time` on, at least: by the shares of those that
/// ask again within `reach` ticks. `time` is at most 2^46.
pub(crate) fn rise_after(frames: &[Timed], numbers: &[u32], time: u64, reach: u128) -> Rise
    requires named { AreNamed frames.now numbers.now }
    requires time { time ≤ 2 ^ 46 }
    ensures rises { (more : ℕ)
        → PARTS * work_of frames.now numbers.now time + result.slope * more
        ≤ PARTS * work_of frames.now numbers.now (time + more) + result.lag }
    ensures slope { result.slope ≤ 2 ^ 70 }
    ensures lag { result.lag ≤ 2 ^ 107 }
{
    let mut slope = 0;
    let mut lag = 0;
    for &number in numbers {
        let frame = frames[number as usize];
        let wait = wait_after(frame, time);
        let share = share_within(frame, wait, reach);
        slope += share;
        lag += share * u128::from(wait);
    }
    Rise { slope, lag }
}

/// A time from `from` on that no fit is before; None only where none is up to `limit`. It is where the line
/// below the work fits, which a whole bus never does.
pub(crate) fn climb_start(
    frames: &[Timed],
    numbers: &[u32],
    base: u64,
    ahead: u64,
    from: u64,
    limit: u64,
) -> Option<u64>
    requires named { AreNamed frames.now numbers.now }
    requires ahead { ahead ≤ 2 ^ 45 }
    ensures below { IfSome result
        (λ start. (time : ℕ) → IsFit frames.now numbers.now base ahead from time → start ≤ time) }
    ensures from { IfSome result (λ start. from ≤ start) }
    ensures none { IfNone result
        ((time : ℕ) → IsFit frames.now numbers.now base ahead from time → limit < time) }
{
    let line = line_below(frames, numbers);
    let parts = u128::from(PARTS);
    let fixed = u128::from(base) * parts + line.slope * u128::from(ahead) + line.offset;
    if line.slope >= parts {
        return if fixed == 0 { Some(from) } else { None };
    }
    let start = fixed.div_ceil(parts - line.slope);
    if start > u128::from(limit) {
        return None;
    }
    Some(from.max(start as u64))
}
