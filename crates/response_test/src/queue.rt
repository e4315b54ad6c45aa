ghost use Rattle.std.specs.Prelude.{◌≡◌, ℕ, ◌+◌, ◌-◌, ◌*◌, ◌<◌, ◌≤◌, ◌^◌, IfSome, IfNone};
ghost use Rattle.std.specs.Option.{SomeIff};
ghost use Rattle.busy_period.specs.Stage.{IsStage, own_of, lower_of};
ghost use Rattle.busy_period.specs.Timed.{IsInRange};
ghost use Rattle.busy_period.specs.Demand.{blocking_of};
ghost use Rattle.busy_period.specs.Busy.{FrameLeastBusy};
ghost use Rattle.response_test.specs.Queueing.{IsBit, queueing_of};
ghost use Rattle.response_test.specs.Frame.{FrameCanStart, FrameLeastStart, FrameIsInTime, FramePasses, HasInstance};

use busy_period::{MAX_INSTANCES, Timed, blocking, least_fit, work};

/// What comes before an instance of the frame at `place` besides higher frames: blocking, and the frame's instances
/// before it. `instance` is at most 256.
fn before(frames: &[Timed], order: &[u32], place: usize, instance: u64) -> u64
    requires stage { IsStage frames.now order.now place }
    requires instance { instance ≤ 256 }
    ensures { result
        ≡ blocking_of frames.now (lower_of order.now place) + instance * (own_of frames.now order.now place).ticks }
{
    let own = frames[order[place] as usize];
    blocking(frames, order, place) + instance * own.ticks
}

/// The demand before an instance of the frame at `place` starts at `start`. `instance` is at most 256, `start` at most
/// 2^45.
pub(crate) fn queueing(
    frames: &[Timed],
    order: &[u32],
    place: usize,
    bit: u64,
    instance: u64,
    start: u64,
) -> u128
    requires stage { IsStage frames.now order.now place }
    requires bit { IsBit frames.now bit }
    requires instance { instance ≤ 256 }
    requires start { start ≤ 2 ^ 45 }
    ensures { result ≡ queueing_of frames.now order.now place bit instance start }
{
    u128::from(before(frames, order, place, instance)) + work(frames, &order[..place], start + bit)
}

/// The least time up to `limit` at which an instance of the frame at `place` can start, None exactly where there is
/// none. `instance` is at most 256, `limit` at most 2^45.
pub(crate) fn least_start(
    frames: &[Timed],
    order: &[u32],
    place: usize,
    bit: u64,
    instance: u64,
    limit: u64,
) -> Option<u64>
    requires stage { IsStage frames.now order.now place }
    requires bit { IsBit frames.now bit }
    requires instance { instance ≤ 256 }
    requires limit { limit ≤ 2 ^ 45 }
    ensures least { IfSome result (FrameLeastStart frames.now order.now place bit instance) }
    ensures within { IfSome result (λ start. start ≤ limit) }
    ensures none { IfNone result
        ((start : ℕ) → FrameCanStart frames.now order.now place bit instance start → limit < start) }
{
    let before = before(frames, order, place, instance);
    least_fit(frames, &order[..place], before, bit, 0, limit)
}

/// The latest time of the busy period at which an instance can start and still end by its deadline, None where there is
/// none. `instance` is at most 256.
pub(crate) fn latest_start(own: Timed, instance: u64) -> Option<u64>
    requires range { IsInRange own }
    requires instance { instance ≤ 256 }
    ensures { SomeIff result (own.jitter + own.ticks ≤ own.deadline + instance * own.period)
        (own.deadline + instance * own.period - (own.jitter + own.ticks)) }
{
    (own.deadline + instance * own.period).checked_sub(own.jitter + own.ticks)
}

/// The least time at which an instance of the frame at `place` can start, counted from the start of its busy period.
/// The frame has a busy period within 256 instances, and the instance is in it.
pub fn least_queue(frames: &[Timed], order: &[u32], place: usize, bit: u64, q: u64) -> u64
    requires stage { IsStage frames.now order.now place }
    requires bit { IsBit frames.now bit }
    requires instance { HasInstance frames.now order.now place q }
    ensures least { FrameLeastStart frames.now order.now place bit q result }
    ensures within { (busy : ℕ) → FrameLeastBusy frames.now order.now place busy
        → result + (own_of frames.now order.now place).ticks ≤ busy }
    ensures in_time { FramePasses frames.now order.now place bit → FrameIsInTime frames.now order.now place q result }
{
    let own = frames[order[place] as usize];
    least_start(frames, order, place, bit, q, MAX_INSTANCES * own.period).unwrap()
}
