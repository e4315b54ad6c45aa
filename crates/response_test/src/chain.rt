//! Chains of times: judged as given, and built by a climb.
ghost use Rattle.std.specs.Prelude.{◌≡◌, ℕ, ◌+◌, ◌*◌, ◌≤◌, ◌^◌, IfOk, min};
ghost use Rattle.std.specs.Option.{SomeIff};
ghost use Rattle.busy_period.specs.Busy.{IsBusy, IsFit};
ghost use Rattle.busy_period.specs.Demand.{blocking_of, demand_of, work_of};
ghost use Rattle.busy_period.specs.Stage.{AreNamed, IsStage, lower_of, own_of};
ghost use Rattle.response_test.specs.Chain.{IsChain, IsClimb, last_of};
ghost use Rattle.response_test.specs.Frame.{FrameCanStart};
ghost use Rattle.response_test.specs.Queueing.{IsBit, queueing_of};

use busy_period::{Timed, blocking, work};
use pack_model::{Chain, Memory};
use std::alloc::Global;

/// The greatest time that a chain may have, in ticks.
pub(crate) const MAX_TIME: u64 = 1 << 45;

/// What comes before an instance of the frame at `place` besides higher frames: `blocked`, the blocking by lower ones, and
/// the frame's instances before it. `instance` is at most 2^45.
pub(crate) fn base_of(
    frames: &[Timed],
    order: &[u32],
    place: usize,
    blocked: u64,
    instance: u64,
) -> u128
    requires stage { IsStage frames.now order.now place }
    requires blocked { blocked ≡ blocking_of frames.now (lower_of order.now place) }
    requires instance { instance ≤ 2 ^ 45 }
    ensures value { result
        ≡ blocking_of frames.now (lower_of order.now place) + instance * (own_of frames.now order.now place).ticks }
    ensures bound { result ≤ 2 ^ 80 }
{
    let own = frames[order[place] as usize];
    u128::from(blocked) + u128::from(instance) * u128::from(own.ticks)
}

/// The last of `times`, where they are a chain from `first` by `base` and what the frames of these numbers ask for up
/// to `ahead` ticks later; else None. `ahead` is at most 2^45, `base` at most 2^80.
fn end_of_chain(
    frames: &[Timed],
    numbers: &[u32],
    base: u128,
    ahead: u64,
    first: u64,
    times: &[u64],
) -> Option<u64>
    requires named { AreNamed frames.now numbers.now }
    requires base { base ≤ 2 ^ 80 }
    requires ahead { ahead ≤ 2 ^ 45 }
    requires first { first ≤ 2 ^ 45 }
    ensures { SomeIff result
        (IsChain (λ time. base + work_of frames.now numbers.now (time + ahead)) first times.now)
        (last_of times.now) }
{
    if times.is_empty() || times[0] != first {
        return None;
    }
    for k in 1..times.len() {
        let asked = base + work(frames, numbers, times[k - 1] + ahead);
        if times[k] > MAX_TIME || u128::from(times[k]) > asked {
            return None;
        }
    }
    Some(times[times.len() - 1])
}

/// The last of `times`, where they are a chain from 1 by the demand at the level of the frame at `place`, which lower ones
/// block for `blocked` ticks; else None.
pub(crate) fn end_of_level_chain(
    frames: &[Timed],
    order: &[u32],
    place: usize,
    blocked: u64,
    times: &[u64],
) -> Option<u64>
    requires stage { IsStage frames.now order.now place }
    requires blocked { blocked ≡ blocking_of frames.now (lower_of order.now place) }
    ensures { SomeIff result (IsChain (demand_of frames.now order.now place) 1 times.now) (last_of times.now) }
{
    let base = base_of(frames, order, place, blocked, 0);
    end_of_chain(frames, &order[..place + 1], base, 0, 1, times)
}

/// The last of `times`, where they are a chain from 0 by the demand before an instance of the frame at `place`, which
/// lower ones block for `blocked` ticks; else None. `instance` is at most 2^45.
pub(crate) fn end_of_queue_chain(
    frames: &[Timed],
    order: &[u32],
    place: usize,
    blocked: u64,
    bit: u64,
    instance: u64,
    times: &[u64],
) -> Option<u64>
    requires stage { IsStage frames.now order.now place }
    requires blocked { blocked ≡ blocking_of frames.now (lower_of order.now place) }
    requires bit { IsBit frames.now bit }
    requires instance { instance ≤ 2 ^ 45 }
    ensures { SomeIff result
        (IsChain (queueing_of frames.now order.now place bit instance) 0 times.now)
        (last_of times.now) }
{
    let base = base_of(frames, order, place, blocked, instance);
    end_of_chain(frames, &order[..place], base, bit, 0, times)
}

/// The climb from `first` up to `until` by `base` and what the frames of these numbers ask for up to `ahead` ticks
/// later, no time above `cap`. Nothing before `until` is a solution. `cap` is at least `until`.
fn climb(
    alloc: Global,
    frames: &[Timed],
    numbers: &[u32],
    base: u128,
    ahead: u64,
    first: u64,
    until: u64,
    cap: u64,
) -> Result<Chain, Memory>
    requires named { AreNamed frames.now numbers.now }
    requires base { base ≤ 2 ^ 80 }
    requires ahead { ahead ≤ 2 ^ 45 }
    requires cap { cap ≤ 2 ^ 45 }
    requires until { until ≤ cap }
    requires none { (time : ℕ) → IsFit frames.now numbers.now base ahead first time → until ≤ time }
    ensures { IfOk result
        (IsClimb (λ time. min (base + work_of frames.now numbers.now (time + ahead)) cap) first until) }
{
    let mut times = Vec::new(alloc);
    let mut time = first;
    times.push(time)?;
    while time < until {
        let asked = base + work(frames, numbers, time + ahead);
        time = asked.min(u128::from(cap)) as u64;
        times.push(time)?;
    }
    Ok(Chain::of(times))
}

/// The climb from 1 up to `until` by the demand at the level of the frame at `place`, no time above `cap`. Nothing
/// before `until` is busy. `cap` is at least `until`, and at most 2^45.
pub(crate) fn level_climb(
    alloc: Global,
    frames: &[Timed],
    order: &[u32],
    place: usize,
    until: u64,
    cap: u64,
) -> Result<Chain, Memory>
    requires stage { IsStage frames.now order.now place }
    requires cap { cap ≤ 2 ^ 45 }
    requires until { until ≤ cap }
    requires none { (time : ℕ) → IsBusy (demand_of frames.now order.now place) time → until ≤ time }
    ensures { IfOk result (IsClimb (λ time. min (demand_of frames.now order.now place time) cap) 1 until) }
{
    let blocked = blocking(frames, order, place);
    let base = base_of(frames, order, place, blocked, 0);
    climb(alloc, frames, &order[..place + 1], base, 0, 1, until, cap)
}

/// The climb from 0 up to `until` by the demand before an instance of the frame at `place`, no time above 2^45. The
/// instance can't start before `until`. Both are at most 2^45.
pub(crate) fn queue_climb(
    alloc: Global,
    frames: &[Timed],
    order: &[u32],
    place: usize,
    bit: u64,
    instance: u64,
    until: u64,
) -> Result<Chain, Memory>
    requires stage { IsStage frames.now order.now place }
    requires bit { IsBit frames.now bit }
    requires instance { instance ≤ 2 ^ 45 }
    requires until { until ≤ 2 ^ 45 }
    requires none { (time : ℕ) → FrameCanStart frames.now order.now place bit instance time → until ≤ time }
    ensures { IfOk result
        (IsClimb (λ time. min (queueing_of frames.now order.now place bit instance time) (2 ^ 45)) 0 until) }
{
    let blocked = blocking(frames, order, place);
    let base = base_of(frames, order, place, blocked, instance);
    climb(
        alloc,
        frames,
        &order[..place],
        base,
        bit,
        0,
        until,
        MAX_TIME,
    )
}
