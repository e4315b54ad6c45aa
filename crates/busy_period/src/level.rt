ghost use Rattle.std.specs.Prelude.{◌≡◌, ◌<◌, ◌≤◌, ◌^◌};
ghost use Rattle.busy_period.specs.Stage.{AreNamed, IsStage, lower_of};
ghost use Rattle.busy_period.specs.Demand.{work_of, blocking_of, demand_of};

use crate::timed::Timed;

/// The most ticks that the frames of these numbers ask for within `time` ticks: for each, its instances times
/// its ticks. `time` is at most 2^46.
pub fn work(frames: &[Timed], numbers: &[u32], time: u64) -> u128
    requires named { AreNamed frames.now numbers.now }
    requires time { time ≤ 2 ^ 46 }
    ensures value { result ≡ work_of frames.now numbers.now time }
    ensures bound { result < 2 ^ 81 }
{
    let mut total = 0;
    for &number in numbers {
        let frame = frames[number as usize];
        total += u128::from(frame.instances(time)) * u128::from(frame.ticks);
    }
    total
}

/// The greatest ticks of the frames of these numbers, 0 where there is none.
fn greatest_ticks(frames: &[Timed], numbers: &[u32]) -> u64
    requires { AreNamed frames.now numbers.now }
    ensures value { result ≡ blocking_of frames.now numbers.now }
    ensures bound { result ≤ 100000000 }
{
    let mut greatest = 0;
    for &number in numbers {
        greatest = frames[number as usize].ticks.max(greatest);
    }
    greatest
}

/// The greatest ticks of a frame below `place`, 0 where there is none: the longest that the frame at `place`
/// waits for a lower one that is on the bus already.
pub fn blocking(frames: &[Timed], order: &[u32], place: usize) -> u64
    requires { IsStage frames.now order.now place }
    ensures value { result ≡ blocking_of frames.now (lower_of order.now place) }
    ensures bound { result ≤ 100000000 }
{
    greatest_ticks(frames, &order[place + 1..])
}

/// The demand at the level of the frame at `place` within `t` ticks: the greatest ticks of a lower frame, and
/// what it and the higher frames ask for. `t` is at most 2^45.
pub fn demand(frames: &[Timed], order: &[u32], place: usize, t: u64) -> u128
    requires stage { IsStage frames.now order.now place }
    requires time { t ≤ 2 ^ 45 }
    ensures { result ≡ demand_of frames.now order.now place t }
{
    u128::from(blocking(frames, order, place)) + work(frames, &order[..place + 1], t)
}
