ghost use Rattle.std.specs.Prelude.{ℕ, ◌≤◌, ◌↔◌, IsTrue};
ghost use Rattle.busy_period.specs.Stage.{IsStage};
ghost use Rattle.response_test.specs.Queueing.{IsBit};
ghost use Rattle.response_test.specs.Frame.{FrameCanStart, FrameIsInTime, FramePasses, IsShown};

use crate::queue::{latest_start, queueing};
use busy_period::{Timed, busy_holds};

/// Whether an instance of the frame at `place` can start at `start`, and ends by its deadline then. `instance` is at
/// most 256.
fn instance_shown(
    frames: &[Timed],
    order: &[u32],
    place: usize,
    bit: u64,
    instance: u64,
    start: u64,
) -> bool
    requires stage { IsStage frames.now order.now place }
    requires bit { IsBit frames.now bit }
    requires instance { instance ≤ 256 }
    ensures { IsTrue result
        ↔ (FrameCanStart frames.now order.now place bit instance start
        × FrameIsInTime frames.now order.now place instance start) }
{
    let own = frames[order[place] as usize];
    let Some(latest) = latest_start(own, instance) else {
        return false;
    };
    start <= latest && queueing(frames, order, place, bit, instance, start) <= u128::from(start)
}

/// Whether given numbers show that the frame at `place` passes: `t` is a busy period within 256 instances, `w` has a
/// time for each instance in it, and each instance can start at its time and ends by its deadline then. It climbs
/// nowhere: neither number needs to be the least.
pub fn shown(frames: &[Timed], order: &[u32], place: usize, bit: u64, t: u64, w: &[u64]) -> bool
    requires stage { IsStage frames.now order.now place }
    requires bit { IsBit frames.now bit }
    ensures value { IsTrue result ↔ IsShown frames.now order.now place bit t w.now }
    ensures passes { IsTrue result → FramePasses frames.now order.now place bit }
{
    if !busy_holds(frames, order, place, t) {
        return false;
    }
    let own = frames[order[place] as usize];
    if w.len() as u64 != own.instances(t) {
        return false;
    }
    for (instance, &start) in w.iter().enumerate() {
        if !instance_shown(frames, order, place, bit, instance as u64, start) {
            return false;
        }
    }
    true
}
