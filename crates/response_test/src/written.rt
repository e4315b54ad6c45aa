ghost use Rattle.std.specs.Prelude.{ℕ, ◌-◌, ◌≤◌, ◌<◌, ◌^◌, ◌↔◌, length, IsTrue, IfSome, IfNone};
ghost use Rattle.busy_period.specs.Stage.{AreNamed, IsStage, own_number, higher_of};
ghost use Rattle.busy_period.specs.Least.{IsLeast};
ghost use Rattle.busy_period.specs.Busy.{IsFit, FrameBusy};
ghost use Rattle.response_test.specs.Queueing.{IsBit};
ghost use Rattle.response_test.specs.Frame.{InstancePassesBlocked, PassesBlocked, FramePasses, FrameWorstResponse};

use crate::queue::{latest_start, least_queue};
use busy_period::{MAX_INSTANCES, Timed, blocking, least_busy, least_fit};

/// Whether an instance of a frame ends by its deadline where it starts as early as it can, against higher frames and
/// lower ones that block it for `blocked` ticks. `instance` is at most 256.
fn instance_passes(
    frames: &[Timed],
    own: u32,
    higher: &[u32],
    blocked: u64,
    bit: u64,
    instance: u64,
) -> bool
    requires own { own < length frames.now }
    requires named { AreNamed frames.now higher.now }
    requires bit { IsBit frames.now bit }
    requires blocked { blocked ≤ 100000000 }
    requires instance { instance ≤ 256 }
    ensures { IsTrue result ↔ InstancePassesBlocked frames.now own higher.now blocked bit instance }
{
    let own = frames[own as usize];
    let Some(latest) = latest_start(own, instance) else {
        return false;
    };
    let before = blocked + instance * own.ticks;
    least_fit(frames, higher, before, bit, 0, latest).is_some()
}

/// Whether the last frame of a level passes the written test: the others of the level are higher, lower ones block for
/// `blocked` ticks, and `busy` is the least busy period of the level, which is the same whichever frame is the last.
pub fn last_passes(frames: &[Timed], level: &[u32], blocked: u64, bit: u64, busy: u64) -> bool
    requires some { 0 < length level.now }
    requires named { AreNamed frames.now level.now }
    requires bit { IsBit frames.now bit }
    requires blocked { blocked ≤ 100000000 }
    requires busy { IsLeast (IsFit frames.now level.now blocked 0 1) busy }
    requires limit { busy ≤ 2 ^ 45 }
    ensures { IsTrue result
        ↔ PassesBlocked frames.now (own_number level.now (length level.now - 1))
        (higher_of level.now (length level.now - 1)) blocked bit }
{
    let last = level.len() - 1;
    let number = level[last];
    let own = frames[number as usize];
    if busy + own.jitter > MAX_INSTANCES * own.period {
        return false;
    }
    if busy + own.jitter <= own.deadline {
        return true;
    }
    for instance in 0..own.instances(busy) {
        if !instance_passes(frames, number, &level[..last], blocked, bit, instance) {
            return false;
        }
    }
    true
}

/// Whether the frame at `place` passes the written test: it has a busy period within 256 instances, and each instance in
/// it ends by its deadline.
pub fn passes(frames: &[Timed], order: &[u32], place: usize, bit: u64) -> bool
    requires stage { IsStage frames.now order.now place }
    requires bit { IsBit frames.now bit }
    ensures { IsTrue result ↔ FramePasses frames.now order.now place bit }
{
    let Some(busy) = least_busy(frames, order, place) else {
        return false;
    };
    let blocked = blocking(frames, order, place);
    last_passes(frames, &order[..place + 1], blocked, bit, busy)
}

/// The greatest response of an instance in the busy period of the frame at `place`: from its arrival to the end of its
/// sending, where it starts as early as it can. None exactly where there is no busy period within 256 instances.
pub fn worst_response(frames: &[Timed], order: &[u32], place: usize, bit: u64) -> Option<u64>
    requires stage { IsStage frames.now order.now place }
    requires bit { IsBit frames.now bit }
    ensures greatest { IfSome result (FrameWorstResponse frames.now order.now place bit) }
    ensures none { IfNone result ((time : ℕ) → ¬ (FrameBusy frames.now order.now place time)) }
{
    let busy = least_busy(frames, order, place)?;
    let own = frames[order[place] as usize];
    let count = own.instances(busy);
    let mut worst = 0;
    for instance in 0..count {
        let start = least_queue(frames, order, place, bit, instance);
        let response = own.jitter + start + own.ticks - instance * own.period;
        worst = response.max(worst);
    }
    Some(worst)
}
