//! Whether evidence stands, by its numbers alone.
ghost use Rattle.std.specs.Prelude.{◌≡◌, ◌↔◌, ℕ, IsTrue, List};
ghost use Rattle.busy_period.specs.Stage.{AreNamed, IsStage, lower_of};
ghost use Rattle.busy_period.specs.Demand.{blocking_of};
ghost use Rattle.busy_period.specs.declared.timed.Timed.{Timed};
ghost use Rattle.response_test.specs.Queueing.{IsBit};
ghost use Rattle.response_test.specs.Frame.{FramePasses};
ghost use Rattle.response_test.specs.declared.evidence.Evidence.{Evidence};
ghost use Rattle.response_test.specs.Refuted.{IsCommon, IsOver, IsLong, IsLate, Refuted, sent_of};

use crate::chain::{MAX_TIME, end_of_level_chain, end_of_queue_chain};
use crate::evidence::Evidence;
use busy_period::{MAX_INSTANCES, Timed, blocking};

/// The ticks that the frames of these numbers send within a common period of `hyper` ticks.
fn sent(frames: &[Timed], numbers: &[u32], hyper: u64) -> u128
    requires named { AreNamed frames.now numbers.now }
    requires hyper { IsCommon frames.now hyper }
    ensures { result ≡ sent_of frames.now numbers.now hyper }
{
    let mut total = 0;
    for &number in numbers {
        let frame = frames[number as usize];
        total += u128::from(frame.ticks) * u128::from(hyper / frame.period);
    }
    total
}

/// Whether the frame at `place` and the higher ones ask for more than the whole bus.
pub(crate) fn is_over(frames: &[Timed], order: &[u32], place: usize, hyper: u64) -> bool
    requires stage { IsStage frames.now order.now place }
    requires hyper { IsCommon frames.now hyper }
    ensures { IsTrue result ↔ IsOver frames.now order.now place hyper }
{
    sent(frames, &order[..place + 1], hyper) > u128::from(hyper)
}

/// Whether `chain` climbs past the limit of 256 instances.
fn is_long(frames: &[Timed], order: &[u32], place: usize, blocked: u64, chain: &[u64]) -> bool
    requires stage { IsStage frames.now order.now place }
    requires blocked { blocked ≡ blocking_of frames.now (lower_of order.now place) }
    ensures { IsTrue result ↔ IsLong frames.now order.now place chain.now }
{
    let own = frames[order[place] as usize];
    let Some(last) = end_of_level_chain(frames, order, place, blocked, chain) else {
        return false;
    };
    last + own.jitter > MAX_INSTANCES * own.period
}

/// Whether `busy` climbs to where an instance is in the busy period, and `queue` to where it is too late for it to
/// start.
fn is_late(
    frames: &[Timed],
    order: &[u32],
    place: usize,
    blocked: u64,
    bit: u64,
    instance: u64,
    busy: &[u64],
    queue: &[u64],
) -> bool
    requires stage { IsStage frames.now order.now place }
    requires blocked { blocked ≡ blocking_of frames.now (lower_of order.now place) }
    requires bit { IsBit frames.now bit }
    ensures { IsTrue result ↔ IsLate frames.now order.now place bit instance busy.now queue.now }
{
    if instance > MAX_TIME {
        return false;
    }
    let own = frames[order[place] as usize];
    let arrival = u128::from(instance) * u128::from(own.period);
    let Some(time) = end_of_level_chain(frames, order, place, blocked, busy) else {
        return false;
    };
    let Some(start) = end_of_queue_chain(frames, order, place, blocked, bit, instance, queue) else {
        return false;
    };
    u128::from(time + own.jitter) > arrival
        && u128::from(own.jitter + start + own.ticks) > u128::from(own.deadline) + arrival
}

/// Whether the frame at `place`, which lower ones block for `blocked` ticks, is refuted by the evidence: it reads the
/// numbers, and searches nothing. `hyper` is a
/// multiple of each period, from 1 to 10^15. A chain begins with 1 for the frame's level and with 0 for the instance's
/// start, and each further time is at most the demand at the one before. A number of an instance or a time above 2^45
/// makes the answer false.
pub fn refuted_blocked(
    frames: &[Timed],
    order: &[u32],
    place: usize,
    blocked: u64,
    bit: u64,
    hyper: u64,
    evidence: &Evidence,
) -> bool
    requires stage { IsStage frames.now order.now place }
    requires blocked { blocked ≡ blocking_of frames.now (lower_of order.now place) }
    requires bit { IsBit frames.now bit }
    requires hyper { IsCommon frames.now hyper }
    ensures value { IsTrue result ↔ Refuted frames.now order.now place bit hyper evidence.now }
    ensures fails { IsTrue result → ¬ (FramePasses frames.now order.now place bit) }
{
    match evidence {
        Evidence::Over => is_over(frames, order, place, hyper),
        Evidence::Long(chain) => is_long(frames, order, place, blocked, chain.as_slice()),
        Evidence::Late { q, busy, queue } => is_late(
            frames,
            order,
            place,
            blocked,
            bit,
            *q,
            busy.as_slice(),
            queue.as_slice(),
        ),
    }
}

/// Whether the frame at `place` is refuted by the evidence: it reads the numbers, and searches nothing. `hyper` is a
/// multiple of each period, from 1 to 10^15. A chain begins with 1 for the frame's level and with 0 for the instance's
/// start, and each further time is at most the demand at the one before. A number of an instance or a time above 2^45
/// makes the answer false.
pub fn refuted(
    frames: &[Timed],
    order: &[u32],
    place: usize,
    bit: u64,
    hyper: u64,
    evidence: &Evidence,
) -> bool
    requires stage { IsStage frames.now order.now place }
    requires bit { IsBit frames.now bit }
    requires hyper { IsCommon frames.now hyper }
    ensures value { IsTrue result ↔ Refuted frames.now order.now place bit hyper evidence.now }
    ensures fails { IsTrue result → ¬ (FramePasses frames.now order.now place bit) }
{
    let blocked = blocking(frames, order, place);
    refuted_blocked(frames, order, place, blocked, bit, hyper, evidence)
}

/// A law: evidence that stands denies that the frame passes.
pub fn evidence_denies_passing()
    ensures { (frames : List Timed) (order : List ℕ) (place bit hyper : ℕ) (evidence : Evidence)
        → IsStage frames order place → IsCommon frames hyper
        → Refuted frames order place bit hyper evidence → ¬ (FramePasses frames order place bit) }
{}
