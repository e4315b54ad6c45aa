//! The evidence of a stage whose frame doesn't pass.
ghost use Rattle.std.specs.Prelude.{ℕ, ◌≡◌, ◌<◌, ◌≤◌, ◌^◌, ◌↔◌, List, IfOk, IfSome, IfNone, IsNone, IsTrue};
ghost use Rattle.busy_period.specs.Busy.{FrameBusy, FrameLeastBusy};
ghost use Rattle.busy_period.specs.Demand.{demand_of};
ghost use Rattle.busy_period.specs.Stage.{IsStage};
ghost use Rattle.busy_period.specs.declared.timed.Timed.{Timed};
ghost use Rattle.response_test.specs.declared.evidence.Evidence.{Evidence};
ghost use Rattle.response_test.specs.Chain.{IsChain, IsClimb, first_above};
ghost use Rattle.response_test.specs.Queueing.{IsBit, queueing_of};
ghost use Rattle.response_test.specs.Frame.{FrameInstancePasses, FramePasses, HasInstance};
ghost use Rattle.response_test.specs.Refuted.{IsCommon, IsEvidenceOfStage, IsFirstLate, IsLong, IsLongClimb};
ghost use Rattle.response_test.specs.Refuted.{Refuted, first_late, first_with};

use crate::chain::{MAX_TIME, level_climb, queue_climb};
use crate::evidence::Evidence;
use crate::queue::{latest_start, least_start};
use crate::refutation::is_over;
use busy_period::{MAX_INSTANCES, Timed, least_busy};
use pack_model::{Chain, Memory};
use std::alloc::Global;

/// The least time that, with `added` to it, is above `limit`. `limit` is below 2^63.
fn time_above(limit: u64, added: u64) -> u64
    requires { limit < 2 ^ 63 }
    ensures { result ≡ first_above limit added }
{
    (limit + 1).saturating_sub(added)
}

/// Whether an instance of the frame at `place` ends by its deadline where it starts as early as it can. `instance` is
/// at most 256.
fn instance_passes_at(
    frames: &[Timed],
    order: &[u32],
    place: usize,
    bit: u64,
    instance: u64,
) -> bool
    requires stage { IsStage frames.now order.now place }
    requires bit { IsBit frames.now bit }
    requires instance { instance ≤ 256 }
    ensures { IsTrue result ↔ FrameInstancePasses frames.now order.now place bit instance }
{
    let own = frames[order[place] as usize];
    let Some(latest) = latest_start(own, instance) else {
        return false;
    };
    least_start(frames, order, place, bit, instance, latest).is_some()
}

/// The number of the first instance in the busy period that doesn't pass; None where each passes.
fn first_failing(frames: &[Timed], order: &[u32], place: usize, bit: u64, busy: u64) -> Option<u64>
    requires stage { IsStage frames.now order.now place }
    requires bit { IsBit frames.now bit }
    requires busy { FrameLeastBusy frames.now order.now place busy }
    ensures late { IfSome result (IsFirstLate frames.now order.now place bit) }
    ensures passes { IfNone result (FramePasses frames.now order.now place bit) }
{
    let own = frames[order[place] as usize];
    for instance in 0..own.instances(busy) {
        if !instance_passes_at(frames, order, place, bit, instance) {
            return Some(instance);
        }
    }
    None
}

/// Times that climb past 256 instances, where no busy period is within them.
fn long_chain(alloc: Global, frames: &[Timed], order: &[u32], place: usize) -> Result<Chain, Memory>
    requires stage { IsStage frames.now order.now place }
    requires none { (time : ℕ) → ¬ (FrameBusy frames.now order.now place time) }
    ensures climb { IfOk result (IsLongClimb frames.now order.now place) }
    ensures long { IfOk result (IsLong frames.now order.now place) }
{
    let own = frames[order[place] as usize];
    let until = time_above(MAX_INSTANCES * own.period, own.jitter);
    level_climb(alloc, frames, order, place, until, until)
}

/// Times that climb to where an instance of the busy period is in it.
fn busy_chain(
    alloc: Global,
    frames: &[Timed],
    order: &[u32],
    place: usize,
    instance: u64,
) -> Result<Chain, Memory>
    requires stage { IsStage frames.now order.now place }
    requires inside { HasInstance frames.now order.now place instance }
    ensures climb { IfOk result
        (IsClimb (demand_of frames.now order.now place) 1 (first_with frames.now order.now place instance)) }
    ensures chain { IfOk result (IsChain (demand_of frames.now order.now place) 1) }
{
    let own = frames[order[place] as usize];
    let until = time_above(instance * own.period, own.jitter);
    level_climb(alloc, frames, order, place, until, MAX_TIME)
}

/// Times that climb to where it is too late to start for the first instance that doesn't pass.
fn queue_chain(
    alloc: Global,
    frames: &[Timed],
    order: &[u32],
    place: usize,
    bit: u64,
    instance: u64,
) -> Result<Chain, Memory>
    requires stage { IsStage frames.now order.now place }
    requires bit { IsBit frames.now bit }
    requires late { IsFirstLate frames.now order.now place bit instance }
    ensures climb { IfOk result
        (IsClimb (queueing_of frames.now order.now place bit instance) 0
        (first_late frames.now order.now place instance)) }
    ensures chain { IfOk result (IsChain (queueing_of frames.now order.now place bit instance) 0) }
{
    let own = frames[order[place] as usize];
    let until = time_above(own.deadline + instance * own.period, own.jitter + own.ticks);
    queue_climb(alloc, frames, order, place, bit, instance, until)
}

/// Why the frame at `place` doesn't pass the written test, None exactly where it passes: `Over` where the bus is
/// over-full, else `Long` where no busy period is within 256 instances, else `Late` with the first instance that doesn't
/// pass, with climbs by the demands as far as need be. `hyper` is a multiple of each period, from 1 to 10^15.
pub fn evidence_of(
    alloc: Global,
    frames: &[Timed],
    order: &[u32],
    place: usize,
    bit: u64,
    hyper: u64,
) -> Result<Option<Evidence>, Memory>
    requires stage { IsStage frames.now order.now place }
    requires bit { IsBit frames.now bit }
    requires hyper { IsCommon frames.now hyper }
    ensures none { IfOk result (λ found. IsNone found ↔ FramePasses frames.now order.now place bit) }
    ensures evidence { IfOk result (λ found.
        IfSome found (IsEvidenceOfStage frames.now order.now place bit hyper)) }
    ensures refuted { IfOk result (λ found. IfSome found (Refuted frames.now order.now place bit hyper)) }
{
    if is_over(frames, order, place, hyper) {
        return Ok(Some(Evidence::Over));
    }
    let Some(busy) = least_busy(frames, order, place) else {
        let chain = long_chain(alloc, frames, order, place)?;
        return Ok(Some(Evidence::Long(chain)));
    };
    let Some(q) = first_failing(frames, order, place, bit, busy) else {
        return Ok(None);
    };
    let busy = busy_chain(alloc, frames, order, place, q)?;
    let queue = queue_chain(alloc, frames, order, place, bit, q)?;
    Ok(Some(Evidence::Late { q, busy, queue }))
}

/// A law: a stage has one evidence.
pub fn stage_has_one_evidence()
    ensures { (frames : List Timed) (order : List ℕ) (place bit hyper : ℕ) (one other : Evidence)
        → IsEvidenceOfStage frames order place bit hyper one
        → IsEvidenceOfStage frames order place bit hyper other → one ≡ other }
{}
