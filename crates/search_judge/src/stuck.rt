//! Whether the classes so far can all pass: lowest-priority-first assignment, and evidence where it is stuck.
ghost use Rattle.std.specs.Prelude.{ℕ, ◌≡◌, ◌+◌, ◌-◌, ◌<◌, ◌≤◌, ◌++◌, ◌∷◌, List, All, Contains, length, take, IfOk, IfSome, IfNone};
ghost use Rattle.std.specs.List.Sorted.{IsStrictlyIncreasing};
ghost use Rattle.busy_period.specs.Timed.{IsInRange};
ghost use Rattle.response_test.specs.Order.{FailSet, OrderPasses, others_of, remaining_of};
ghost use Rattle.response_test.specs.Queueing.{IsBit};
ghost use Rattle.response_test.specs.Refuted.{IsCommon, IsEvidenceOfStage};
ghost use Rattle.priority_assign.specs.Lowest.{IsLowestFirst, remaining_count};
ghost use Rattle.bandwidth_bound.specs.Failing.{numbers_of, order_below as order_of_member};
ghost use Rattle.search_judge.specs.Findings.{NamesStuck};
ghost use Rattle.search_judge.specs.Stuck.{AreStuck, HasEvidence};

use bandwidth_bound::{order_below, remaining};
use busy_period::Timed;
use cert_text::Refuted;
use pack_model::Memory;
use priority_assign::{Assigned, assign};
use response_test::{Evidence, evidence_of};
use std::alloc::Global;

// The evidence against a frame that is stuck, below the other such frames and above all remaining ones.
fn evidence_against(
    alloc: Global,
    frames: &[Timed],
    bit: u64,
    hyper: u64,
    members: &[u32],
    rest: &[u32],
    own: u32,
) -> Result<Evidence, Memory>
    requires stuck { AreStuck frames.now bit members.now }
    requires hyper { IsCommon frames.now hyper }
    requires rest { rest.now ≡ remaining_of frames.now members.now }
    requires member { Contains members.now own }
    ensures { IfOk result (λ evidence. HasEvidence frames.now bit hyper members.now (record { 0 = own; 1 = evidence })) }
{
    let order = order_below(members, own, rest);
    let place = order.len() - rest.len() - 1;
    match evidence_of(alloc, frames, order.as_slice(), place, bit, hyper)? {
        Some(evidence) => Ok(evidence),
        None => unreachable!(),
    }
}

// The evidence against each of the frames that are stuck.
fn refute_each(
    alloc: Global,
    frames: &[Timed],
    bit: u64,
    hyper: u64,
    members: &[u32],
) -> Result<Refuted, Memory>
    requires stuck { AreStuck frames.now bit members.now }
    requires hyper { IsCommon frames.now hyper }
    ensures members { IfOk result (λ named. numbers_of named ≡ members.now) }
    ensures evidence { IfOk result (All (HasEvidence frames.now bit hyper members.now)) }
{
    let rest = remaining(frames, members);
    let mut named = Vec::with_capacity(alloc, members.len())?;
    for own in members {
        let evidence = evidence_against(alloc, frames, bit, hyper, members, rest.as_slice(), *own)?;
        named.push((*own, evidence))?;
    }
    Ok(Refuted::of(named))
}

// Assigns places to frames, the lowest first, in the first entries of `order`: how many are left without one,
// which come first then.
fn assign_places(frames: &[Timed], bit: u64, order: &mut [u32]) -> usize
    requires few { length frames.now ≤ 128 }
    requires in_range { All IsInRange frames.now }
    requires bit { IsBit frames.now bit }
    requires room { length frames.now ≤ length order.old }
    ensures lowest_first { IsLowestFirst frames.now bit result (take (length frames.now) order.new) }
    ensures passes { result ≡ 0 → OrderPasses frames.now bit (take (length frames.now) order.new) }
    ensures stuck { 0 < result
        → FailSet frames.now bit (take result (take (length frames.now) order.new)) }
    ensures within { result ≤ length frames.now }
{
    match assign(frames, bit, &mut order[..frames.len()]) {
        Assigned::All => 0,
        Assigned::Stuck { remaining } => remaining,
    }
}

/// Assigns places to frames, the lowest first, in the first entries of `order`, and finds the evidence against
/// those that are stuck; none where each has a place, and passes there. `bit` is the time of a nominal bit,
/// `hyper` a common period of the frames, in ticks. The only error is want of memory.
pub(crate) fn find_stuck(
    alloc: Global,
    frames: &[Timed],
    bit: u64,
    hyper: u64,
    order: &mut [u32],
) -> Result<Option<Refuted>, Memory>
    requires few { length frames.now ≤ 128 }
    requires in_range { All IsInRange frames.now }
    requires bit { IsBit frames.now bit }
    requires hyper { IsCommon frames.now hyper }
    requires room { length frames.now ≤ length order.old }
    ensures stuck { IfOk result (λ found. IfSome found (NamesStuck frames.now bit hyper)) }
    ensures passes { IfOk result (λ found. IfNone found
        (OrderPasses frames.now bit (take (length frames.now) order.new))) }
    ensures lowest_first { IfOk result (λ found. IfNone found
        (IsLowestFirst frames.now bit 0 (take (length frames.now) order.new))) }
{
    let count = assign_places(frames, bit, order);
    if count == 0 {
        return Ok(None);
    }
    let placed = &order[..frames.len()];
    let refuted = refute_each(alloc, frames, bit, hyper, &placed[..count])?;
    Ok(Some(refuted))
}
