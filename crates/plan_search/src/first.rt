//! The first best grouping.
ghost use Rattle.std.specs.Prelude.{◌≡◌, ◌+◌, ◌≤◌, ◌<◌, ℕ, length, slice_index_or, [], IfOk};
ghost use Rattle.pack_model.specs.Problem.{IsSorted, sent_by};
ghost use Rattle.class_frame.specs.Legal.{IsLegal};
ghost use Rattle.plan_search.specs.Alone.{labels_alone};
ghost use Rattle.plan_search.specs.Begin.{IsFirst, IsTimed, IsTimedIf, Turns, better_of, grouping_of_all};

use crate::alone::{numbers_below, passing_order};
use crate::together::{count_classes, put_together};
use class_frame::{class_frames, load_of_frames};
use pack_model::{Labels, Memory, Problem};
use std::alloc::Global;
use tree_search::Found;

/// A legal grouping of all items with the order of lowest-priority-first assignment, exactly where some order
/// lets each of its frames pass. The only error is want of memory.
fn timed(alloc: Global, problem: &Problem, labels: Vec<u32>) -> Result<Option<Found>, Memory>
    requires { IsLegal problem.now.items labels.items }
    ensures { IfOk result (IsTimed problem.now labels.items) }
{
    let bit = u64::from(problem.network().nominal_ticks);
    let frames = class_frames(alloc, problem, &labels, count_classes(&labels))?;
    match passing_order(alloc, &frames, bit)? {
        Some(order) => Ok(Some(Found {
            labels: Labels::of(labels),
            order: Labels::of(order),
            load: load_of_frames(&frames, problem.hyper()),
        })),
        None => Ok(None),
    }
}

/// The one of the lesser load, the first where the loads are equal.
fn better(one: Option<Found>, other: Option<Found>) -> Option<Found>
    ensures { result ≡ better_of one other }
{
    match (one, other) {
        (None, other) => other,
        (Some(one), None) => Some(one),
        (Some(one), Some(other)) => {
            if other.load < one.load {
                Some(other)
            } else {
                Some(one)
            }
        }
    }
}

/// Each item alone, with its order, exactly where some order lets each frame pass. The only error is want of
/// memory.
fn timed_alone(alloc: Global, problem: &Problem) -> Result<Option<Found>, Memory>
    ensures timed { IfOk result (IsTimed problem.now (labels_alone problem.now)) }
    ensures sorted { IfOk result (λ found. IsSorted problem.now.signals problem.now.items) }
{
    let labels = numbers_below(alloc, problem.items().len() as u32)?;
    Ok(timed(alloc, problem, labels)?)
}

/// The senders' own best groupings put together, where there is one for each of two or more, with the order,
/// exactly where some order lets each frame pass. The only error is want of memory.
fn timed_together(
    alloc: Global,
    problem: &Problem,
    groupings: &[Labels],
) -> Result<Option<Found>, Memory>
    requires { length groupings.now ≡ length problem.now.senders
        → (sender : ℕ) → sender < length problem.now.senders
        → IsLegal (sent_by problem.now.items sender) (slice_index_or groupings.now sender []) }
    ensures { IfOk result (IsTimedIf problem.now (grouping_of_all problem.now groupings.now)) }
{
    let senders = problem.senders().len();
    if senders < 2 || groupings.len() != senders {
        return Ok(None);
    }
    let labels = put_together(alloc, groupings)?;
    Ok(timed(alloc, problem, labels)?)
}

/// The first best grouping: of the senders' own best ones put together and of each item alone, those that can
/// meet all deadlines, the one of the lesser load. The only error is want of memory.
pub(crate) fn first_best(
    alloc: Global,
    problem: &Problem,
    groupings: &[Labels],
) -> Result<Option<Found>, Memory>
    requires { length groupings.now ≡ length problem.now.senders
        → (sender : ℕ) → sender < length problem.now.senders
        → IsLegal (sent_by problem.now.items sender) (slice_index_or groupings.now sender []) }
    ensures first { IfOk result (λ first. (turns : Turns) → turns.groupings ≡ groupings.now
        → IsFirst problem.now turns first) }
    ensures sorted { IfOk result (λ first. IsSorted problem.now.signals problem.now.items) }
{
    let together = timed_together(alloc, problem, groupings)?;
    let alone = timed_alone(alloc, problem)?;
    Ok(better(together, alone))
}
