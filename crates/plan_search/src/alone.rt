//! Each item in a frame of its own.
ghost use Rattle.std.specs.Prelude.{◌≡◌, ◌≤◌, ◌<◌, ℕ, List, All, IfNone, IfOk, IfSome, length};
ghost use Rattle.std.specs.List.{range_with_len};
ghost use Rattle.busy_period.specs.Stage.{IsStage};
ghost use Rattle.busy_period.specs.Timed.{IsInRange};
ghost use Rattle.response_test.specs.Order.{OrderPasses};
ghost use Rattle.response_test.specs.Queueing.{IsBit};
ghost use Rattle.priority_assign.specs.Lowest.{IsLowestFirst};
ghost use Rattle.cert_text.specs.Written.{CertFits};
ghost use Rattle.bandwidth_bound.specs.Rule.{Accepts};
ghost use Rattle.plan_search.specs.Alone.{
  IsPlanAlone,
  cert_alone,
  frames_alone,
  judged_alone,
  labels_alone,
  load_alone,
  timed_parts,
  verdict_alone,
};

use crate::lines::least_lines;
use busy_period::Timed;
use cert_text::{Cert, FrameLine, Kind};
use class_frame::{class_frames, load_of_frames};
use matrix_text::{Matrix, matrix_of, one_frame_each};
use pack_model::{Memory, Problem};
use priority_assign::{Assigned, assign};
use std::alloc::{AllocError, Global};

/// The plan in which each item has a frame of its own.
#[derive(Debug, Drop)]
pub enum Alone {
    /// Each frame passes the response-time test: the matrix, and the certificate of the kind `timed` that
    /// shows it.
    InTime(Matrix, Cert),
    /// No order has each frame pass: the matrix by item.
    Untimed(Matrix),
}

/// The numbers below a count, ascending.
pub(crate) fn numbers_below(alloc: Global, count: u32) -> Result<Vec<u32>, AllocError>
    ensures { IfOk result (λ numbers. numbers.items ≡ range_with_len 0 count) }
{
    (0..count).collect(alloc)
}

/// The certificate of the kind `timed` with these lines.
fn timed_cert(alloc: Global, lines: Vec<FrameLine>) -> Cert
    ensures { result ≡ timed_parts lines.items }
{
    Cert::of(Kind::KindTimed, lines, Vec::new(alloc), None)
}

/// The order of lowest-priority-first assignment, none exactly where no order has each frame pass. `bit` is
/// the time of a nominal bit in ticks. The only error is want of memory.
pub(crate) fn passing_order(
    alloc: Global,
    frames: &[Timed],
    bit: u64,
) -> Result<Option<Vec<u32>>, Memory>
    requires few { length frames.now ≤ 128 }
    requires in_range { All IsInRange frames.now }
    requires bit { IsBit frames.now bit }
    ensures lowest_first { IfOk result (λ found. IfSome found
        (λ order. IsLowestFirst frames.now bit 0 order.items)) }
    ensures passes { IfOk result (λ found. IfSome found (λ order. OrderPasses frames.now bit order.items)) }
    ensures none { IfOk result (λ found. IfNone found ((order : List ℕ)
        → ¬ (OrderPasses frames.now bit order))) }
{
    let mut order = vec![in alloc; 0u32; frames.len()]?;
    match assign(frames, bit, &mut order) {
        Assigned::All => Ok(Some(order)),
        Assigned::Stuck { .. } => Ok(None),
    }
}

/// The plan of the frames of one item each in an order in which each passes: the matrix of that order, and
/// the least busy periods and starts. The only error is want of memory.
fn in_time(
    alloc: Global,
    problem: &Problem,
    labels: &[u32],
    frames: &[Timed],
    order: &[u32],
) -> Result<Alone, Memory>
    requires labels { labels.now ≡ labels_alone problem.now }
    requires frames { frames.now ≡ frames_alone problem.now }
    requires stages { (place : ℕ) → place < length order.now → IsStage frames.now order.now place }
    requires bit { IsBit frames.now problem.now.network.nominal_ticks }
    requires lowest_first { IsLowestFirst frames.now problem.now.network.nominal_ticks 0 order.now }
    requires passes { OrderPasses frames.now problem.now.network.nominal_ticks order.now }
    ensures exact { IfOk result (IsPlanAlone problem.now) }
    ensures accepted { IfOk result (λ plan. Accepts (judged_alone problem.now plan)
        (verdict_alone problem.now plan)) }
    ensures fits { IfOk result (λ plan. CertFits (cert_alone plan)) }
{
    let bit = u64::from(problem.network().nominal_ticks);
    let lines = least_lines(alloc, frames, order, bit)?;
    let matrix = matrix_of(alloc, problem, labels, order)?;
    Ok(Alone::InTime(matrix, timed_cert(alloc, lines)))
}

/// Plans a frame of its own for each item: in the order of lowest-priority-first assignment, with the least
/// busy periods and starts that show that each frame passes, exactly where some order has each frame pass; by
/// item where none has. The only error is want of memory.
pub fn plan_alone(alloc: Global, problem: &Problem) -> Result<Alone, Memory>
    ensures exact { IfOk result (IsPlanAlone problem.now) }
    ensures accepted { IfOk result (λ plan. Accepts (judged_alone problem.now plan)
        (verdict_alone problem.now plan)) }
    ensures fits { IfOk result (λ plan. CertFits (cert_alone plan)) }
{
    let labels = numbers_below(alloc, problem.items().len() as u32)?;
    let frames = class_frames(alloc, problem, &labels, labels.len() as u32)?;
    let bit = u64::from(problem.network().nominal_ticks);
    match passing_order(alloc, &frames, bit)? {
        Some(order) => in_time(alloc, problem, &labels, &frames, &order),
        None => Ok(Alone::Untimed(one_frame_each(alloc, problem)?)),
    }
}

/// The load of the frames of one item each, in ticks a common period. The only error is want of memory.
pub fn load_alone(alloc: Global, problem: &Problem) -> Result<u128, Memory>
    ensures { IfOk result (λ load. load ≡ load_alone problem.now) }
{
    let labels = numbers_below(alloc, problem.items().len() as u32)?;
    let frames = class_frames(alloc, problem, &labels, labels.len() as u32)?;
    Ok(load_of_frames(&frames, problem.hyper()))
}
