//! Frame lines with the least numbers.
ghost use Rattle.std.specs.Prelude.{ℕ, ◌<◌, All, IfOk, length};
ghost use Rattle.busy_period.specs.Stage.{IsStage};
ghost use Rattle.cert_text.specs.Written.{HasRoom};
ghost use Rattle.plan_search.specs.Lines.{AreLeastLines, IsLeastLine};
ghost use Rattle.response_test.specs.Frame.{FramePasses};
ghost use Rattle.response_test.specs.Queueing.{IsBit};

use busy_period::{Timed, least_busy};
use cert_text::FrameLine;
use pack_model::{Chain, Memory};
use response_test::least_queue;
use std::alloc::Global;

/// The line of the frame at `place`, which passes: its least busy period, and the least time at which each
/// instance in it can start. `bit` is the time of a nominal bit. All times are in ticks. The only error is
/// want of memory.
fn least_line(
    alloc: Global,
    frames: &[Timed],
    order: &[u32],
    place: usize,
    bit: u64,
) -> Result<FrameLine, Memory>
    requires stage { IsStage frames.now order.now place }
    requires bit { IsBit frames.now bit }
    requires passes { FramePasses frames.now order.now place bit }
    ensures least { IfOk result (IsLeastLine frames.now order.now bit place) }
    ensures room { IfOk result HasRoom }
{
    let busy = least_busy(frames, order, place).unwrap();
    let own = frames[order[place] as usize];
    let mut queue = Vec::new(alloc);
    for instance in 0..own.instances(busy) {
        queue.push(least_queue(frames, order, place, bit, instance))?;
    }
    Ok(FrameLine {
        busy,
        queue: Chain::of(queue),
    })
}

/// The lines of all frames of an order in which each passes, from the highest priority to the lowest. The
/// only error is want of memory.
pub(crate) fn least_lines(
    alloc: Global,
    frames: &[Timed],
    order: &[u32],
    bit: u64,
) -> Result<Vec<FrameLine>, Memory>
    requires stages { (place : ℕ) → place < length order.now → IsStage frames.now order.now place }
    requires bit { IsBit frames.now bit }
    requires passes { (place : ℕ) → place < length order.now → FramePasses frames.now order.now place bit }
    ensures least { IfOk result (λ lines. AreLeastLines frames.now order.now bit lines.items) }
    ensures room { IfOk result (λ lines. All HasRoom lines.items) }
{
    let mut lines = Vec::new(alloc);
    for place in 0..order.len() {
        lines.push(least_line(alloc, frames, order, place, bit)?)?;
    }
    Ok(lines)
}
