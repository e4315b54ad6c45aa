//! The frames of a placed matrix.
ghost use Rattle.std.specs.Prelude.{◌≡◌, ◌<◌, IfOk, IsTrue, ◌↔◌, length};
ghost use Rattle.class_frame.specs.Classes.{frames_of_classes, load_of};
ghost use Rattle.class_frame.specs.Grouping.{IsGrouping, IsOrder};
ghost use Rattle.pack_model.specs.Problem.{IsProblem, IsSorted};
ghost use Rattle.response_test.specs.Frame.{IsShown};
ghost use Rattle.cert_check.specs.Taken.{AreStages, IsPlaced};

use busy_period::Timed;
use cert_text::FrameLine;
use class_frame::{class_frames, load_of_frames};
use matrix_text::{Matrix, labels_of};
use pack_model::{Memory, Problem};
use response_test::shown;
use std::alloc::Global;

/// The frames of a placed matrix.
#[derive(Drop)]
pub(crate) struct Placing {
    /// Their times, by label.
    pub frames: Vec<Timed>,
    /// Their labels by ascending identifier.
    pub order: Vec<u32>,
    /// Their load, in ticks a common period.
    pub load: u128,
}

impl Placing {
    /// Whether a line shows that the frame at a place of the order passes the written test. `bit` is the time of
    /// a nominal bit in ticks.
    pub fn shows(&self, bit: u64, place: usize, line: &FrameLine) -> bool
        requires { AreStages self.now.frames.items self.now.order.items bit }
        ensures { IsTrue result ↔ ((place < length self.now.order.items)
            × IsShown self.now.frames.items self.now.order.items place bit line.now.busy line.now.queue) }
    {
        if place >= self.order.len() {
            return false;
        }
        let starts = line.queue.as_slice();
        shown(&self.frames, &self.order, place, bit, line.busy, starts)
    }
}

/// The frames of a grouping, whose classes the order names once each.
fn frames_of(
    alloc: Global,
    problem: &Problem,
    labels: &[u32],
    order: Vec<u32>,
) -> Result<Placing, Memory>
    requires grouping { IsGrouping problem.now.items labels.now }
    requires order { IsOrder labels.now order.items }
    ensures frames { IfOk result (λ placing.
        placing.frames.items ≡ frames_of_classes problem.now problem.now.items labels.now) }
    ensures order { IfOk result (λ placing. placing.order.items ≡ order.items) }
    ensures stages { IfOk result (λ placing.
        AreStages placing.frames.items placing.order.items problem.now.network.nominal_ticks) }
    ensures load { IfOk result (λ placing.
        placing.load ≡ load_of problem.now problem.now.items labels.now) }
{
    let hyper = problem.hyper();
    let frames = class_frames(alloc, problem, labels, order.len() as u32)?;
    let load = load_of_frames(&frames, hyper);
    Ok(Placing {
        frames,
        order,
        load,
    })
}

/// The frames of a matrix where it is placed.
pub(crate) fn place(
    alloc: Global,
    problem: &Problem,
    matrix: &Matrix,
) -> Result<Option<Placing>, Memory>
    ensures placed { IfOk result (IsPlaced problem.now matrix.now) }
    ensures stands { IsProblem problem.now }
    ensures sorted { IsSorted problem.now.signals problem.now.items }
{
    let items = problem.items().len();
    let mut labels = vec![in alloc; 0u32; items]?;
    let mut order = vec![in alloc; 0u32; items]?;
    let Some(frames) = labels_of(problem, matrix, &mut labels, &mut order) else {
        return Ok(None);
    };
    order.truncate(frames as usize);
    let placing = frames_of(alloc, problem, &labels, order)?;
    Ok(Some(placing))
}
