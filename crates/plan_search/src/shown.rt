//! The matrix of a grouping in its order, and the lines that show it.
ghost use Rattle.std.specs.Prelude.{IfOk};
ghost use Rattle.search_judge.specs.Findings.{FoundStands};
ghost use Rattle.plan_search.specs.Plan.{IsShownBy};

use crate::lines::least_lines;
use cert_text::FrameLine;
use class_frame::class_frames;
use matrix_text::{Matrix, matrix_of};
use pack_model::{Memory, Problem};
use std::alloc::Global;
use tree_search::Found;

/// The matrix of a grouping in its order, and the lines with the least numbers that show that each frame
/// passes. The only error is want of memory.
pub(crate) fn shown_by(
    alloc: Global,
    problem: &Problem,
    found: &Found,
) -> Result<(Matrix, Vec<FrameLine>), Memory>
    requires { FoundStands problem.now found.now }
    ensures { IfOk result (λ shown. IsShownBy problem.now found.now shown.0 shown.1.items) }
{
    let labels = found.labels.as_slice();
    let order = found.order.as_slice();
    let bit = u64::from(problem.network().nominal_ticks);
    let frames = class_frames(alloc, problem, labels, order.len() as u32)?;
    let lines = least_lines(alloc, &frames, order, bit)?;
    let matrix = matrix_of(alloc, problem, labels, order)?;
    Ok((matrix, lines))
}
