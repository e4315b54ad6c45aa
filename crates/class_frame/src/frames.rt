//! The classes of labels as frames of the response-time test.
ghost use Rattle.std.specs.Prelude.{ℕ, ◌≡◌, ◌≤◌, ◌<◌, List, length, All, IfOk};
ghost use Rattle.busy_period.specs.Stage.{IsStage};
ghost use Rattle.busy_period.specs.Timed.{IsInRange};
ghost use Rattle.response_test.specs.Queueing.{IsBit};
ghost use Rattle.response_test.specs.Refuted.{IsCommon};
ghost use Rattle.class_frame.specs.Classes.{frames_of_classes};
ghost use Rattle.class_frame.specs.Grouping.{AreFirstLabels, IsOrder, classes_of};

use crate::classes::class_sums;
use busy_period::Timed;
use pack_model::{Memory, Problem};
use std::alloc::Global;

/// The classes as frames, by label. The labels are those of the problem's first items, all of them or fewer,
/// and make so many classes. Each order of the classes is one of stages of the response-time test, a nominal
/// bit is a bit of the frames, and the problem's common period is one of theirs.
pub fn class_frames(
    alloc: Global,
    problem: &Problem,
    labels: &[u32],
    classes: u32,
) -> Result<Vec<Timed>, Memory>
    requires labels { AreFirstLabels problem.now.items labels.now }
    requires classes { classes ≡ classes_of labels.now }
    ensures value { IfOk result (λ frames. frames.items ≡ frames_of_classes problem.now problem.now.items
        labels.now) }
    ensures in_range { IfOk result (λ frames. All IsInRange frames.items) }
    ensures count { IfOk result (λ frames. length frames.items ≡ classes_of labels.now) }
    ensures few { IfOk result (λ frames. length frames.items ≤ 128) }
    ensures stages { IfOk result (λ frames. (order : List ℕ) (place : ℕ) → IsOrder labels.now order
        → place < length order
        → IsStage frames.items order place) }
    ensures bit { IfOk result (λ frames. IsBit frames.items problem.now.network.nominal_ticks) }
    ensures common { IfOk result (λ frames. IsCommon frames.items problem.now.hyper) }
{
    let sums = class_sums(problem, &problem.items()[..labels.len()], labels);
    let network = problem.network();
    let mut frames = Vec::new(alloc);
    for label in 0..classes {
        frames.push(sums[label as usize].timed(network))?;
    }
    Ok(frames)
}
