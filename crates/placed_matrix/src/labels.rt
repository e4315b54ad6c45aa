//! Whether a matrix is placed, and the grouping and the order of its frames.
ghost use Rattle.std.specs.Prelude.{◌≡◌, ◌≤◌, length, take, IsNone, OnSome, IfSome};
ghost use Rattle.class_frame.specs.Grouping.{IsOrder, classes_of};
ghost use Rattle.class_frame.specs.Legal.{IsLegal};
ghost use Rattle.placed_matrix.specs.Frames.{grouping_of, order_of};
ghost use Rattle.placed_matrix.specs.OnePlace.{OnePlace};
ghost use Rattle.placed_matrix.specs.Placed.{Placed};

use crate::checks::{frames_agree, parts_agree};
use crate::fits::rows_fit;
use crate::frames::{number_frames, put_in_order};
use crate::overlap::are_apart;
use crate::signal_rows::find_rows;
use matrix_rows::Matrix;
use pack_model::Problem;

/// The grouping of a placed matrix: its number of frames, each item's label in `labels`, and the
/// frames' labels by ascending identifier at the front of `order`. The grouping is legal, and the
/// order names each class once. None exactly where the matrix is not placed; then both slices may
/// hold any numbers. It takes no memory.
pub fn labels_of(
    problem: &Problem,
    matrix: &Matrix,
    labels: &mut [u32],
    order: &mut [u32],
) -> Option<u32>
    requires labels { length labels.old ≡ length problem.now.items }
    requires order { length order.old ≡ length problem.now.items }

    ensures not_placed { IsNone result → ¬ Placed problem.now matrix.now }
    ensures placed { OnSome result (Placed problem.now matrix.now) }
    ensures one_place { OnSome result (OnePlace problem.now matrix.now) }

    ensures labels { OnSome result (labels.new ≡ grouping_of problem.now matrix.now) }
    ensures legal { OnSome result (IsLegal problem.now.items labels.new) }
    ensures frames { IfSome result (λ frames. frames ≡ classes_of labels.new) }

    ensures order { IfSome result (λ frames. take frames order.new ≡ order_of problem.now matrix.now) }
    ensures named { IfSome result (λ frames. IsOrder labels.new (take frames order.new)) }
{
    let rows = matrix.rows();
    let row_of = find_rows(problem, rows)?;
    if !frames_agree(rows) || !parts_agree(problem, rows, &row_of) {
        return None;
    }
    let label_of = number_frames(problem, rows, &row_of, labels);
    if !rows_fit(problem, rows, &row_of, labels) || !are_apart(rows, &label_of) {
        return None;
    }
    Some(put_in_order(&label_of, order) as u32)
}
