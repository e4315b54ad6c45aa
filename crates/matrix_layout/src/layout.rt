//! The communication matrix of a grouping.
ghost use Rattle.std.specs.Prelude.{◌≡◌, IfOk, length};
ghost use Rattle.std.specs.List.{range_with_len};
ghost use Rattle.class_frame.specs.Grouping.{IsOrder};
ghost use Rattle.class_frame.specs.Legal.{IsLegal};
ghost use Rattle.pack_model.specs.Problem.{IsProblem, IsSorted};
ghost use Rattle.placed_matrix.specs.Frames.{grouping_of, order_of};
ghost use Rattle.matrix_layout.specs.LaidOut.{rows_of, rows_one_each};
ghost use Rattle.placed_matrix.specs.Placed.{Placed};

use crate::classes::items_by_class;
use crate::frame::frame_of;
use crate::frame_rows::add_frame;
use class_frame::class_sums;
use matrix_rows::{Matrix, MatrixRow};
use pack_model::{Memory, Problem};
use std::alloc::{AllocError, Global};

/// The matrix of a legal grouping: the class that `order` names at place `k` becomes the frame with
/// identifier `first_id + k`, which has the least data length for its bytes. Free items, or one
/// I-PDU, stand from byte 0 on; two or more I-PDUs follow each other by item, each after its header
/// (AUTOSAR IpduM). The signals of a part stand one after another in list order. Rows are by
/// identifier, then by item, and then by list place. The only error is want of memory.
pub fn matrix_of(
    alloc: Global,
    problem: &Problem,
    labels: &[u32],
    order: &[u32],
) -> Result<Matrix, Memory>
    requires legal { IsLegal problem.now.items labels.now }
    requires order { IsOrder labels.now order.now }
    ensures rows { IfOk result (λ matrix. matrix ≡ rows_of problem.now labels.now order.now) }
    ensures placed { IfOk result (λ matrix. Placed problem.now matrix) }
    ensures grouping { IfOk result (λ matrix. grouping_of problem.now matrix ≡ labels.now) }
    ensures order { IfOk result (λ matrix. order_of problem.now matrix ≡ order.now) }
{
    let rows = laid_rows(alloc, problem, labels, order)?;
    Ok(Matrix::of(rows))
}

/// The matrix of one frame for each item: the item of number `k` has the frame with identifier
/// `first_id + k`. The only error is want of memory.
pub fn one_frame_each(alloc: Global, problem: &Problem) -> Result<Matrix, Memory>
    ensures rows { IfOk result (λ matrix. matrix ≡ rows_one_each problem.now) }
    ensures placed { IfOk result (λ matrix. Placed problem.now matrix) }
    ensures grouping { IfOk result
        (λ matrix. grouping_of problem.now matrix ≡ range_with_len 0 (length problem.now.items)) }
    ensures order { IfOk result
        (λ matrix. order_of problem.now matrix ≡ range_with_len 0 (length problem.now.items)) }
{
    let numbers = numbers_below(alloc, problem.items().len() as u32)?;
    matrix_of(alloc, problem, numbers.as_slice(), numbers.as_slice())
}

/// The numbers below a count, ascending.
fn numbers_below(alloc: Global, count: u32) -> Result<Vec<u32>, AllocError>
    ensures { IfOk result (λ numbers. numbers.items ≡ range_with_len 0 count) }
{
    (0..count).collect(alloc)
}

/// The rows of the matrix of a legal grouping.
fn laid_rows(
    alloc: Global,
    problem: &Problem,
    labels: &[u32],
    order: &[u32],
) -> Result<Vec<MatrixRow>, Memory>
    requires legal { IsLegal problem.now.items labels.now }
    requires order { IsOrder labels.now order.now }
    ensures rows { IfOk result (λ rows. rows.items ≡ rows_of problem.now labels.now order.now) }
    ensures problem { IsProblem problem.now }
    ensures sorted { IsSorted problem.now.signals problem.now.items }
{
    let network = problem.network();
    let items = problem.items();
    let classes = items_by_class(alloc, labels, order.len())?;
    let sums = class_sums(problem, items, labels);
    let mut rows = Vec::with_capacity(alloc, problem.signals().len())?;
    for (number, &label) in order.iter().enumerate() {
        let id = network.first_id + number as u32;
        let class = classes[label as usize].as_slice();
        let frame = frame_of(network, id, sums[label as usize]);
        add_frame(alloc, &frame, problem, class, &mut rows)?;
    }
    Ok(rows)
}
