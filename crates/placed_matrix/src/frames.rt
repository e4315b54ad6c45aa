//! The numbers of frames.
ghost use Rattle.std.specs.Prelude.{◌≡◌, ◌≤◌, All, length, slice_index, slice_index_or, take};
ghost use Rattle.pack_model.specs.Problem.{IsProblem, IsSorted};
ghost use Rattle.placed_matrix.specs.Frames.{frame_identifiers, grouping_of};
ghost use Rattle.matrix_rows.specs.Row.{RowInRange};
ghost use Rattle.placed_matrix.specs.Tables.{FirstFound, HasRows, HasLabels, in_use};

use frame_ticks::IDENTIFIERS;
use matrix_rows::MatrixRow;
use pack_model::{Item, MAX_SIGNALS, Problem};

/// No label, in a table from identifiers to labels.
const NO_LABEL: u32 = u32::MAX;

/// Gives each item the label of its frame, numbered by first use, and answers the label of each
/// identifier in use.
pub fn number_frames(
    problem: &Problem,
    rows: &[MatrixRow],
    row_of: &[usize; MAX_SIGNALS],
    labels: &mut [u32],
) -> [u32; IDENTIFIERS]
    requires in_range { All RowInRange rows.now }
    requires rows { HasRows problem.now.signals rows.now row_of.now }
    requires labels { length labels.old ≡ length problem.now.items }
    ensures labels { labels.new ≡ grouping_of problem.now rows.now }
    ensures table { HasLabels (frame_identifiers problem.now rows.now) result }
    ensures long { length result ≡ IDENTIFIERS }
    ensures problem { IsProblem problem.now × IsSorted problem.now.signals problem.now.items }
{
    let items = problem.items();
    let mut label_of = [NO_LABEL; IDENTIFIERS];
    let mut frames = 0;
    for (number, item) in items.iter().enumerate() {
        let id = first_row(rows, row_of, item).id as usize;
        if label_of[id] == NO_LABEL {
            label_of[id] = frames;
            frames += 1;
        }
        labels[number] = label_of[id];
    }
    label_of
}

/// The row of an item's first signal.
pub fn first_row<'a>(
    rows: &'a [MatrixRow],
    row_of: &[usize; MAX_SIGNALS],
    item: &Item,
) -> &'a MatrixRow
    requires in_range { All RowInRange rows.now }
    requires member { FirstFound rows.now row_of.now item.now }
    ensures in_range { RowInRange result.now }
    ensures row { result.now ≡ slice_index_or rows.now
        (slice_index row_of.now (slice_index item.now.members 0)) result.now }
{
    let first = item.members.as_slice()[0] as usize;
    &rows[row_of[first]]
}

/// Puts the labels in use at the front of `order`, by ascending identifier, and counts them.
pub fn put_in_order(label_of: &[u32; IDENTIFIERS], order: &mut [u32]) -> usize
    requires { length (in_use label_of.now) ≤ length order.old }
    ensures count { result ≡ length (in_use label_of.now) }
    ensures order { take result order.new ≡ in_use label_of.now }
{
    let mut place = 0;
    for label in label_of {
        if *label != NO_LABEL {
            order[place] = *label;
            place += 1;
        }
    }
    place
}
