//! What the rows of a matrix say of each other.
ghost use Rattle.std.specs.Prelude.{◌≡◌, ◌↔◌, All, AllPairs, IsTrue, is_some, slice_index, slice_index_or};
ghost use Rattle.pack_model.specs.declared.item.Item.{Item};
ghost use Rattle.matrix_rows.specs.declared.matrix.MatrixRow.{MatrixRow};
ghost use Rattle.placed_matrix.specs.Placed.{OneRow, SameFrame, BeginApart};
ghost use Rattle.matrix_rows.specs.Row.{RowInRange};
ghost use Rattle.placed_matrix.specs.Tables.{AllFound, AtOnePlace, FirstFound, HasRows, RowsOf, SameFrameAndKind, SamePart, StandTogether};

use crate::frames::first_row;
use container_pdu::Header;
use frame_ticks::IDENTIFIERS;
use matrix_rows::MatrixRow;
use pack_model::{Item, MAX_SIGNALS, Problem};

/// No row, in a table from identifiers to rows.
const NO_ROW: usize = usize::MAX;

/// Whether the rows of each frame say the same of it and are of one kind.
pub fn frames_agree(rows: &[MatrixRow]) -> bool
    requires { All RowInRange rows.now }
    ensures { IsTrue result ↔ AllPairs
        (λ row other. row.id ≡ other.id → SameFrameAndKind row other) rows.now }
{
    let mut first_of = [NO_ROW; IDENTIFIERS];
    for (number, row) in rows.iter().enumerate() {
        let id = row.id as usize;
        if first_of[id] == NO_ROW {
            first_of[id] = number;
        } else if !agree(&rows[first_of[id]], row) {
            return false;
        }
    }
    true
}

/// Whether the rows can be of one frame.
fn agree(row: &MatrixRow, other: &MatrixRow) -> bool
    ensures { IsTrue result ↔ SameFrameAndKind row.now other.now }
{
    are_of_one_frame(row, other) && are_of_one_kind(row, other)
}

/// Whether the rows say the same of their frame.
fn are_of_one_frame(row: &MatrixRow, other: &MatrixRow) -> bool
    ensures { IsTrue result ↔ SameFrame row.now other.now }
{
    row.sender == other.sender
        && row.size == other.size
        && row.ticks == other.ticks
        && row.header == other.header
}

/// Whether both rows are of free signals or both of I-PDUs.
fn are_of_one_kind(row: &MatrixRow, other: &MatrixRow) -> bool
    ensures { IsTrue result ↔ is_some row.now.pdu ≡ is_some other.now.pdu }
{
    row.pdu.is_some() == other.pdu.is_some()
}

/// Whether the rows of each I-PDU stand in one part, and different parts of a container begin at
/// different bytes.
pub fn parts_agree(problem: &Problem, rows: &[MatrixRow], row_of: &[usize; MAX_SIGNALS]) -> bool
    requires in_range { All RowInRange rows.now }
    requires one { OneRow problem.now.signals rows.now }
    requires rows { HasRows problem.now.signals rows.now row_of.now }
    requires frames { AllPairs (λ row other. row.id ≡ other.id → SameFrameAndKind row other) rows.now }
    ensures { IsTrue result ↔ AllPairs StandTogether rows.now }
{
    pdus_agree(problem, rows, row_of) && parts_begin_apart(problem, rows, row_of)
}

/// Whether the rows of each I-PDU stand in one part.
fn pdus_agree(problem: &Problem, rows: &[MatrixRow], row_of: &[usize; MAX_SIGNALS]) -> bool
    requires in_range { All RowInRange rows.now }
    requires one { OneRow problem.now.signals rows.now }
    requires rows { HasRows problem.now.signals rows.now row_of.now }
    ensures { IsTrue result ↔ AllPairs SamePart rows.now }
{
    let items = problem.items();
    for item in items {
        let first = first_row(rows, row_of, item);
        if !stand_with(rows, row_of, item.members.as_slice(), first) {
            return false;
        }
    }
    true
}

/// Whether the rows of the signals of these places stand in one part with the row.
fn stand_with(
    rows: &[MatrixRow],
    row_of: &[usize; MAX_SIGNALS],
    places: &[u32],
    row: &MatrixRow,
) -> bool
    requires { AllFound rows.now row_of.now places.now }
    ensures { IsTrue result ↔ RowsOf (λ other. AtOnePlace other row.now) rows.now row_of.now places.now }
{
    for place in places {
        if !are_at_one_place(&rows[row_of[*place as usize]], row) {
            return false;
        }
    }
    true
}

/// Whether the rows stand in one part of one frame.
fn are_at_one_place(row: &MatrixRow, other: &MatrixRow) -> bool
    ensures { IsTrue result ↔ AtOnePlace row.now other.now }
{
    row.id == other.id && row.at == other.at
}

/// Whether different parts of a container begin at different bytes.
fn parts_begin_apart(problem: &Problem, rows: &[MatrixRow], row_of: &[usize; MAX_SIGNALS]) -> bool
    requires in_range { All RowInRange rows.now }
    requires one { OneRow problem.now.signals rows.now }
    requires rows { HasRows problem.now.signals rows.now row_of.now }
    requires frames { AllPairs (λ row other. row.id ≡ other.id → SameFrameAndKind row other) rows.now }
    requires parts { AllPairs SamePart rows.now }
    ensures { IsTrue result ↔ AllPairs BeginApart rows.now }
{
    let items = problem.items();
    for (number, item) in items.iter().enumerate() {
        let first = first_row(rows, row_of, item);
        if !begins_apart_from(rows, row_of, &items[..number], first) {
            return false;
        }
    }
    true
}

/// Whether the row's part begins apart from that of each of the items.
fn begins_apart_from(
    rows: &[MatrixRow],
    row_of: &[usize; MAX_SIGNALS],
    items: &[Item],
    row: &MatrixRow,
) -> bool
    requires in_range { All RowInRange rows.now }
    requires members { All (FirstFound rows.now row_of.now) items.now }
    ensures { IsTrue result ↔ All
        (λ item. (d : MatrixRow) → BeginApart
        (slice_index_or rows.now (slice_index row_of.now (slice_index item.members 0)) d) row.now) items.now }
{
    for item in items {
        if !begin_apart(first_row(rows, row_of, item), row) {
            return false;
        }
    }
    true
}

/// Whether the rows' parts begin at different bytes, if they are different parts of one container.
fn begin_apart(row: &MatrixRow, other: &MatrixRow) -> bool
    ensures { IsTrue result ↔ BeginApart row.now other.now }
{
    row.id != other.id
        || row.header == Header::NoHeader
        || row.at != other.at
        || row.pdu == other.pdu
}
