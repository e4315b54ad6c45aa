//! Whether each row fits the items of its frame.
ghost use Rattle.std.specs.Prelude.{◌≡◌, ◌≤◌, ◌↔◌, All, AllPairs, IsTrue, Some};
ghost use Rattle.pack_model.specs.Network.{NetworkStands};
ghost use Rattle.fd_length.specs.Size.{fd_size_of};
ghost use Rattle.frame_ticks.specs.Worst.{worst_ticks_of};
ghost use Rattle.class_frame.specs.Sums.{AreSums, IsSmall};
ghost use Rattle.placed_matrix.specs.Frames.{grouping_of};
ghost use Rattle.placed_matrix.specs.Items.{items_in_frame};
ghost use Rattle.placed_matrix.specs.Placed.{OneRow, bytes_of_pdu};
ghost use Rattle.matrix_rows.specs.Row.{RowInRange};
ghost use Rattle.placed_matrix.specs.Tables.{AllFound, AtOnePlace, HasRows, InPart, BeginsAfter, MeetsFigures, RowFits, RowMeets, RowsOf, SamePart, bytes_of_part, bytes_under, parts_before};

use crate::frames::first_row;
use class_frame::{Sums, class_sums};
use container_pdu::Header;
use fd_length::fd_size;
use frame_ticks::worst_ticks;
use matrix_rows::MatrixRow;
use pack_model::{MAX_SIGNALS, Network, Problem};

/// What the rows of one part must agree with.
#[derive(Clone, Copy)]
struct PartFigures {
    /// The header of the frame's parts.
    header: Header,
    /// The bytes of the frame's items together.
    frame: u32,
    /// The bytes of the part.
    part: u32,
    /// The bytes of the parts that begin before it, with their headers.
    before: u32,
}

/// Whether each row fits its frame: its header, its part's place, its size and ticks, and its bits.
pub fn rows_fit(
    problem: &Problem,
    rows: &[MatrixRow],
    row_of: &[usize; MAX_SIGNALS],
    labels: &[u32],
) -> bool
    requires in_range { All RowInRange rows.now }
    requires one { OneRow problem.now.signals rows.now }
    requires rows { HasRows problem.now.signals rows.now row_of.now }
    requires parts { AllPairs SamePart rows.now }
    requires labels { labels.now ≡ grouping_of problem.now rows.now }
    ensures { IsTrue result ↔ All (RowFits problem.now rows.now) rows.now }
{
    let items = problem.items();
    let sums = class_sums(problem, items, labels);
    for (number, item) in items.iter().enumerate() {
        let first = first_row(rows, row_of, item);
        let frame = sums[labels[number] as usize];
        if !part_fits(problem, rows, row_of, item.members.as_slice(), first, frame) {
            return false;
        }
    }
    true
}

/// Whether the rows of the signals of these places, which all stand in the part of the first, fit
/// their frame, whose items have these sums.
fn part_fits(
    problem: &Problem,
    rows: &[MatrixRow],
    row_of: &[usize; MAX_SIGNALS],
    places: &[u32],
    first: &MatrixRow,
    sums: Sums,
) -> bool
    requires in_range { All RowInRange rows.now }
    requires rows { HasRows problem.now.signals rows.now row_of.now }
    requires found { AllFound rows.now row_of.now places.now }
    requires place { RowsOf (λ row. AtOnePlace row first.now) rows.now row_of.now places.now }
    requires pdu { RowsOf (λ row. row.pdu ≡ first.now.pdu) rows.now row_of.now places.now }
    requires sums { AreSums problem.now (items_in_frame problem.now rows.now first.now.id) sums }
    requires small { IsSmall sums }
    ensures { IsTrue result ↔ RowsOf (RowFits problem.now rows.now) rows.now row_of.now places.now }
{
    let header = sums.header();
    let frame = sums.frame_bytes();
    let part = part_bytes(problem, first, frame);
    let before = bytes_before(problem, rows, row_of, first, header);
    let figures = PartFigures {
        header,
        frame,
        part,
        before,
    };
    all_meet(problem.network(), rows, row_of, places, figures)
}

/// Whether the rows of the signals of these places agree with the figures.
fn all_meet(
    network: &Network,
    rows: &[MatrixRow],
    row_of: &[usize; MAX_SIGNALS],
    places: &[u32],
    figures: PartFigures,
) -> bool
    requires network { NetworkStands network.now }
    requires in_range { All RowInRange rows.now }
    requires found { AllFound rows.now row_of.now places.now }
    requires part { figures.part ≤ 10000 }
    requires before { figures.before ≤ 10000 }
    ensures { IsTrue result ↔ RowsOf
        (λ row. MeetsFigures network.now row figures) rows.now row_of.now places.now }
{
    for place in places {
        if !meets_figures(network, &rows[row_of[*place as usize]], figures) {
            return false;
        }
    }
    true
}

/// Whether the row agrees with the figures.
fn meets_figures(network: &Network, row: &MatrixRow, figures: PartFigures) -> bool
    requires network { NetworkStands network.now }
    requires in_range { RowInRange row.now }
    requires part { figures.part ≤ 10000 }
    requires before { figures.before ≤ 10000 }
    ensures { IsTrue result ↔ MeetsFigures network.now row.now figures }
{
    row.header == figures.header && meets(network, row, figures.frame, figures.part, figures.before)
}

/// Whether the row's frame has the size and the ticks of so many bytes, and the row's signal lies in
/// its part, which has `part` bytes and follows `before` bytes and its header.
fn meets(network: &Network, row: &MatrixRow, bytes: u32, part: u32, before: u32) -> bool
    requires network { NetworkStands network.now }
    requires in_range { RowInRange row.now }
    requires part { part ≤ 10000 }
    requires before { before ≤ 10000 }
    ensures { IsTrue result ↔ RowMeets network.now row.now bytes part before }
{
    has_length(network, row, bytes) && lies_inside(row, part) && begins_after(row, before)
}

/// Whether the row's frame has the size and the ticks of so many bytes.
fn has_length(network: &Network, row: &MatrixRow, bytes: u32) -> bool
    requires network { NetworkStands network.now }
    requires in_range { RowInRange row.now }
    ensures { IsTrue result ↔
        ((fd_size_of bytes ≡ Some row.now.size) × (row.now.ticks ≡ worst_ticks_of network.now row.now.size)) }
{
    match fd_size(bytes) {
        Some(size) => size == row.size && row.ticks == worst_ticks(network, row.size),
        None => false,
    }
}

/// Whether the row lies in its part, which has so many bytes.
fn lies_inside(row: &MatrixRow, bytes: u32) -> bool
    requires in_range { RowInRange row.now }
    requires few { bytes ≤ 10000 }
    ensures { IsTrue result ↔ InPart row.now bytes }
{
    8 * row.at <= row.start && row.start + row.bits <= 8 * (row.at + bytes)
}

/// The bytes of the row's part, where those of its frame are `frame_bytes`.
fn part_bytes(problem: &Problem, row: &MatrixRow, frame_bytes: u32) -> u32
    requires { frame_bytes ≤ 10000 }
    ensures part { result ≡ bytes_of_part problem.now.signals frame_bytes row.now.pdu }
    ensures low { result ≤ 10000 }
{
    match row.pdu {
        Some(pdu) => pdu_bytes(problem, pdu),
        None => frame_bytes,
    }
}

/// The bytes of the I-PDU of an id; 0 where there is none.
fn pdu_bytes(problem: &Problem, pdu: u32) -> u32
    ensures bytes { result ≡ bytes_of_pdu problem.now.signals pdu }
    ensures low { result ≤ 64 }
{
    let items = problem.items();
    for item in items {
        if item.pdu == Some(pdu) {
            return item.bits.div_ceil(8);
        }
    }
    0
}

/// Whether the row's part begins at 0 where there are no headers, and in a container after its own
/// header, which follows so many bytes.
fn begins_after(row: &MatrixRow, before: u32) -> bool
    requires { before ≤ 10000 }
    ensures { IsTrue result ↔ BeginsAfter row.now before }
{
    if row.header == Header::NoHeader {
        row.at == 0
    } else {
        row.at == row.header.bytes() + before
    }
}

/// The bytes of the parts that begin before the row's part in its frame, each with this header.
fn bytes_before(
    problem: &Problem,
    rows: &[MatrixRow],
    row_of: &[usize; MAX_SIGNALS],
    row: &MatrixRow,
    header: Header,
) -> u32
    requires in_range { All RowInRange rows.now }
    requires rows { HasRows problem.now.signals rows.now row_of.now }
    ensures bytes { result ≡ bytes_under header
        (parts_before problem.now rows.now row.now.id row.now.at problem.now.items) }
    ensures low { result ≤ 10000 }
{
    let items = problem.items();
    let mut bytes = 0;
    for item in items {
        let first = first_row(rows, row_of, item);
        if first.id == row.id && first.at < row.at {
            bytes += header.bytes() + item.bits.div_ceil(8);
        }
    }
    bytes
}
