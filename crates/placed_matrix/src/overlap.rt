//! Whether signals of one frame are apart.
ghost use Rattle.std.specs.Prelude.{◌≡◌, ◌+◌, ◌≤◌, ◌<◌, ◌↔◌, All, AllPairs, IsTrue, slice_index};
ghost use Rattle.ipdu_layout.specs.Layout.{IsApart};
ghost use Rattle.placed_matrix.specs.Placed.{place_of};
ghost use Rattle.placed_matrix.specs.Tables.{LabelsApart, place_among};

use frame_ticks::IDENTIFIERS;
use ipdu_layout::{Place, mark};
use matrix_rows::MatrixRow;

/// The positions of 128 frames of 64 bytes.
const POSITIONS: usize = 65536;

/// Whether no two signals of one frame share a position.
pub fn are_apart(rows: &[MatrixRow], label_of: &[u32; IDENTIFIERS]) -> bool
    requires in_range { All (λ row. row.id ≤ 2047) rows.now }
    requires inside { All (λ row. row.start + row.bits ≤ 512) rows.now }
    requires labels { LabelsApart label_of.now rows.now }
    ensures { IsTrue result ↔ AllPairs
        (λ row other. row.id ≡ other.id → IsApart (place_of row) (place_of other)) rows.now }
{
    let mut marks = [false; POSITIONS];
    for row in rows {
        if !mark(&mut marks, place_among(row, label_of)) {
            return false;
        }
    }
    true
}

/// The positions of the row's signal among those of all frames.
fn place_among(row: &MatrixRow, label_of: &[u32; IDENTIFIERS]) -> Place
    requires id { row.now.id ≤ 2047 }
    requires label { slice_index label_of.now row.now.id < 128 }
    requires start { row.now.start ≤ 512 }
    ensures { result ≡ place_among label_of.now row.now }
{
    Place {
        start: 512 * label_of[row.id as usize] + row.start,
        bits: row.bits,
    }
}
