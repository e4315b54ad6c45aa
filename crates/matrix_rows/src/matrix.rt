//! The rows of a communication matrix.
ghost use Rattle.std.specs.Prelude.{◌≡◌, All};
ghost use Rattle.matrix_rows.specs.Row.{RowInRange};

use container_pdu::Header;
use pack_model::Name;
use std::marker::Model;

/// One row: where one signal stands.
#[derive(Debug, Drop)]
pub struct MatrixRow {
    /// The frame's identifier, 0 to 2047.
    pub id: u32,
    /// The frame's sender.
    pub sender: Name,
    /// The frame's data length in bytes, one of ISO 11898-1's list.
    pub size: u32,
    /// The frame's greatest length in ticks, 0 to 9999999999.
    pub ticks: u64,
    /// The kind of header that the frame's I-PDUs have.
    pub header: Header,
    /// The I-PDU's id, or none for a free signal.
    pub pdu: Option<u32>,
    /// The byte at which the signal's part begins, 0 to 63.
    pub at: u32,
    /// The signal's name.
    pub signal: Name,
    /// The signal's first bit position in the frame (AUTOSAR COM), 0 to 511.
    pub start: u32,
    /// The signal's length in bits, 1 to 512.
    pub bits: u32,
}

/// A communication matrix: rows whose figures are in their ranges.
#[derive(Debug, Drop)]
pub struct Matrix {
    rows: Vec<MatrixRow>,
}

impl Model for Matrix {
    ghost use Rattle.std.specs.Prelude.{List};
    ghost use Rattle.matrix_rows.specs.declared.matrix.MatrixRow.{MatrixRow};

    ghost Value = { List MatrixRow };

    ghost view = { λ a. a.rows.items };

    ghost use Rattle.std.specs.Prelude.{All};
    ghost use Rattle.matrix_rows.specs.Row.{RowInRange};

    ghost invariant = { λ a. All RowInRange a.rows.items };
}

impl Matrix {
    /// The matrix of these rows.
    pub fn of(rows: Vec<MatrixRow>) -> Matrix
        requires { All RowInRange rows.items }
        ensures { result ≡ rows.items }
    {
        Matrix { rows }
    }

    /// The rows, as they stand in the text.
    pub fn rows(&self) -> &[MatrixRow]
        ensures rows { result.now ≡ self.now }
        ensures in_range { All RowInRange result.now }
    {
        self.rows.as_slice()
    }
}
