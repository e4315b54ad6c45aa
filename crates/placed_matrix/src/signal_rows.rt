//! The row of each signal.
ghost use Rattle.std.specs.Prelude.{◌≡◌, ◌≢◌, ◌↔◌, IsTrue, MatchOption, EachIndex, slice_index};
ghost use Rattle.placed_matrix.specs.Placed.{OneRow, RowOf};
ghost use Rattle.placed_matrix.specs.Tables.{HasRows};

use matrix_rows::MatrixRow;
use pack_model::{MAX_SIGNALS, Problem, Signal};

/// No row, in a table from places to rows.
const NO_ROW: usize = usize::MAX;

/// The number of each signal's row by the signal's place, or None where a signal has no row, or more
/// than one, or a row is of no signal.
pub fn find_rows(problem: &Problem, rows: &[MatrixRow]) -> Option<[usize; MAX_SIGNALS]>
    ensures { MatchOption result (¬ OneRow problem.now.signals rows.now)
        (λ row_of. OneRow problem.now.signals rows.now × HasRows problem.now.signals rows.now row_of) }
{
    let signals = problem.signals();
    let mut row_of = [NO_ROW; MAX_SIGNALS];
    for (number, row) in rows.iter().enumerate() {
        let place = problem.place_of(&row.signal)?;
        if row_of[place] != NO_ROW || !is_row_of(row, &signals[place]) {
            return None;
        }
        row_of[place] = number;
    }
    if are_found(&row_of[..signals.len()]) {
        Some(row_of)
    } else {
        None
    }
}

/// Whether the row says what the list says of the signal.
fn is_row_of(row: &MatrixRow, signal: &Signal) -> bool
    ensures { IsTrue result ↔ RowOf signal.now row.now }
{
    row.signal == signal.name
        && row.sender == signal.sender
        && row.pdu == signal.pdu
        && row.bits == signal.bits
}

/// Whether each of the signals has a row.
fn are_found(row_of: &[usize]) -> bool
    ensures { IsTrue result ↔ EachIndex row_of.now (λ k. slice_index row_of.now k ≢ NO_ROW) }
{
    row_of.iter().all(|row| *row != NO_ROW)
}
