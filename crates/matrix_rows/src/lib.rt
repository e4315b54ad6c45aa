//! The rows of a communication matrix (which signals share a frame, in which bits, under which
//! identifier) and their text.
//!
//! [`read_matrix`] answers the matrix of a text or its first refusal, and reads what [`write_matrix`]
//! wrote as the same matrix.
#![tactic(auto)]

mod matrix;
mod text;

pub use matrix::{Matrix, MatrixRow};
pub use text::{MatrixFault, read_matrix, write_matrix};
