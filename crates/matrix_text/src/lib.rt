//! The communication matrix: which signals share a frame, in which bits, under which identifier.
//!
//! This crate only passes on what three others have: the rows and their text (`matrix_rows`), whether
//! a matrix is placed (`placed_matrix`), and the matrix of a grouping (`matrix_layout`).
#![tactic(auto)]

pub use matrix_layout::{matrix_of, one_frame_each};
pub use matrix_rows::{Matrix, MatrixFault, MatrixRow, read_matrix, write_matrix};
pub use placed_matrix::labels_of;
