//! Whether rows are a communication matrix of a problem, and which items share a frame in it.
//!
//! [`labels_of`] answers exactly where a matrix is placed, with the grouping and the order of its
//! frames.
#![tactic(auto)]

mod checks;
mod fits;
mod frames;
mod labels;
mod overlap;
mod signal_rows;

pub use labels::labels_of;
