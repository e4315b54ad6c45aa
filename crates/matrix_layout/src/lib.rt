//! The communication matrix of a grouping: each class laid out as a frame.
//!
//! The matrix that [`matrix_of`] answers is placed, and has the grouping and the order that it was
//! laid out by.
#![tactic(auto)]

mod class_items;
mod classes;
mod frame;
mod frame_rows;
mod layout;

pub use layout::{matrix_of, one_frame_each};
