//! Partial groupings of items, and the labels that may be put next.
//!
//! A partial grouping has labels for the first items, numbered by first use; its options are the labels
//! that keep each class one that can become a frame.
#![tactic(auto)]

mod class;
mod frame_length;
mod kept;
mod laws;
mod partial;
mod place;
mod walk;

pub use kept::{Ahead, Kept};
pub use laws::{
    classes_extend, classes_grow, fronts_are_legal, full_is_legal, legal_is_partial, new_is_option,
    next_is_option, options_are_legal, options_ascend,
};
pub use partial::Partial;

#[cfg(test)]
mod tests;
