//! A class of items as a frame: legal groupings, and the bytes, size, weight, times, ticks and load of a
//! class.
//!
//! The one contract that upper crates use is that of [`Sums`]: the sums of two lists of items, one after the
//! other, are the join of their sums, and the sums of a class say what its frame is. [`class_frames`] gives
//! the frames of all classes for the response-time test; no other call takes memory.
#![tactic(auto)]

mod classes;
mod frames;
mod laws;
mod load;
mod sums;
mod times;

pub use classes::{MAX_CLASSES, class_sums};
pub use frames::class_frames;
pub use laws::{bit_within, frame_in_range, more_is_harder, period_divides};
pub use load::load_of_frames;
pub use sums::Sums;

#[cfg(test)]
mod tests;
