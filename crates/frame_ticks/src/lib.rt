//! The bits of a CAN FD base frame, their stuffing, and how long the frame lasts, as ISO 11898-1 has
//! them.
//!
//! The one contract that upper crates use is that of [`worst_ticks`]: no frame with so many data
//! bytes lasts longer.
#![tactic(auto)]

mod bits;
mod frame;
mod laws;
mod line;
mod worst;

pub use bits::{IDENTIFIERS, frame_bits};
pub use frame::{real_ticks, stuffed_ticks};
pub use laws::stuffing_is_exact;
pub use worst::{MAX_TICKS, worst_ticks};

#[cfg(test)]
mod tests;
