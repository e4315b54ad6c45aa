//! Lowest-priority-first assignment: an order of all frames that passes the written test, where one exists, and else the
//! frames that stand in the way.
//!
//! From the lowest place up, among the frames without a place, the one of greatest number that passes with the other such
//! frames higher and the placed ones lower takes the place. This is the assignment of Audsley, which is complete for a
//! test that depends on the higher frames as a set and is kept by fewer of them. All times are whole ticks.
//!
//! Most frames are told without the test of each instance: by what the frames without a place ask for once,
//! and by busy periods that are known.
//!
//! No call takes memory, and each returns for all frames in range.
#![tactic(auto)]

mod assignment;
mod in_time;
mod laws;
mod level;
mod once;
#[cfg(test)]
mod tests;

pub use assignment::{Assigned, assign};
pub use laws::{one_order_is_lowest_first, one_set_is_stuck};
