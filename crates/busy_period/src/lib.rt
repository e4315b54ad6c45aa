//! What frames on one bus ask of it: the demand at a frame's level, and the busy period of that level.
//!
//! A *stage* is a list of frames, an order of some of their numbers from the highest priority to the lowest,
//! and a place in it. The frame at the place is under test; those before it are higher, those after it lower.
//! All times are whole ticks. The demand is that of Davis, Burns, Bril and Lukkien, "Controller Area Network
//! (CAN) schedulability analysis: Refuted, revisited and revised" (2007); that a busy period counts only
//! within 256 instances is a rule of this repository.
//!
//! No call takes memory, and each returns for every stage.
#![tactic(auto)]

mod laws;
mod leap;
mod level;
mod line;
mod period;
mod quick;
#[cfg(test)]
mod tests;
mod timed;

pub use laws::{demand_depends_on_sets, demand_never_falls};
pub use level::{blocking, demand, work};
pub use period::{MAX_INSTANCES, busy_holds, least_busy, least_fit};
pub use timed::{MAX_FRAMES, Timed};
