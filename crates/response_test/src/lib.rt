//! The written response-time test of one frame: computed exactly, and checked from given numbers without a search.
//!
//! The test is that of Davis, Burns, Bril and Lukkien, "Controller Area Network (CAN) schedulability analysis: Refuted,
//! revisited and revised" (2007), with release jitter: each instance in the frame's busy period ends by its deadline,
//! whatever lower frame blocks it and whichever higher ones come first. A call takes a stage of `busy_period` and the
//! time of a nominal bit, which is at least 1 and at most the ticks of each frame. All times are whole ticks.
//!
//! Evidence that a frame fails can be found, and judged by its numbers alone. No call but `evidence_of` takes memory, and
//! each returns for every stage.
#![tactic(auto)]

mod chain;
mod evidence;
#[cfg(test)]
mod evidence_tests;
mod given;
mod laws;
mod queue;
mod refutation;
mod stage_evidence;
#[cfg(test)]
mod tests;
mod written;

pub use evidence::Evidence;
pub use given::shown;
pub use laws::{
    growth_keeps_failing, no_order_passes_failing_set, passing_is_being_shown,
    queueing_never_falls, shown_numbers_pass, test_depends_on_sets,
};
pub use queue::least_queue;
pub use refutation::{evidence_denies_passing, refuted, refuted_blocked};
pub use stage_evidence::{evidence_of, stage_has_one_evidence};
pub use written::{last_passes, passes, worst_response};
