//! What is found at a place of a search: the lower bound, lowest-priority-first assignment, and evidence.
//!
//! The one contract that upper crates use is that of [`SearchJudge`], the judge of tree_search: with the best load
//! so far it finds that the bound reaches it, or else that the classes so far can't all be in time, or else that
//! each item has a label, or else that items are left.
#![tactic(auto)]

mod judge;
mod laws;
mod stuck;
#[cfg(test)]
mod tests;

pub use judge::SearchJudge;
pub use laws::{findings_show, one_is_found, problem_stands};
