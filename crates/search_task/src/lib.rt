//! A search over all items of a problem that stops between turns and goes on.
//!
//! The one contract that upper crates use is that of [`Task`]: a tree at a partial grouping, which each turn
//! takes some steps further.
#![tactic(auto)]

mod placing;
mod task;
#[cfg(test)]
mod tests;

pub use task::Task;
