//! Marked subtrees of a certificate's trees, judged by several workers with the answer of one.
//!
//! [`check_shards`] answers what the acceptance rule says of each subtree at its own place, whatever the number
//! of workers is. The law [`answer_is_one`] says that no two answers differ, want of memory aside.
#![tactic(auto)]

mod checking;
mod feed_par;
mod gathering;
mod judging;
mod laws;
mod shard;
mod shard_walk;

pub use checking::check_shards;
pub use feed_par::check_feed_par;
pub use laws::answer_is_one;
pub use shard::{Goal, Joined, Shard};

#[cfg(test)]
mod tests;
