//! The texts of a network and of signals: NETWORK is one JSON object, SIGNALS is CSV.
//!
//! The one contract that upper crates use is that each reader gives exactly the value of its text, or the
//! first refusal, and that what is written reads back.
#![tactic(auto)]

mod network;
mod signals;

pub use network::{NetworkFault, read_network, write_network};
pub use signals::{SignalsFault, read_signals, write_signals};

#[cfg(test)]
mod tests;
