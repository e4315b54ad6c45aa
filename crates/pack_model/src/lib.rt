//! The problem that canpack plans and checks: the network, the signals, and what follows from them,
//! with the small list types that contracts see as lists.
//!
//! The one contract that upper crates use is that of [`problem_of`]: it gives the items, the senders
//! and the signals of a problem, or the first refusal.
#![tactic(auto)]

mod item;
mod items;
mod lists;
mod memory;
mod name;
mod network;
mod period;
mod problem;
mod signal;

pub use item::Item;
pub use lists::{Chain, Labels, Payload, Values};
pub use memory::Memory;
pub use name::{Name, NameFault};
pub use network::{Network, network_stands};
pub use period::MAX_HYPER;
pub use problem::{MAX_ITEMS, MAX_SIGNALS, Problem, ProblemFault, problem_of};
pub use signal::{Signal, Signals, signal_stands};
