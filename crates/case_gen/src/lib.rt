//! Generated cases: a network and signals that follow from a number alone, for measuring and for trying out.
//!
//! The contract is that of [`make_case`]: its answer is the definition's case of that number, and its network
//! and signals stand. [`problem_of_case`] gives its problem, and [`case_stands`] is the law that no case is
//! refused.
#![tactic(auto)]

mod draws;
mod generate;
mod problem;
#[cfg(test)]
mod tests;

pub use generate::{Case, make_case};
pub use problem::{case_stands, problem_of_case};
