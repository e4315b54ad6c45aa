//! The top call of canpack: it judges the words, reads the files that they name, and says one line.
//!
//! The one contract is that of [`canpack`]: each status comes only where the words, the bytes of the files or the
//! counted faults give its cause, and what is said and left at each status.
#![tactic(auto)]

mod case_plan;
mod check;
mod command;
mod ending;
mod files;
mod line;
mod make;
mod plan;
mod planning;
mod problem;
mod reading;
mod refusal;
mod run;
mod steady;
mod stopping;
mod texts;
mod top;
mod verdict;
mod writing;

pub use command::{Command, command_of};
pub use steady::canpack_steady;
pub use top::canpack;
