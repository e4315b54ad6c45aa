//! The planning of a matrix and its certificate.
//!
//! The one contract that upper crates use is that of [`plan`]: what is planned within a budget of branches, which the
//! acceptance rule accepts. [`plan_alone`] gives each item a frame of its own, in an order in which each frame passes
//! the response-time test, wherever there is one, and shows it by a certificate of the kind `timed`.
#![tactic(auto)]

mod alone;
mod beginning;
mod count;
mod ending;
mod finishing;
mod first;
mod laws;
mod lines;
mod planned;
mod planning;
mod searching;
mod shown;
mod together;
mod turns;

pub use alone::{Alone, load_alone, plan_alone};
pub use beginning::{Begun, begin};
pub use finishing::finish;
pub use laws::{plan_alone_is_one, plan_is_one};
pub use planned::{Planned, Told};
pub use planning::{plan, plan_shown};
pub use search_task::Task;
