//! Runs of a CAN FD bus: which ones arbitration, periods and jitters allow, and that no release of a frame
//! that is shown to pass is late in one.
//!
//! The frames of a bus are listed by ascending identifier, at most 128 of them. A run is a list of releases,
//! a list of sends and a time up to which it goes. It stands where it meets the rules of [`run_stands`]: one
//! send is one step, a frame that is queued by the start of a send contends for it, one that is queued less
//! than a nominal bit later may contend or not, and the lowest identifier of those that contend is sent (ISO
//! 11898-1; that the bit in which a frame may still join is one nominal bit is a rule of this repository).
//! There are no error frames.
//!
//! All times are whole ticks. No call but [`play`] takes memory, and each returns for every run.
#![tactic(auto)]

mod late;
mod laws;
mod playing;
mod releases;
mod run;
mod sends;
mod stands;
#[cfg(test)]
mod tests;
mod unsent;

pub use late::first_late;
pub use laws::{
    all_shown_are_never_late, broken_runs_do_not_stand, one_run_follows_picks, shown_is_never_late,
};
pub use playing::{Pick, play};
pub use run::{BusFrame, Release, Run, Sent, run_of};
pub use stands::{Broken, run_stands};
