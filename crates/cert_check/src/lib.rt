//! Whether a certificate shows what it says of a matrix.
//!
//! The one contract that upper crates use is that of [`check_cert`]: it answers by the acceptance rule, with
//! the verdict of the certificate's kind or the first part that fails, and where it gives a verdict, what
//! follows from it holds. The law [`accepted_holds`] says this of whatever the rule accepts.
//! A certificate is judged by [`CertWalk`] alone, event by event; [`check_cert`] and [`check_feed`] go by it.
//! A walk may pass over trees that are judged apart, by [`SubtreeJudge`]: the law [`found_in_full`] says what is
//! then found of the whole certificate.
#![tactic(auto)]

mod aims;
mod cert_walk;
mod check;
mod fault;
mod kinds;
mod laws;
mod node_place;
mod one_pass;
mod placing;
mod subtree;
mod tree;
mod walk;

pub use aims::{lemma_aim, main_aim};
pub use bandwidth_bound::Verdict;
pub use cert_walk::CertWalk;
pub use check::check_cert;
pub use fault::CheckFault;
pub use laws::{
    accepted_holds, event_taken, failed_stays, found_in_full, hole_taken, holes_aimed, holes_stay,
    stands_in_full, subtree_taken,
};
pub use one_pass::{FeedCheck, check_feed};
pub use subtree::SubtreeJudge;
pub use walk::Aim;

#[cfg(test)]
mod tests;
