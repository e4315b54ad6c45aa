//! The text of a certificate: its grammar, read and written exactly.
//!
//! The contract that upper crates use is that [`read_cert`] gives exactly the certificate of a text, or why it has
//! none, and that what [`write_cert`] wrote is read back.
#![tactic(auto)]

mod against;
mod builder;
mod cut;
mod event;
mod fault;
mod feed;
mod hearing;
mod judge;
mod line;
mod lines;
mod node;
mod number;
mod parts;
mod position;
mod reading;
mod source;
mod symbol;
mod words;
mod writing;

pub use event::Event;
pub use fault::{CertFault, FeedFault};
pub use feed::CertFeed;
pub use parts::{Cert, FrameLine, Kind, Lemma, Refuted, Tree};
pub use reading::read_cert;
pub use writing::write_cert;

#[cfg(test)]
mod tests;
