//! The lines of certificates.
use crate::parts::{FrameLine, Kind};
use response_test::Evidence;

/// A line of a certificate.
#[derive(Debug, Drop)]
pub(crate) enum Line {
    /// `canpack certificate 1`
    FirstLine,
    /// `kind` and its name
    KindLine(Kind),
    /// `frame` and numbers
    FrameWords(FrameLine),
    /// `lemma` and two numbers
    LemmaWords {
        /// The sender's number.
        sender: u32,
        /// The bound.
        value: u128,
    },
    /// `main`
    MainLine,
    /// `i` and how many subtrees follow
    InnerLine(u32),
    /// `b`
    BoundLine,
    /// `o`
    OpenLine,
    /// `f` and how many lines of evidence follow
    FailLine(u32),
    /// evidence against the class with this label
    AgainstLine(u32, Evidence),
    /// `shard`
    ShardLine,
    /// `join`
    JoinLine,
    /// `end`
    EndLine,
}
