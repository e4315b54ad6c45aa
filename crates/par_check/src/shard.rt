//! Marked subtrees, and what they are to show.
use cert_text::{Kind, Tree};
use pack_model::{Labels, Values};

/// A marked subtree of a certificate, with the place where it stands.
#[derive(Debug, Drop)]
pub struct Shard {
    /// Its number in the certificate, from 0.
    pub number: usize,
    /// The sender of the lemma in whose tree it stands; none in the main tree.
    pub lemma: Option<u32>,
    /// The labels of the place.
    pub path: Labels,
    /// The subtree.
    pub tree: Tree,
}

/// What the trees of a certificate are to show.
#[derive(Debug, Drop)]
pub struct Goal {
    /// What the certificate is to show.
    pub kind: Kind,
    /// The load of the matrix in ticks a common period, if it has rows.
    pub best: Option<u128>,
    /// The values of the lemmas by sender, in eighths of ticks a common period, 0 where there is none.
    pub lemmas: Values,
}

/// What marked subtrees show together.
#[derive(Clone, Copy, Debug, PartialEq, Eq)]
pub struct Joined {
    /// The least lower bound at the open leaves in the main tree, in eighths of ticks a common period; none
    /// where no leaf is open.
    pub lower: Option<u128>,
}
