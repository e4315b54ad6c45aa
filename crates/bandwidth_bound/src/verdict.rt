//! Verdicts, and the parts of the acceptance rule.

/// What a certificate shows. Loads and bounds are in ticks a common period; `lower` is in eighths of them.
#[derive(Clone, Copy, Debug, PartialEq, Eq)]
pub enum Verdict {
    /// The matrix is placed.
    Placed,
    /// The matrix is placed, and each frame passes the written test.
    Timed {
        /// The matrix's load.
        load: u128,
    },
    /// No grouping in which each frame can pass has a load below the bound.
    Between {
        /// The matrix's load, if it has rows.
        best: Option<u128>,
        /// The bound, in eighths of ticks.
        lower: u128,
    },
    /// The matrix is placed, each frame passes the written test, and no load is less.
    Best {
        /// The matrix's load.
        load: u128,
    },
    /// No grouping has an order in which each frame passes.
    NoSolution,
}

/// A part of the acceptance rule, in the order in which they are judged.
#[derive(Clone, Copy, Debug, PartialEq, Eq)]
pub enum Part {
    /// The matrix is placed.
    Matrix,
    /// Each frame is shown to pass the written test.
    Timing,
    /// The trees show what the kind says.
    Tree,
}
