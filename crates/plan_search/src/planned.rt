//! What is planned.
use bandwidth_bound::Verdict;
use cert_text::Cert;
use matrix_text::Matrix;

/// A plan within a budget of branches.
#[derive(Debug, Drop)]
pub enum Planned {
    /// The matrix has the least load: the certificate of the kind `best` shows it.
    Best(Matrix, Cert),
    /// No grouping can meet all deadlines: the certificate of the kind `none` shows it.
    NoSolution(Cert),
    /// The branches are spent: the best matrix so far, if there is one, and the certificate of the kind `open`,
    /// which shows a lower bound.
    Spent(Option<Matrix>, Cert),
}

/// What is planned, and the verdict that its certificate shows.
#[derive(Debug, Drop)]
pub struct Told {
    /// The plan.
    pub planned: Planned,
    /// What its certificate shows.
    pub verdict: Verdict,
}
