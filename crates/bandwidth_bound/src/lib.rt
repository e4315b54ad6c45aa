//! What a certificate can show of a problem and a matrix: the acceptance rule and its verdicts.
//!
//! The rule is definitions: its parts by the certificate's kind, the verdict where all hold, the part that
//! fails first, and what follows from a verdict. The laws say what a tree that stands shows of all groupings,
//! that no load falls as items are put, that the lower bound is below each completion, and that a failing set
//! is final. `refutes` judges evidence against some frames by its numbers.
#![tactic(auto)]

mod bounds;
mod covering;
mod failing;
#[cfg(test)]
mod failing_tests;
mod final_laws;
mod floors;
mod price_laws;
mod verdict;

pub use bounds::{load8, loads_fit, lower8};
pub use covering::{
    fail_leaves_hold, leaves_cover, shown_is_solvable, standing_lemmas_hold, standing_trees_claim,
    standing_trees_hold,
};
pub use failing::{order_below, refutes, remaining};
pub use final_laws::{
    classes_extend, fail_set_is_final, failing_is_final, failing_sets_grow, loads_never_fall,
    refuted_is_failing,
};
pub use floors::Floors;
pub use price_laws::{bound_is_below, bound_is_exact, bound_is_more, prices_are_below};
pub use verdict::{Part, Verdict};
