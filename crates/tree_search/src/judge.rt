//! Who says what is found at a place of a search.
ghost use Rattle.std.specs.Prelude.{ℕ, ◌≡◌, ◌<◌, ◌++◌, List, true, [], ◌∷◌, Option, length, IfOk};
ghost use Rattle.pack_model.specs.declared.item.Item.{Item};
ghost use Rattle.pack_model.specs.Problem.{Parts};
ghost use Rattle.grouping_tree.specs.Grouped.{Belongs, labels_of, range_of};
ghost use Rattle.grouping_tree.specs.Partial.{IsPartial};
ghost use Rattle.tree_search.specs.declared.finding.Finding.{Finding};

use crate::finding::Finding;
use grouping_tree::Partial;
use pack_model::{Memory, Problem};

/// What judges the places of a search over the items of a problem. It may keep what it learns from one place to
/// the next; what it may find at a place stays the same.
pub trait Judge {
    /// The judge judges places over these items of a problem.
    ghost suits: { Self → Parts → List Item → Type 0 };

    /// The lower bound at a partial grouping of some items of a problem, in eighths of ticks a common period.
    ghost bound_of: { Self → Parts → List Item → List ℕ → ℕ };

    /// With a best load so far, if there is one, this is found at a partial grouping of some items of a
    /// problem.
    ghost finds: { Self → Parts → List Item → Option ℕ → List ℕ → Finding → Type 0 };

    /// The lower bound, in eighths of ticks a common period.
    fn lower8(&self, problem: &Problem, partial: &Partial) -> u128
        requires belongs { Belongs problem.now partial.now }
        requires suits { suits self.now problem.now (range_of problem.now partial.now) }
        ensures { result
            ≡ bound_of self.now problem.now (range_of problem.now partial.now) (labels_of partial.now) };

    /// Whether the lower bound reaches the best load once the next item has a label that may be put next.
    fn is_bounded(
        &self,
        problem: &Problem,
        partial: &Partial,
        label: u32,
        best: Option<u128>,
    ) -> bool
        requires belongs { Belongs problem.now partial.now }
        requires suits { suits self.now problem.now (range_of problem.now partial.now) }
        requires legal { IsPartial (range_of problem.now partial.now)
            (labels_of partial.now ++ label ∷ []) }
        ensures { result ≡ true → finds self.now problem.now (range_of problem.now partial.now) best
            (labels_of partial.now ++ label ∷ []) Finding.Bounded };

    /// What is found, where `best` is the best load so far in ticks a common period, if there is one. After an
    /// error nothing is known of the judge but what it may find.
    fn find(
        &mut self,
        problem: &Problem,
        partial: &Partial,
        best: Option<u128>,
    ) -> Result<Finding, Memory>
        requires belongs { Belongs problem.now partial.now }
        requires suits { suits self.old problem.now (range_of problem.now partial.now) }
        ensures suits { (parts : Parts) (items : List Item)
            → suits self.old parts items → suits self.new parts items }
        ensures found { IfOk result
            (finds self.old problem.now (range_of problem.now partial.now) best (labels_of partial.now)) }
        ensures left { IfOk result (λ finding. finding ≡ Finding.Parted
            → length (labels_of partial.now) < length (range_of problem.now partial.now)) }
        ensures bounds { bound_of self.new ≡ bound_of self.old }
        ensures same { (parts : Parts) (items : List Item) (load : Option ℕ) (p : List ℕ) (finding : Finding)
            → finds self.new parts items load p finding → finds self.old parts items load p finding };
}
