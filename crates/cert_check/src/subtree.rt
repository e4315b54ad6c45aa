//! Trees that stand at a partial grouping, judged by themselves.
ghost use Rattle.std.specs.Prelude.{◌≡◌, ◌<◌, ℕ, List, IfOk, IfSome, length};
ghost use Rattle.cert_text.specs.PlainTree.{plain_of};
ghost use Rattle.grouping_tree.specs.Grouped.{items_in};
ghost use Rattle.grouping_tree.specs.Partial.{IsPartial};
ghost use Rattle.cert_check.specs.Subtree.{IsFoundAt, IsJudge};
ghost use Rattle.cert_check.specs.Walk.{goal_of, values_in};

use crate::fault::CheckFault;
use crate::tree::take_tree;
use crate::walk::{Aim, Walk};
use cert_text::Tree;
use pack_model::{Memory, Problem};
use std::alloc::Global;

/// A judge of trees, each at a partial grouping of its range, by bounds with the values of lemmas.
#[derive(Drop)]
pub struct SubtreeJudge {
    walk: Walk,
}

impl SubtreeJudge {
    /// A judge by bounds with the values of the lemmas of all senders, in eighths of ticks a common period, 0
    /// where there is none. It takes all the memory that later calls need. The only error is want of memory.
    pub fn new(alloc: Global, problem: &Problem, values: &[u128]) -> Result<SubtreeJudge, Memory>
        requires { length values.now ≡ length problem.now.senders }
        ensures { IfOk result (IsJudge problem.now values.now) }
    {
        let mut walk = Walk::new(alloc, problem)?;
        walk.keep_values(values);
        Ok(SubtreeJudge { walk })
    }

    /// The least bound at the open leaves of a tree, in eighths of ticks a common period, if there is one, where
    /// the tree stands at a partial grouping of its range. Bounds over one sender's items use no lemmas. It takes
    /// no memory.
    ///
    /// # Errors
    ///
    /// `RejectedTree` where the tree doesn't stand there.
    pub fn judge(
        &mut self,
        problem: &Problem,
        aim: Aim,
        place: &[u32],
        tree: &Tree,
    ) -> Result<Option<u128>, CheckFault>
        requires judge { (values : List ℕ) × IsJudge problem.now values self.old }
        requires range { IfSome aim.range (λ sender. sender < length problem.now.senders) }
        requires legal { IsPartial (items_in problem.now.items aim.range) place.now }
        ensures judge { (values : List ℕ) → IsJudge problem.now values self.old
            → IsJudge problem.now values self.new }
        ensures found { (values : List ℕ) → IsJudge problem.now values self.old
            → IsFoundAt (goal_of problem.now (values_in aim.range values) aim) place.now (plain_of tree.now)
            result }
    {
        self.walk.begin_at(problem, aim, place);
        take_tree(&mut self.walk, problem, tree);
        if self.walk.has_failed() {
            return Err(CheckFault::RejectedTree);
        }
        Ok(self.walk.least())
    }
}
