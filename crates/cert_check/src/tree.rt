//! The walk over a whole tree.
ghost use Rattle.std.specs.Prelude.{map};
ghost use Rattle.cert_text.specs.PlainTree.{onto, plain_of};
ghost use Rattle.cert_text.specs.Trees.{inner, none};
ghost use Rattle.cert_check.specs.Nodes.{Takes, nodes_of};
ghost use Rattle.cert_check.specs.Walk.{IsWalk, Keeps, goal_in, way_of};

use crate::walk::Walk;
use cert_text::Tree;
use pack_model::Problem;

/// Takes the nodes of a tree whose root is an inner node.
#[cycle(tree)]
fn take_subtrees(walk: &mut Walk, problem: &Problem, subtrees: &Vec<Tree>)
    requires { IsWalk problem.now walk.old }
    ensures walks { IsWalk problem.now walk.new }
    ensures keeps { Keeps walk.old walk.new }
    ensures takes { Takes (goal_in problem.now walk.old) (way_of problem.now walk.old)
        (way_of problem.now walk.new)
        (nodes_of (inner (onto (map plain_of subtrees.now.items) none))) }
{
    walk.take_inner(problem, subtrees.len());
    for subtree in subtrees {
        take_tree(walk, problem, subtree);
    }
}

/// Takes the nodes of a tree, as long as the walk hasn't failed: so it goes no deeper than there are items.
#[cycle(tree)]
pub(crate) fn take_tree(walk: &mut Walk, problem: &Problem, tree: &Tree)
    requires { IsWalk problem.now walk.old }
    ensures walks { IsWalk problem.now walk.new }
    ensures keeps { Keeps walk.old walk.new }
    ensures takes { Takes (goal_in problem.now walk.old) (way_of problem.now walk.old)
        (way_of problem.now walk.new)
        (nodes_of (plain_of tree.now)) }
{
    if walk.has_failed() {
        return;
    }
    match tree {
        Tree::Inner(subtrees) => take_subtrees(walk, problem, subtrees),
        Tree::Bound => walk.take_bound(problem),
        Tree::Left => walk.take_open(problem),
        Tree::Fail(refuted) => walk.take_fail(problem, refuted.as_slice()),
    }
}
