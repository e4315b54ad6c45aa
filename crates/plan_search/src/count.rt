//! How many nodes trees have.
ghost use Rattle.std.specs.Prelude.{◌≡◌, ◌-◌, ◌^◌, map, min};
ghost use Rattle.cert_text.specs.PlainTree.{onto, plain_of};
ghost use Rattle.cert_text.specs.Trees.{none};
ghost use Rattle.tree_search.specs.Open.{nodes_in, nodes_of};

use cert_text::Tree;

/// How many nodes besides open leaves some trees have, at most 2 to the power of 64 less 1.
#[cycle(tree)]
fn count_each(trees: &Vec<Tree>) -> u64
    ensures { result ≡ min (nodes_in (onto (map plain_of trees.now.items) none)) (2 ^ 64 - 1) }
{
    let mut count: u64 = 0;
    for tree in trees {
        count = count.saturating_add(count_nodes(tree));
    }
    count
}

/// How many nodes besides open leaves a tree has, at most 2 to the power of 64 less 1.
#[cycle(tree)]
pub(crate) fn count_nodes(tree: &Tree) -> u64
    ensures { result ≡ min (nodes_of (plain_of tree.now)) (2 ^ 64 - 1) }
{
    match tree {
        Tree::Inner(trees) => count_each(trees).saturating_add(1),
        Tree::Bound => 1,
        Tree::Left => 0,
        Tree::Fail(_) => 1,
    }
}
