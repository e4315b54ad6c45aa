//! The tree of a flat list of nodes, and the other way round.
ghost use Rattle.std.specs.Prelude.{◌≡◌, ◌≤◌, ◌++◌, List, length, map, IfOk, OnOk};
ghost use Rattle.std.specs.Vec.Iter.{into_iter_items, into_iter_len};
ghost use Rattle.cert_text.specs.Trees.{Plain};
ghost use Rattle.cert_text.specs.PlainTree.{plain_of};
ghost use Rattle.tree_search.specs.declared.node.Node.{Node};
ghost use Rattle.tree_search.specs.Flat.{flat, flats};

use crate::node::Node;
use cert_text::Tree;
use pack_model::Memory;
use std::alloc::Global;
use std::vec::IntoIter;

// Takes so many trees from the front of some nodes in preorder.
#[cycle(take)]
fn take_trees(alloc: Global, nodes: &mut IntoIter<Node>, count: usize) -> Result<Vec<Tree>, Memory>
    ensures fewer { into_iter_len nodes.new ≤ into_iter_len nodes.old }
    ensures firsts { IfOk result (λ trees. (ts : List Plain) (rest : List Node) → length ts ≡ count
        → into_iter_items nodes.old ≡ flats ts ++ rest
        → (map plain_of trees.items ≡ ts) × (into_iter_items nodes.new ≡ rest)) }
{
    let mut trees = Vec::with_capacity(alloc, count)?;
    for _k in 0..count {
        let tree = take_tree(alloc, nodes)?;
        trees.push_reserved(tree);
    }
    Ok(trees)
}

// Takes a tree from the front of some nodes in preorder: an open leaf where none is left.
#[cycle(take)]
#[inline(always)]
fn take_tree(alloc: Global, nodes: &mut IntoIter<Node>) -> Result<Tree, Memory>
    ensures fewer { into_iter_len nodes.new ≤ into_iter_len nodes.old }
    ensures first { IfOk result (λ tree. (t : Plain) (rest : List Node)
        → into_iter_items nodes.old ≡ flat t ++ rest
        → (plain_of tree ≡ t) × (into_iter_items nodes.new ≡ rest)) }
{
    match nodes.next() {
        Some(Node::Inner(count)) => {
            let trees = take_trees(alloc, nodes, count)?;
            Ok(Tree::Inner(trees))
        }
        Some(Node::Bound) => Ok(Tree::Bound),
        Some(Node::Left) => Ok(Tree::Left),
        Some(Node::Fail(refuted)) => Ok(Tree::Fail(refuted)),
        None => Ok(Tree::Left),
    }
}

/// The tree of its nodes in preorder.
pub fn tree_of(alloc: Global, nodes: Vec<Node>) -> Result<Tree, Memory>
    ensures { IfOk result (λ tree. (t : Plain) → flat t ≡ nodes.items → plain_of tree ≡ t) }
{
    let mut nodes = nodes.into_iter();
    let tree = take_tree(alloc, &mut nodes)?;
    Ok(tree)
}
/// Puts the nodes of a tree in preorder at the end of a list.
pub fn flatten(tree: Tree, nodes: &mut Vec<Node>) -> Result<(), Memory>
    ensures { OnOk result (nodes.new.items ≡ nodes.old.items ++ flat (plain_of tree)) }
{
    match tree {
        Tree::Inner(children) => {
            nodes.push(Node::Inner(children.len()))?;
            for child in children {
                flatten(child, nodes)?;
            }
        }
        Tree::Bound => {
            nodes.push(Node::Bound)?;
        }
        Tree::Left => {
            nodes.push(Node::Left)?;
        }
        Tree::Fail(refuted) => {
            nodes.push(Node::Fail(refuted))?;
        }
    }
    Ok(())
}
