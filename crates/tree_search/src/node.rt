//! The nodes of a flat tree.
ghost use Rattle.std.specs.Prelude.{◌≡◌, ◌<◌, ◌++◌, ◌∷◌, [], OnOk};
ghost use Rattle.std.specs.Vec.{vec_capacity, vec_len};

use cert_text::Refuted;
use pack_model::Memory;

/// A node of a flat tree, which lists the nodes of a tree in preorder.
#[derive(Debug, Drop)]
pub enum Node {
    /// An inner node: so many subtrees follow.
    Inner(usize),
    /// A bound leaf.
    Bound,
    /// An open leaf.
    Left,
    /// A fail leaf, with evidence against classes.
    Fail(Refuted),
}

// Takes room for one node more where there is none.
fn make_room(nodes: &mut Vec<Node>) -> Result<(), Memory>
    ensures items { nodes.new.items ≡ nodes.old.items }
    ensures room { OnOk result (vec_len nodes.new < vec_capacity nodes.new) }
{
    if nodes.len() < nodes.capacity() {
        return Ok(());
    }
    nodes.reserve(1)?;
    Ok(())
}

// Puts a node at the end of a list: where it is, without a call in which it would be copied.
#[inline(always)]
pub(crate) fn put_node(nodes: &mut Vec<Node>, node: Node) -> Result<(), Memory>
    ensures { OnOk result (nodes.new.items ≡ nodes.old.items ++ node ∷ []) }
{
    make_room(nodes)?;
    nodes.push_reserved(node);
    Ok(())
}
