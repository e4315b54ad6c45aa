//! The nodes that one line tells whole, read where the line stands.
ghost use Rattle.std.specs.Prelude.{◌≡◌, ◌∷◌, IfSome};
ghost use Rattle.cert_text.specs.Nodes.{BeginsNode, node_event};

use crate::event::Event;
use crate::number::number_until;
use crate::parts::Refuted;
use std::alloc::Global;

/// A node that one line tells whole.
#[derive(Clone, Copy, Debug)]
pub(crate) enum Node {
    /// An inner node with so many subtrees.
    Inner(u32),
    /// A bound leaf.
    Bound,
    /// An open leaf.
    Open,
    /// A fail leaf without evidence.
    Fail,
}

impl Node {
    /// Its event.
    #[inline(always)]
    pub fn event(self, alloc: Global) -> Event
        ensures { result ≡ node_event self }
    {
        match self {
            Node::Inner(count) => Event::Node(count),
            Node::Bound => Event::BoundLeaf,
            Node::Open => Event::OpenLeaf,
            Node::Fail => Event::FailLeaf(Refuted::of(Vec::new(alloc))),
        }
    }
}

// An inner node, from its number on.
#[inline(always)]
fn inner_in(bytes: &[u8]) -> Option<(Node, &[u8])>
    ensures { IfSome result (λ x. BeginsNode (105 ∷ 32 ∷ bytes.now) x.0 x.1.now) }
{
    let (count, after) = number_until(bytes, b'\n')?;
    if count < 1 || count > 128 {
        return None;
    }
    Some((Node::Inner(count as u32), after))
}

// A fail leaf without evidence, from its number on.
fn fail_in(bytes: &[u8]) -> Option<(Node, &[u8])>
    ensures { IfSome result (λ x. BeginsNode (102 ∷ 32 ∷ bytes.now) x.0 x.1.now) }
{
    let (count, after) = number_until(bytes, b'\n')?;
    if count > 0 {
        return None;
    }
    Some((Node::Fail, after))
}

/// The node whose line the bytes begin with, and the bytes after its LF.
#[inline(always)]
pub(crate) fn node_in(bytes: &[u8]) -> Option<(Node, &[u8])>
    ensures { IfSome result (λ x. BeginsNode bytes.now x.0 x.1.now) }
{
    let (first, rest) = bytes.split_first()?;
    let (second, after) = rest.split_first()?;
    match (*first, *second) {
        (b'b', b'\n') => Some((Node::Bound, after)),
        (b'i', b' ') => inner_in(after),
        (b'o', b'\n') => Some((Node::Open, after)),
        (b'f', b' ') => fail_in(after),
        _ => None,
    }
}
