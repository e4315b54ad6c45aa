//! A marked tree, put together from its events.
ghost use Rattle.std.specs.Prelude.{◌≡◌, ◌∷◌, []};
ghost use Rattle.cert_text.specs.CertEvents.{tree_events};
ghost use Rattle.cert_text.specs.declared.event.Event.TheVariants as event;
ghost use Rattle.par_check.specs.Gathered.{Gathers, IsOfTree, bare_of, open_events};

use cert_text::{Event, Tree};
use pack_model::Memory;
use std::alloc::Global;

/// An inner node that lacks so many subtrees after the next, and those that it has.
#[derive(Debug, Drop)]
pub(crate) struct OpenNode {
    /// How many it lacks after the next.
    pub lacking: u32,
    /// Those that it has.
    pub subtrees: Vec<Tree>,
}

/// A tree as far as its events were taken.
#[derive(Debug, Drop)]
pub(crate) struct Gathering {
    alloc: Global,
    /// The innermost last.
    nodes: Vec<OpenNode>,
}

/// What the events of a tree make.
#[derive(Debug, Drop)]
pub(crate) enum Gathered {
    /// A part of it.
    Part(Gathering),
    /// The whole tree.
    Whole(Tree),
}

impl Gathering {
    /// A tree of which no event was taken.
    pub fn new(alloc: Global) -> Gathering
        ensures { open_events result.nodes.items ≡ [] }
    {
        Gathering {
            alloc,
            nodes: Vec::new(alloc),
        }
    }

    /// Puts a tree where the next one is lacking.
    fn put(mut self, tree: Tree) -> Result<Gathered, Memory>
        ensures { Gathers self.nodes.items result (tree_events (bare_of tree)) }
    {
        let mut tree = tree;
        while let Some(mut node) = self.nodes.pop() {
            node.subtrees.push(tree)?;
            if node.lacking > 0 {
                node.lacking -= 1;
                self.nodes.push(node)?;
                return Ok(Gathered::Part(self));
            }
            tree = Tree::Inner(node.subtrees);
        }
        Ok(Gathered::Whole(tree))
    }

    /// An inner node begins.
    fn begin(mut self, subtrees: u32) -> Result<Gathered, Memory>
        ensures { Gathers self.nodes.items result (event.Node subtrees ∷ []) }
    {
        if subtrees == 0 {
            let none = Tree::Inner(Vec::new(self.alloc));
            return self.put(none);
        }
        self.nodes.push(OpenNode {
            lacking: subtrees - 1,
            subtrees: Vec::new(self.alloc),
        })?;
        Ok(Gathered::Part(self))
    }

    /// Takes the next event of the tree.
    pub fn take(self, event: Event) -> Result<Gathered, Memory>
        requires { IsOfTree event }
        ensures { Gathers self.nodes.items result (event ∷ []) }
    {
        match event {
            Event::Node(subtrees) => self.begin(subtrees),
            Event::BoundLeaf => self.put(Tree::Bound),
            Event::OpenLeaf => self.put(Tree::Left),
            Event::FailLeaf(refuted) => self.put(Tree::Fail(refuted)),
            _ => Ok(Gathered::Part(self)),
        }
    }
}
