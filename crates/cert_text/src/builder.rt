//! The certificate that events make.
ghost use Rattle.std.specs.Prelude.{◌≡◌, OnOk, IfOk, Some, None, [], map};
ghost use Rattle.std.specs.Option.{option_map};
ghost use Rattle.cert_text.specs.declared.event.Event.TheVariants as event;
ghost use Rattle.cert_text.specs.PlainTree.{plain_lemma, plain_of};
ghost use Rattle.cert_text.specs.Making.{cert_made, make, nothing_made, put_tree, with_tree};
ghost use Rattle.cert_text.specs.Parts.{HasParts};
ghost use Rattle.cert_text.specs.MadeBy.{made_by, nodes_of};

use crate::event::Event;
use crate::parts::{Cert, FrameLine, Kind, Lemma, Tree};
use pack_model::Memory;
use std::alloc::Global;

/// An inner node that lacks so many subtrees after the next, and those that it has.
#[derive(Debug, Drop)]
pub(crate) struct Unfinished {
    /// How many it lacks after the next.
    pub lacking: u32,
    /// Those that it has.
    pub done: Vec<Tree>,
}

/// What the events so far make.
#[derive(Debug, Drop)]
pub(crate) struct Builder {
    kind: Kind,
    frames: Vec<FrameLine>,
    lemmas: Vec<Lemma>,
    goal: Option<(u32, u128)>,
    nodes: Vec<Unfinished>,
    main: Option<Tree>,
    alloc: Global,
}

impl Builder {
    /// What no event makes.
    pub fn new(alloc: Global) -> Builder
        ensures { made_by result ≡ nothing_made }
    {
        Builder {
            kind: Kind::KindPlaced,
            frames: Vec::new(alloc),
            lemmas: Vec::new(alloc),
            goal: None,
            nodes: Vec::new(alloc),
            main: None,
            alloc,
        }
    }

    // A whole tree ends.
    fn end_tree(&mut self, tree: Tree) -> Result<(), Memory>
        requires { nodes_of self.old.nodes.items ≡ [] }
        ensures { OnOk result (made_by self.new ≡ with_tree self.old.goal (plain_of tree) (made_by self.old)) }
    {
        match self.goal {
            Some((sender, value)) => {
                self.lemmas.push(Lemma {
                    sender,
                    value,
                    tree,
                })?;
            }
            None => {
                self.main = Some(tree);
            }
        }
        Ok(())
    }

    // Puts a tree where the next one is lacking.
    fn put(&mut self, tree: Tree) -> Result<(), Memory>
        ensures { OnOk result
            (made_by self.new ≡ put_tree (plain_of tree) (nodes_of self.old.nodes.items) (made_by self.old)) }
    {
        let mut tree = tree;
        while let Some(mut node) = self.nodes.pop() {
            node.done.push(tree)?;
            if node.lacking > 0 {
                node.lacking -= 1;
                self.nodes.push(node)?;
                return Ok(());
            }
            tree = Tree::Inner(node.done);
        }
        self.end_tree(tree)
    }

    // An inner node begins.
    fn begin(&mut self, count: u32) -> Result<(), Memory>
        ensures { OnOk result (made_by self.new ≡ make (made_by self.old) (event.Node count)) }
    {
        if count == 0 {
            return self.put(Tree::Inner(Vec::new(self.alloc)));
        }
        self.nodes.push(Unfinished {
            lacking: count - 1,
            done: Vec::new(self.alloc),
        })?;
        Ok(())
    }

    /// Takes one event more.
    pub fn take(&mut self, event: Event) -> Result<(), Memory>
        ensures { OnOk result (made_by self.new ≡ make (made_by self.old) event) }
    {
        match event {
            Event::Head(kind) => {
                self.kind = kind;
            }
            Event::FrameOf(frame) => {
                self.frames.push(frame)?;
            }
            Event::LemmaOf { sender, value } => {
                self.goal = Some((sender, value));
            }
            Event::Main => {
                self.goal = None;
            }
            Event::Node(count) => return self.begin(count),
            Event::BoundLeaf => return self.put(Tree::Bound),
            Event::OpenLeaf => return self.put(Tree::Left),
            Event::FailLeaf(refuted) => return self.put(Tree::Fail(refuted)),
            Event::ShardMark | Event::JoinMark | Event::Finish => {}
        }
        Ok(())
    }

    /// The certificate, where what was made has the parts of its kind.
    pub fn into_cert(self) -> Cert
        requires { HasParts self.kind self.frames.items (made_by self).lemmas (made_by self).main }
        ensures { result ≡ cert_made (made_by self) }
    {
        Cert::of(self.kind, self.frames, self.lemmas, self.main)
    }
}
