//! Trimming of a flat tree.
ghost use Rattle.std.specs.Prelude.{◌≡◌, ◌≤◌, ◌<◌, ◌-◌, ◌+◌, ◌^◌, ◌++◌, [], ◌∷◌, List, true, length, take, MatchOption, OnOk, IfOk, IfSome};
ghost use Rattle.cert_text.specs.PlainTree.{plain_of};
ghost use Rattle.cert_text.specs.Trees.{Plain};
ghost use Rattle.grouping_tree.specs.Grouped.{Belongs, labels_of, range_of, room_of};
ghost use Rattle.grouping_tree.specs.Partial.{IsPartial};
ghost use Rattle.tree_search.specs.Flat.{flat, subtrees};
ghost use Rattle.tree_search.specs.Going.{places_on};
ghost use Rattle.tree_search.specs.Open.{HasOptions};
ghost use Rattle.tree_search.specs.Shown.{agenda};
ghost use Rattle.tree_search.specs.Trim.{Trims, reaches, trim as trim_of};

use crate::going::back;
use crate::judge::Judge;
use crate::node::{Node, put_node};
use crate::tree::{flatten, tree_of};
use cert_text::Tree;
use grouping_tree::Partial;
use pack_model::{Memory, Problem};
use std::alloc::Global;

// How far a trimming in preorder is.
#[derive(Drop)]
struct Trimming {
    // The number of labels at the root.
    base: usize,
    // The label from which the options at the partial grouping come next; none where all places are done.
    next: Option<u32>,
    // How many trees are to be passed over.
    skip: usize,
    // The nodes that are kept.
    kept: Vec<Node>,
}

impl Trimming {
    // Reads a node of a tree that is passed over.
    fn pass_over(&mut self, node: &Node)
        requires some { 0 < self.old.skip }
        requires room { self.old.skip - 1 + subtrees node.now < 2 ^ 64 }
        ensures { self.new ≡ record self.old { skip = self.old.skip - 1 + subtrees node.now } }
    {
        self.skip -= 1;
        if let Node::Inner(count) = node {
            self.skip += *count;
        }
    }

    // Reads an inner node of so many subtrees at the place, where none is passed over.
    fn inner<J: Judge>(
        &mut self,
        judge: &J,
        problem: &Problem,
        partial: &mut Partial,
        value: u128,
        count: usize,
    ) -> Result<(), Memory>
        requires belongs { Belongs problem.now partial.old }
        requires suits { J.suits judge.now problem.now (range_of problem.now partial.old) }
        requires below { self.old.base ≤ length (labels_of partial.old) }
        requires none { self.old.skip ≡ 0 }
        ensures belongs { Belongs problem.now partial.new }
        ensures range { range_of problem.now partial.new ≡ range_of problem.now partial.old }
        ensures room { room_of partial.new ≡ room_of partial.old }
        ensures base { self.new.base ≡ self.old.base }
        ensures below { self.old.base ≤ length (labels_of partial.new) }
        ensures front { take self.old.base (labels_of partial.new)
            ≡ take self.old.base (labels_of partial.old) }
        ensures gives { OnOk result (let items = range_of problem.now partial.old
            in let cut = reaches (J.bound_of judge.now problem.now items) value
            in (wanted rest : List Node)
            → Trims items cut wanted self.old.kept.items (Node.Inner count ∷ rest) 0
            (agenda items self.old.base (labels_of partial.old) true)
            → Trims items cut wanted self.new.kept.items rest self.new.skip
            (places_on items self.old.base (labels_of partial.new) self.new.next)) }
    {
        if is_cut(judge, problem, partial, value) {
            put_node(&mut self.kept, Node::Bound)?;
            self.skip = count;
            self.next = back(problem, partial, self.base);
            return Ok(());
        }
        put_node(&mut self.kept, Node::Inner(count))?;
        self.next = Some(0);
        Ok(())
    }

    // Reads the node at the root, before any other.
    fn root<J: Judge>(
        &mut self,
        judge: &J,
        problem: &Problem,
        partial: &mut Partial,
        value: u128,
        node: Node,
    ) -> Result<(), Memory>
        requires belongs { Belongs problem.now partial.old }
        requires suits { J.suits judge.now problem.now (range_of problem.now partial.old) }
        requires whole { self.old.base ≡ length (labels_of partial.old) }
        requires next { self.old.next ≡ None }
        requires none { self.old.skip ≡ 0 }
        ensures belongs { Belongs problem.now partial.new }
        ensures range { range_of problem.now partial.new ≡ range_of problem.now partial.old }
        ensures room { room_of partial.new ≡ room_of partial.old }
        ensures base { self.new.base ≡ self.old.base }
        ensures below { self.old.base ≤ length (labels_of partial.new) }
        ensures front { take self.old.base (labels_of partial.new) ≡ labels_of partial.old }
        ensures gives { OnOk result (let items = range_of problem.now partial.old
            in let cut = reaches (J.bound_of judge.now problem.now items) value
            in (wanted rest : List Node)
            → Trims items cut wanted self.old.kept.items (node ∷ rest) 0 (labels_of partial.old ∷ [])
            → Trims items cut wanted self.new.kept.items rest self.new.skip
            (places_on items self.old.base (labels_of partial.new) self.new.next)) }
    {
        match node {
            Node::Inner(count) => {
                self.inner(judge, problem, partial, value, count)?;
                Ok(())
            }
            _ => {
                put_node(&mut self.kept, node)?;
                Ok(())
            }
        }
    }

    // Reads a node: of a tree that is passed over, or at the place that comes next.
    fn take<J: Judge>(
        &mut self,
        judge: &J,
        problem: &Problem,
        partial: &mut Partial,
        value: u128,
        node: Node,
    ) -> Result<(), Memory>
        requires belongs { Belongs problem.now partial.old }
        requires suits { J.suits judge.now problem.now (range_of problem.now partial.old) }
        requires below { self.old.base ≤ length (labels_of partial.old) }
        requires trims { let items = range_of problem.now partial.old
            in let cut = reaches (J.bound_of judge.now problem.now items) value
            in (wanted : List Node) × (rest : List Node) × (length rest < 2 ^ 64)
            × Trims items cut wanted self.old.kept.items (node ∷ rest) self.old.skip
            (places_on items self.old.base (labels_of partial.old) self.old.next) }
        ensures belongs { Belongs problem.now partial.new }
        ensures range { range_of problem.now partial.new ≡ range_of problem.now partial.old }
        ensures room { room_of partial.new ≡ room_of partial.old }
        ensures base { self.new.base ≡ self.old.base }
        ensures below { self.old.base ≤ length (labels_of partial.new) }
        ensures front { take self.old.base (labels_of partial.new)
            ≡ take self.old.base (labels_of partial.old) }
        ensures gives { OnOk result (let items = range_of problem.now partial.old
            in let cut = reaches (J.bound_of judge.now problem.now items) value
            in (wanted rest : List Node)
            → Trims items cut wanted self.old.kept.items (node ∷ rest) self.old.skip
            (places_on items self.old.base (labels_of partial.old) self.old.next)
            → Trims items cut wanted self.new.kept.items rest self.new.skip
            (places_on items self.old.base (labels_of partial.new) self.new.next)) }
    {
        if self.skip > 0 {
            self.pass_over(&node);
            return Ok(());
        }
        let Some(option) = next_place(problem, partial, self.base, self.next) else {
            unreachable!()
        };
        match node {
            Node::Inner(count) => {
                partial.put(problem, option);
                self.inner(judge, problem, partial, value, count)?;
                Ok(())
            }
            _ => {
                put_node(&mut self.kept, node)?;
                self.next = Some(option + 1);
                Ok(())
            }
        }
    }
}

// The option that comes next, at the partial grouping from a label on or else on the way back to its first `base`
// labels, where it stays then; none where no option is left.
fn next_place(
    problem: &Problem,
    partial: &mut Partial,
    base: usize,
    from: Option<u32>,
) -> Option<u32>
    requires belongs { Belongs problem.now partial.old }
    requires below { base ≤ length (labels_of partial.old) }
    ensures belongs { Belongs problem.now partial.new }
    ensures range { range_of problem.now partial.new ≡ range_of problem.now partial.old }
    ensures room { room_of partial.new ≡ room_of partial.old }
    ensures below { base ≤ length (labels_of partial.new) }
    ensures front { take base (labels_of partial.new) ≡ take base (labels_of partial.old) }
    ensures legal { IfSome result (λ option.
        IsPartial (range_of problem.now partial.new) (labels_of partial.new ++ option ∷ [])) }
    ensures places { let items = range_of problem.now partial.old in MatchOption result
        (places_on items base (labels_of partial.old) from ≡ [])
        (λ option. places_on items base (labels_of partial.old) from
        ≡ agenda items base (labels_of partial.new ++ option ∷ []) true) }
{
    let mut next = from;
    while let Some(label) = next {
        if let Some(option) = partial.next_option(problem, label) {
            return Some(option);
        }
        next = back(problem, partial, base);
    }
    None
}

// Takes all labels back but the first ones.
fn restore(problem: &Problem, partial: &mut Partial, base: usize)
    requires belongs { Belongs problem.now partial.old }
    requires below { base ≤ length (labels_of partial.old) }
    ensures belongs { Belongs problem.now partial.new }
    ensures range { range_of problem.now partial.new ≡ range_of problem.now partial.old }
    ensures room { room_of partial.new ≡ room_of partial.old }
    ensures labels { labels_of partial.new ≡ take base (labels_of partial.old) }
{
    while partial.labels().len() > base {
        partial.take_back(problem);
    }
}

// Whether the lower bound at a partial grouping reaches a value.
fn is_cut<J: Judge>(judge: &J, problem: &Problem, partial: &Partial, value: u128) -> bool
    requires belongs { Belongs problem.now partial.now }
    requires suits { J.suits judge.now problem.now (range_of problem.now partial.now) }
    ensures { result ≡ reaches (J.bound_of judge.now problem.now (range_of problem.now partial.now)) value
        (labels_of partial.now) }
{
    value <= judge.lower8(problem, partial)
}

/// The nodes of the trimmed tree, where the tree of the nodes stands at a partial grouping: an inner node whose
/// lower bound reaches `value`, in eighths of ticks a common period, becomes a bound leaf, from the root down. The
/// partial grouping is as before then.
pub fn trim<J: Judge>(
    alloc: Global,
    judge: &J,
    problem: &Problem,
    partial: &mut Partial,
    nodes: Vec<Node>,
    value: u128,
) -> Result<Vec<Node>, Memory>
    requires belongs { Belongs problem.now partial.old }
    requires suits { J.suits judge.now problem.now (range_of problem.now partial.old) }
    requires tree { (t : Plain) × (flat t ≡ nodes.items)
        × HasOptions (range_of problem.now partial.old) (labels_of partial.old) t }
    ensures belongs { Belongs problem.now partial.new }
    ensures range { range_of problem.now partial.new ≡ range_of problem.now partial.old }
    ensures room { room_of partial.new ≡ room_of partial.old }
    ensures labels { OnOk result (labels_of partial.new ≡ labels_of partial.old) }
    ensures trimmed { IfOk result (λ kept. let items = range_of problem.now partial.old
        in let cut = reaches (J.bound_of judge.now problem.now items) value
        in (t : Plain) → flat t ≡ nodes.items → HasOptions items (labels_of partial.old) t
        → flat (trim_of items cut (labels_of partial.old) t) ≡ kept.items) }
{
    let base = partial.labels().len();
    let mut trimming = Trimming {
        base,
        next: None,
        skip: 0,
        kept: Vec::new(alloc),
    };
    let mut rest = nodes.into_iter();
    let Some(root) = rest.next() else {
        return Ok(trimming.kept);
    };
    trimming.root(judge, problem, partial, value, root)?;
    while let Some(node) = rest.next() {
        trimming.take(judge, problem, partial, value, node)?;
    }
    restore(problem, partial, base);
    let Trimming {
        base: _base,
        next: _next,
        skip: _skip,
        kept,
    } = trimming;
    Ok(kept)
}

/// The trimmed tree of one that stands at a partial grouping, which is as before then.
pub fn trim_tree<J: Judge>(
    alloc: Global,
    judge: &J,
    problem: &Problem,
    partial: &mut Partial,
    tree: Tree,
    value: u128,
) -> Result<Tree, Memory>
    requires belongs { Belongs problem.now partial.old }
    requires suits { J.suits judge.now problem.now (range_of problem.now partial.old) }
    requires tree { HasOptions (range_of problem.now partial.old) (labels_of partial.old) (plain_of tree) }
    ensures belongs { Belongs problem.now partial.new }
    ensures range { range_of problem.now partial.new ≡ range_of problem.now partial.old }
    ensures room { room_of partial.new ≡ room_of partial.old }
    ensures labels { OnOk result (labels_of partial.new ≡ labels_of partial.old) }
    ensures trimmed { IfOk result (λ trimmed. let items = range_of problem.now partial.old
        in plain_of trimmed ≡ trim_of items (reaches (J.bound_of judge.now problem.now items) value)
        (labels_of partial.old) (plain_of tree)) }
{
    let mut nodes = Vec::new(alloc);
    flatten(tree, &mut nodes)?;
    let kept = trim(alloc, judge, problem, partial, nodes, value)?;
    let trimmed = tree_of(alloc, kept)?;
    Ok(trimmed)
}
