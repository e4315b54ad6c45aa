//! A search that stands at its first open leaf.
ghost use Rattle.std.specs.Prelude.{◌≡◌, ◌+◌, ◌≤◌, ◌<◌, ◌++◌, ℕ, List, true, false, [], ◌∷◌, length, map, replicate, Option, None, OnOk, IfOk};
ghost use Rattle.std.specs.Option.{option_copied};
ghost use Rattle.cert_text.specs.PlainTree.{plain_of};
ghost use Rattle.cert_text.specs.Trees.{left};
ghost use Rattle.bandwidth_bound.specs.Trees.{open_places};
ghost use Rattle.grouping_tree.specs.Grouped.{Belongs, labels_of, range_of, room_of};
ghost use Rattle.grouping_tree.specs.Partial.{options_of};
ghost use Rattle.grouping_tree.specs.Walk.{places_below, places_left};
ghost use Rattle.pack_model.specs.declared.item.Item.{Item};
ghost use Rattle.pack_model.specs.Problem.{Parts};
ghost use Rattle.tree_search.specs.declared.finding.Finding.{Finding};
ghost use Rattle.tree_search.specs.Going.{IsOn, places_on};
ghost use Rattle.tree_search.specs.Open.{least_of, least_with};
ghost use Rattle.tree_search.specs.Shown.{GoesOn, IsAt, IsOf, agenda, items_of, start_of};
ghost use Rattle.tree_search.specs.Step.{Searched, Steps, after};
ghost use Rattle.tree_search.specs.Trim.{reaches, trim as trim_of};

use crate::finding::{Finding, Found};
use crate::going::back;
use crate::judge::Judge;
use crate::node::{Node, put_node};
use crate::tree::tree_of;
use crate::trimming::trim;
use cert_text::Tree;
use grouping_tree::Partial;
use pack_model::{Labels, Memory, Problem};
use std::alloc::Global;

/// What a search ends with where leaves are open.
#[derive(Debug, Drop)]
pub struct Opened {
    /// Its tree.
    pub tree: Tree,
    /// The least lower bound at the open leaves, in eighths of ticks a common period, if there are any.
    pub least: Option<u128>,
}

/// A search over the partial groupings that extend the one at which it began: depth first, options by
/// ascending label.
#[derive(Drop)]
pub struct Search {
    /// The partial grouping at the first open leaf.
    pub(crate) partial: Partial,
    /// The number of labels at which the search began.
    pub(crate) base: usize,
    /// The nodes that are done, in preorder.
    pub(crate) nodes: Vec<Node>,
    /// Some leaf is open; else the search is done, and the partial grouping is that of its start.
    pub(crate) open: bool,
    /// The best load so far, in ticks a common period.
    pub(crate) best: Option<u128>,
    /// The grouping that was found last.
    found: Option<Found>,
    alloc: Global,
}

impl Search {
    /// A search that begins at a partial grouping: one open leaf, and nothing found. It takes no memory.
    pub fn new(alloc: Global, problem: &Problem, partial: Partial, best: Option<u128>) -> Search
        requires { Belongs problem.now partial }
        ensures search { IsOf problem.now result }
        ensures items { items_of problem.now result ≡ range_of problem.now partial }
        ensures start { start_of result ≡ labels_of partial }
        ensures room { room_of result.partial ≡ room_of partial }
        ensures at { IsAt problem.now result (record { tree = left; best = best; found = None }) }
    {
        Search::begin(alloc, problem, partial, best, None)
    }

    // The same, where something may have been found before.
    pub(crate) fn begin(
        alloc: Global,
        problem: &Problem,
        partial: Partial,
        best: Option<u128>,
        found: Option<Found>,
    ) -> Search
        requires { Belongs problem.now partial }
        ensures search { IsOf problem.now result }
        ensures items { items_of problem.now result ≡ range_of problem.now partial }
        ensures start { start_of result ≡ labels_of partial }
        ensures room { room_of result.partial ≡ room_of partial }
        ensures at { IsAt problem.now result (record { tree = left; best = best; found = found }) }
        ensures none { result.nodes.items ≡ [] }
        ensures open { result.open ≡ true }
        ensures first { result.base ≡ length (labels_of result.partial) }
        ensures best { result.best ≡ best }
        ensures found { result.found ≡ found }
    {
        let base = partial.labels().len();
        Search {
            partial,
            base,
            nodes: Vec::new(alloc),
            open: true,
            best,
            found,
            alloc,
        }
    }

    /// Whether an open leaf is left.
    pub fn pending(&self) -> bool
        ensures { result ≡ self.now.open }
    {
        self.open
    }

    /// The best load so far, in ticks a common period.
    pub fn best(&self) -> Option<u128>
        ensures { result ≡ self.now.best }
    {
        self.best
    }

    /// The grouping that was found last.
    pub fn found(&self) -> Option<&Found>
        ensures { option_copied result ≡ self.now.found }
    {
        self.found.as_ref()
    }

    /// Takes the grouping that was found last away.
    pub fn take_found(&mut self) -> Option<Found>
        ensures found { result ≡ self.old.found }
        ensures rest { self.new ≡ record self.old { found = None } }
    {
        self.found.take()
    }

    /// How many nodes besides open leaves its tree has.
    pub fn count(&self) -> usize
        ensures { result ≡ length self.now.nodes.items }
    {
        self.nodes.len()
    }

    // The open leaf becomes a node without subtrees. Answers the label from which the search goes on, if any
    // place is left.
    fn close(&mut self, problem: &Problem, node: Node) -> Result<Option<u32>, Memory>
        requires search { IsOf problem.now self.old }
        requires open { self.old.open ≡ true }
        ensures goes_on { OnOk result (GoesOn problem.now self.old self.new) }
        ensures open { self.new.open ≡ true }
        ensures done { IfOk result (λ from. from ≡ None → labels_of self.new.partial ≡ start_of self.new) }
        ensures nodes { OnOk result (self.new.nodes.items ≡ self.old.nodes.items ++ node ∷ []) }
        ensures best { self.new.best ≡ self.old.best }
        ensures found { self.new.found ≡ self.old.found }
        ensures rest { IfOk result (λ from.
            places_on (items_of problem.now self.old) self.old.base (labels_of self.new.partial) from
            ≡ places_left (items_of problem.now self.old) self.old.base (labels_of self.old.partial)) }
    {
        put_node(&mut self.nodes, node)?;
        let from = back(problem, &mut self.partial, self.base);
        Ok(from)
    }

    // A complete grouping is the best one now.
    fn complete(
        &mut self,
        problem: &Problem,
        load: u128,
        order: Labels,
    ) -> Result<Option<u32>, Memory>
        requires search { IsOf problem.now self.old }
        requires open { self.old.open ≡ true }
        ensures goes_on { OnOk result (GoesOn problem.now self.old self.new) }
        ensures open { OnOk result (self.new.open ≡ true) }
        ensures done { IfOk result (λ from. from ≡ None → labels_of self.new.partial ≡ start_of self.new) }
        ensures nodes { OnOk result (self.new.nodes.items ≡ self.old.nodes.items ++ Node.Bound ∷ []) }
        ensures best { OnOk result (self.new.best ≡ Some load) }
        ensures found { OnOk result (self.new.found
            ≡ Some (record { labels = labels_of self.old.partial; order = order; load = load })) }
        ensures rest { IfOk result (λ from.
            places_on (items_of problem.now self.old) self.old.base (labels_of self.new.partial) from
            ≡ places_left (items_of problem.now self.old) self.old.base (labels_of self.old.partial)) }
    {
        let labels = Labels::of(Vec::from_slice(self.alloc, self.partial.labels())?);
        self.best = Some(load);
        self.found = Some(Found {
            labels,
            order,
            load,
        });
        let from = self.close(problem, Node::Bound)?;
        Ok(from)
    }

    // The open leaf becomes an inner node, and its options come next, from the first one on.
    fn part(&mut self, problem: &Problem) -> Result<Option<u32>, Memory>
        requires search { IsOf problem.now self.old }
        requires open { self.old.open ≡ true }
        ensures goes_on { OnOk result (GoesOn problem.now self.old self.new) }
        ensures open { self.new.open ≡ true }
        ensures done { IfOk result (λ from. from ≡ None → labels_of self.new.partial ≡ start_of self.new) }
        ensures nodes { OnOk result (self.new.nodes.items ≡ self.old.nodes.items
            ++ Node.Inner
            (length (options_of (items_of problem.now self.old) (labels_of self.old.partial))) ∷ []) }
        ensures best { self.new.best ≡ self.old.best }
        ensures found { self.new.found ≡ self.old.found }
        ensures rest { IfOk result (λ from.
            places_on (items_of problem.now self.old) self.old.base (labels_of self.new.partial) from
            ≡ places_below (items_of problem.now self.old) (labels_of self.old.partial)
            ++ places_left (items_of problem.now self.old) self.old.base (labels_of self.old.partial)) }
    {
        let count = self.partial.options(problem);
        put_node(&mut self.nodes, Node::Inner(count as usize))?;
        Ok(Some(0))
    }

    // What is found at the open leaf becomes of it. Answers the label from which the search goes on, if any
    // place is left.
    fn settle(&mut self, problem: &Problem, finding: Finding) -> Result<Option<u32>, Memory>
        requires search { IsOf problem.now self.old }
        requires open { self.old.open ≡ true }
        requires left { finding ≡ Finding.Parted
            → length (labels_of self.old.partial) < length (items_of problem.now self.old) }
        ensures goes_on { OnOk result (GoesOn problem.now self.old self.new) }
        ensures open { OnOk result (self.new.open ≡ true) }
        ensures done { IfOk result (λ from. from ≡ None → labels_of self.new.partial ≡ start_of self.new) }
        ensures count { OnOk result (length self.new.nodes.items ≡ length self.old.nodes.items + 1) }
        ensures gives { IfOk result (λ from. (x : Searched) → IsAt problem.now self.old x
            → IsOn problem.now self.new from
            (after (items_of problem.now self.old) (labels_of self.old.partial) finding x)) }
    {
        match finding {
            Finding::Bounded => {
                let from = self.close(problem, Node::Bound)?;
                Ok(from)
            }
            Finding::Failed(refuted) => {
                let from = self.close(problem, Node::Fail(refuted))?;
                Ok(from)
            }
            Finding::Complete { load, order } => {
                let from = self.complete(problem, load, order)?;
                Ok(from)
            }
            Finding::Parted => {
                let from = self.part(problem)?;
                Ok(from)
            }
        }
    }

    // A step at the open leaf, and one for each option that is passed on the way to the next one. Answers how
    // many.
    fn step<J: Judge>(
        &mut self,
        judge: &mut J,
        problem: &Problem,
        steps: u64,
    ) -> Result<u64, Memory>
        requires search { IsOf problem.now self.old }
        requires suits { J.suits judge.old problem.now (items_of problem.now self.old) }
        requires open { self.old.open ≡ true }
        requires some { 0 < steps }
        ensures suits { (parts : Parts) (items : List Item)
            → J.suits judge.old parts items → J.suits judge.new parts items }
        ensures goes_on { OnOk result (GoesOn problem.now self.old self.new) }
        ensures count { IfOk result
            (λ made. length self.new.nodes.items ≡ length self.old.nodes.items + made) }
        ensures some { IfOk result (λ made. 0 < made) }
        ensures within { IfOk result (λ made. made ≤ steps) }
        ensures bounds { J.bound_of judge.new ≡ J.bound_of judge.old }
        ensures same { (parts : Parts) (items : List Item) (load : Option ℕ) (p : List ℕ) (finding : Finding)
            → J.finds judge.new parts items load p finding → J.finds judge.old parts items load p finding }
        ensures gives { IfOk result (λ made. (x : Searched) → IsAt problem.now self.old x → (y : Searched)
            × Steps (J.finds judge.old problem.now (items_of problem.now self.old))
            (items_of problem.now self.old) (start_of self.old) made x y
            × IsAt problem.now self.new y) }
    {
        let finding = judge.find(problem, &self.partial, self.best)?;
        let from = self.settle(problem, finding)?;
        let passed = self.go_on(judge, problem, from, steps - 1)?;
        Ok(passed + 1)
    }

    /// Makes at most so many steps, and answers how many: fewer only where no leaf is open then. After an error
    /// nothing is known of the search, and it can only be dropped.
    pub fn advance<J: Judge>(
        &mut self,
        judge: &mut J,
        problem: &Problem,
        steps: u64,
    ) -> Result<u64, Memory>
        requires search { IsOf problem.now self.old }
        requires suits { J.suits judge.old problem.now (items_of problem.now self.old) }
        ensures suits { (parts : Parts) (items : List Item)
            → J.suits judge.old parts items → J.suits judge.new parts items }
        ensures goes_on { OnOk result (GoesOn problem.now self.old self.new) }
        ensures count { IfOk result
            (λ made. length self.new.nodes.items ≡ length self.old.nodes.items + made) }
        ensures within { IfOk result (λ made. made ≤ steps) }
        ensures fewer { IfOk result (λ made. made < steps → self.new.open ≡ false) }
        ensures bounds { J.bound_of judge.new ≡ J.bound_of judge.old }
        ensures same { (parts : Parts) (items : List Item) (load : Option ℕ) (p : List ℕ) (finding : Finding)
            → J.finds judge.new parts items load p finding → J.finds judge.old parts items load p finding }
        // Each step is one of what the judge finds.
        ensures gives { IfOk result (λ made. (x : Searched) → IsAt problem.now self.old x → (y : Searched)
            × Steps (J.finds judge.old problem.now (items_of problem.now self.old))
            (items_of problem.now self.old) (start_of self.old) made x y
            × IsAt problem.now self.new y) }
    {
        let mut made = 0;
        while made < steps && self.open {
            let more = self.step(judge, problem, steps - made)?;
            made += more;
        }
        Ok(made)
    }

    /// Its tree, with an open leaf at each place that is still to come, and the least lower bound there.
    pub fn into_tree<J: Judge>(
        self,
        alloc: Global,
        judge: &J,
        problem: &Problem,
    ) -> Result<Opened, Memory>
        requires search { IsOf problem.now self }
        requires suits { J.suits judge.now problem.now (items_of problem.now self) }
        ensures tree { IfOk result (λ opened. (x : Searched) → IsAt problem.now self x
            → plain_of opened.tree ≡ x.tree) }
        ensures least { IfOk result (λ opened. (x : Searched) → IsAt problem.now self x
            → opened.least ≡ least_of (map (J.bound_of judge.now problem.now (items_of problem.now self))
            (open_places (items_of problem.now self) (start_of self) x.tree))) }
    {
        let Search {
            mut partial,
            base,
            mut nodes,
            open,
            best: _best,
            found: _found,
            alloc: _alloc,
        } = self;
        let least = leave_open(judge, problem, &mut partial, base, &mut nodes, open)?;
        let tree = tree_of(alloc, nodes)?;
        Ok(Opened { tree, least })
    }

    /// Its tree, where no leaf is open, trimmed: an inner node whose lower bound reaches `value`, in eighths of
    /// ticks a common period, becomes a bound leaf, from the root down.
    pub fn into_trimmed<J: Judge>(
        self,
        alloc: Global,
        judge: &J,
        problem: &Problem,
        value: u128,
    ) -> Result<Tree, Memory>
        requires search { IsOf problem.now self }
        requires suits { J.suits judge.now problem.now (items_of problem.now self) }
        requires done { self.open ≡ false }
        requires tree { (x : Searched) × IsAt problem.now self x }
        ensures { IfOk result (λ tree. (x : Searched) → IsAt problem.now self x
            → plain_of tree ≡ trim_of (items_of problem.now self)
            (reaches (J.bound_of judge.now problem.now (items_of problem.now self)) value)
            (start_of self) x.tree) }
    {
        let Search {
            mut partial,
            base: _base,
            nodes,
            open: _open,
            best: _best,
            found: _found,
            alloc: _alloc,
        } = self;
        let kept = trim(alloc, judge, problem, &mut partial, nodes, value)?;
        let tree = tree_of(alloc, kept)?;
        Ok(tree)
    }
}

// Puts an open leaf for each place that is open where a walk below its first `base` labels stands, and
// answers the least lower bound at these places.
fn leave_open<J: Judge>(
    judge: &J,
    problem: &Problem,
    partial: &mut Partial,
    base: usize,
    nodes: &mut Vec<Node>,
    is_open: bool,
) -> Result<Option<u128>, Memory>
    requires belongs { Belongs problem.now partial.old }
    requires suits { J.suits judge.now problem.now (range_of problem.now partial.old) }
    requires below { base ≤ length (labels_of partial.old) }
    ensures nodes { OnOk result (nodes.new.items ≡ nodes.old.items
        ++ replicate (length (agenda (range_of problem.now partial.old) base (labels_of partial.old) is_open))
        Node.Left) }
    ensures least { IfOk result (λ least. let items = range_of problem.now partial.old
        in least ≡ least_of (map (J.bound_of judge.now problem.now items)
        (agenda items base (labels_of partial.old) is_open))) }
{
    let mut least = None;
    let mut more = is_open;
    while more {
        least = Some(lesser(least, judge.lower8(problem, partial)));
        nodes.push(Node::Left)?;
        more = partial.leave(problem, base);
    }
    Ok(least)
}

// The least of a bound and of one before it, if there is one.
fn lesser(before: Option<u128>, bound: u128) -> u128
    ensures { Some result ≡ least_with before (bound ∷ []) }
{
    match before {
        Some(least) => least.min(bound),
        None => bound,
    }
}
