//! The walk over the nodes of trees.
ghost use Rattle.std.specs.Prelude.{◌≡◌, ◌<◌, ◌∷◌, [], ◌↔◌, IfOk, IfSome, IsTrue, None, Some, length, replicate, slice_set};
ghost use Rattle.cert_text.specs.Trees.{Plain};
ghost use Rattle.bandwidth_bound.specs.Goals.{ClassesFail};
ghost use Rattle.bandwidth_bound.specs.Prices.{lower8_of};
ghost use Rattle.grouping_tree.specs.Grouped.{items_in, range_of};
ghost use Rattle.grouping_tree.specs.Partial.{IsPartial};
ghost use Rattle.pack_model.specs.Problem.{Parts};
ghost use Rattle.cert_check.specs.Nodes.{IsSplit, lowered, inner_node, bound_leaf, open_leaf, fail_leaf, hole};
ghost use Rattle.cert_check.specs.Places.{IsOver, IsPlace, labels_at};
ghost use Rattle.cert_check.specs.Walk.{HasPlace, IsReady, IsWalk, Keeps, Passes, Settles, StandsNext, TakesOne, items_of, start, start_at, values_in, values_used, way_of};

use crate::node_place::NodePlace;
use bandwidth_bound::{Floors, refutes};
use pack_model::{Memory, Problem};
use response_test::Evidence;
use std::alloc::Global;

/// What a tree is to show.
#[derive(Clone, Copy, Debug, PartialEq, Eq)]
pub struct Aim {
    /// The number of the sender over whose items the tree is; none over all items. Of one sender's items alone
    /// no fail leaf stands.
    pub range: Option<u32>,
    /// What the bound at each bound leaf is to reach, in eighths of ticks a common period, if there is a
    /// best.
    pub value: Option<u128>,
    /// Leaves may be left open.
    pub may_leave: bool,
}

/// The least of a bound and of what was the least before.
pub(crate) fn least_with(least: Option<u128>, bound: u128) -> u128
    ensures { Some result ≡ lowered least (bound ∷ []) }
{
    match least {
        None => bound,
        Some(least) => least.min(bound),
    }
}

/// The values of lemmas that bounds use: over one sender's items none.
fn values_in(range: Option<u32>, values: &[u128]) -> &[u128]
    ensures { result.now ≡ values_in range values.now }
{
    match range {
        None => values,
        Some(_) => &values[..0],
    }
}

/// Gives the first items the labels of a partial grouping, where none has a label yet.
fn put_each(place: &mut NodePlace, problem: &Problem, labels: &[u32])
    requires place { IsPlace problem.now place.old }
    requires none { labels_at place.old ≡ [] }
    requires legal { IsPartial (range_of problem.now place.old.partial) labels.now }
    ensures place { IsPlace problem.now place.new }
    ensures labels { labels_at place.new ≡ labels.now }
    ensures over { IsOver problem.now place.old place.new }
{
    for &label in labels {
        place.put(problem, label);
    }
}

/// A walk over the nodes of one tree after another in preorder, which judges each at the place where it stands.
/// Where a node doesn't stand there the walk fails, and stays failed until the next tree begins.
#[derive(Drop)]
pub struct Walk {
    /// What the tree is to show.
    aim: Aim,
    /// The values of the lemmas so far by sender, in eighths of ticks a common period, 0 where there is none.
    values: Vec<u128>,
    /// The place of the next node.
    place: NodePlace,
    /// What the items that are not placed cost at least.
    floors: Floors,
    /// No node is to come.
    over: bool,
    /// Some node didn't stand.
    failed: bool,
    /// The least bound at the open leaves so far, in eighths of ticks a common period.
    least: Option<u128>,
}

impl Walk {
    /// A walk that has no tree yet, and no lemmas. It takes all the memory that later calls need.
    pub fn new(alloc: Global, problem: &Problem) -> Result<Walk, Memory>
        ensures ready { IfOk result (IsReady problem.now) }
        ensures values { IfOk result (λ walk.
            walk.values.items ≡ replicate (length problem.now.senders) 0) }
    {
        Ok(Walk {
            aim: Aim {
                range: None,
                value: None,
                may_leave: false,
            },
            values: vec![in alloc; 0; problem.senders().len()]?,
            place: NodePlace::new(alloc, problem)?,
            floors: Floors::new(alloc, problem)?,
            over: true,
            failed: false,
            least: None,
        })
    }

    /// Begins a tree at the empty grouping of its range. Bounds over one sender's items use no lemmas; those
    /// over all items use the values that were kept. It takes no memory.
    pub fn begin(&mut self, problem: &Problem, aim: Aim)
        requires ready { IsReady problem.now self.old }
        requires range { IfSome aim.range (λ sender. sender < length problem.now.senders) }
        ensures walks { IsWalk problem.now self.new }
        ensures begins { way_of problem.now self.new ≡ start }
        ensures aim { self.new.aim ≡ aim }
        ensures values { self.new.values.items ≡ self.old.values.items }
    {
        self.begin_at(problem, aim, &[]);
    }

    /// Begins a tree at a partial grouping of its range, as `begin` does at the empty one. It takes no memory.
    pub fn begin_at(&mut self, problem: &Problem, aim: Aim, place: &[u32])
        requires ready { IsReady problem.now self.old }
        requires range { IfSome aim.range (λ sender. sender < length problem.now.senders) }
        requires legal { IsPartial (items_in problem.now.items aim.range) place.now }
        ensures walks { IsWalk problem.now self.new }
        ensures begins { way_of problem.now self.new ≡ start_at (items_in problem.now.items aim.range) place.now }
        ensures aim { self.new.aim ≡ aim }
        ensures values { self.new.values.items ≡ self.old.values.items }
    {
        self.place.restart(problem, aim.range);
        put_each(&mut self.place, problem, place);
        let values = values_in(aim.range, self.values.as_slice());
        self.floors.fill(problem, aim.range, values);
        self.aim = aim;
        self.over = false;
        self.failed = false;
        self.least = None;
    }

    /// Keeps the value of the lemma of a sender, in eighths of ticks a common period, for the trees that begin
    /// from now on.
    pub fn keep_value(&mut self, sender: u32, value: u128)
        requires { sender < length self.old.values.items }
        ensures ready { (problem : Parts) → IsReady problem self.old → IsReady problem self.new }
        ensures values { self.new.values.items ≡ slice_set self.old.values.items sender value }
        ensures rest { self.new ≡ record self.old { values = self.new.values } }
    {
        self.values[sender as usize] = value;
    }

    /// Keeps the values of the lemmas of all senders, in eighths of ticks a common period, 0 where there is
    /// none, for the trees that begin from now on.
    pub fn keep_values(&mut self, values: &[u128])
        requires { length values.now ≡ length self.old.values.items }
        ensures ready { (problem : Parts) → IsReady problem self.old → IsReady problem self.new }
        ensures values { self.new.values.items ≡ values.now }
        ensures rest { self.new ≡ record self.old { values = self.new.values } }
    {
        self.values.copy_from_slice(values);
    }

    /// Whether some node didn't stand.
    pub fn has_failed(&self) -> bool
        ensures { result ≡ self.now.failed }
    {
        self.failed
    }

    /// The least bound at the open leaves so far, in eighths of ticks a common period.
    pub fn least(&self) -> Option<u128>
        ensures { result ≡ self.now.least }
    {
        self.least
    }

    /// What range of items the tree is over.
    pub fn range(&self) -> Option<u32>
        ensures { result ≡ self.now.aim.range }
    {
        self.aim.range
    }

    /// The values of the lemmas by sender.
    pub fn values(&self) -> &[u128]
        ensures { result.now ≡ self.now.values.items }
    {
        self.values.as_slice()
    }

    /// The labels of the place of the next node.
    pub fn place(&self) -> &[u32]
        requires { (problem : Parts) × IsWalk problem self.now }
        ensures { result.now ≡ labels_at self.now.place }
    {
        self.place.labels()
    }

    /// Puts all labels of the place.
    #[inline(always)]
    fn settle(&mut self, problem: &Problem)
        requires { IsWalk problem.now self.old }
        ensures walks { IsWalk problem.now self.new }
        ensures settles { Settles self.old self.new }
        ensures put { self.new.place.ahead ≡ None }
    {
        self.place.settle(problem);
    }

    /// Whether the next node has a place.
    #[inline(always)]
    fn has_place(&self) -> bool
        ensures { IsTrue result ↔ HasPlace self.now }
    {
        !self.failed && !self.over
    }

    /// The lower bound at the place, in eighths of ticks a common period.
    #[inline(always)]
    fn lower8(&self) -> u128
        requires { (problem : Parts) × IsWalk problem self.now }
        ensures { (problem : Parts) → IsWalk problem self.now
            → result ≡ lower8_of problem (values_used self.now) (items_of problem self.now)
            (labels_at self.now.place) }
    {
        self.place.lower8(&self.floors)
    }

    /// Whether the classes that are named with evidence are refuted at the place.
    fn refutes(&self, problem: &Problem, named: &[(u32, Evidence)]) -> bool
        requires walks { IsWalk problem.now self.now }
        requires whole { self.now.aim.range ≡ None }
        requires put { self.now.place.ahead ≡ None }
        ensures { IsTrue result ↔ ClassesFail problem.now (labels_at self.now.place) named.now }
    {
        let bit = u64::from(problem.network().nominal_ticks);
        refutes(self.place.partial.frames(), bit, problem.hyper(), named)
    }

    /// Whether an item is left, and as many labels may be put next as there are subtrees.
    fn is_split(&self, problem: &Problem, subtrees: usize) -> bool
        requires walks { IsWalk problem.now self.now }
        requires put { self.now.place.ahead ≡ None }
        ensures { IsTrue result ↔ IsSplit (items_of problem.now self.now) (labels_at self.now.place) subtrees }
    {
        if subtrees == 0 {
            return false;
        }
        subtrees == self.place.partial.options(problem) as usize
    }

    /// Whether an inner node with so many subtrees stands at the next place.
    fn inner_stands(&self, problem: &Problem, subtrees: usize) -> bool
        requires walks { IsWalk problem.now self.now }
        requires put { self.now.place.ahead ≡ None }
        ensures { IsTrue result ↔ StandsNext problem.now self.now (inner_node subtrees) }
    {
        self.has_place() && self.is_split(problem, subtrees)
    }

    /// Whether a bound leaf stands at the next place.
    #[inline(always)]
    fn bound_stands(&self, problem: &Problem) -> bool
        requires { IsWalk problem.now self.now }
        ensures { IsTrue result ↔ StandsNext problem.now self.now bound_leaf }
    {
        match self.aim.value {
            None => false,
            Some(value) => self.has_place() && value <= self.lower8(),
        }
    }

    /// Whether an open leaf stands at the next place.
    fn open_stands(&self) -> bool
        ensures { (problem : Parts) → IsTrue result ↔ StandsNext problem self.now open_leaf }
    {
        self.has_place() && self.aim.may_leave
    }

    /// Whether a fail leaf stands at the next place: over one sender's items none does.
    fn fail_stands(&self, problem: &Problem, named: &[(u32, Evidence)]) -> bool
        requires walks { IsWalk problem.now self.now }
        requires put { self.now.place.ahead ≡ None }
        ensures { IsTrue result ↔ StandsNext problem.now self.now (fail_leaf named.now) }
    {
        match self.aim.range {
            None => self.has_place() && self.refutes(problem, named),
            Some(_) => false,
        }
    }

    /// Goes on from a leaf that stands.
    #[inline(always)]
    fn pass(&mut self, problem: &Problem)
        requires walks { IsWalk problem.now self.old }
        requires place { HasPlace self.old }
        ensures walks { IsWalk problem.now self.new }
        ensures keeps { Keeps self.old self.new }
        ensures passes { Passes problem.now self.old self.new }
    {
        self.over = !self.place.leave(problem);
    }

    /// Takes an inner node with so many subtrees.
    pub fn take_inner(&mut self, problem: &Problem, subtrees: usize)
        requires { IsWalk problem.now self.old }
        ensures walks { IsWalk problem.now self.new }
        ensures keeps { Keeps self.old self.new }
        ensures takes { TakesOne problem.now self.old self.new (inner_node subtrees) }
    {
        self.settle(problem);
        if !self.inner_stands(problem, subtrees) {
            self.failed = true;
            return;
        }
        self.place.enter(problem);
    }

    /// Takes a bound leaf.
    #[inline(always)]
    pub fn take_bound(&mut self, problem: &Problem)
        requires { IsWalk problem.now self.old }
        ensures walks { IsWalk problem.now self.new }
        ensures keeps { Keeps self.old self.new }
        ensures takes { TakesOne problem.now self.old self.new bound_leaf }
    {
        if !self.bound_stands(problem) {
            self.failed = true;
            return;
        }
        self.pass(problem);
    }

    /// Takes an open leaf.
    pub fn take_open(&mut self, problem: &Problem)
        requires { IsWalk problem.now self.old }
        ensures walks { IsWalk problem.now self.new }
        ensures keeps { Keeps self.old self.new }
        ensures takes { TakesOne problem.now self.old self.new open_leaf }
    {
        if !self.open_stands() {
            self.failed = true;
            return;
        }
        let bound = self.lower8();
        self.pass(problem);
        self.least = Some(least_with(self.least, bound));
    }

    /// Takes a fail leaf.
    pub fn take_fail(&mut self, problem: &Problem, named: &[(u32, Evidence)])
        requires { IsWalk problem.now self.old }
        ensures walks { IsWalk problem.now self.new }
        ensures keeps { Keeps self.old self.new }
        ensures takes { TakesOne problem.now self.old self.new (fail_leaf named.now) }
    {
        self.settle(problem);
        if !self.fail_stands(problem, named) {
            self.failed = true;
            return;
        }
        self.pass(problem);
    }

    /// Takes a hole: the place of a whole tree is passed over.
    pub fn take_hole(&mut self, problem: &Problem)
        requires { IsWalk problem.now self.old }
        ensures walks { IsWalk problem.now self.new }
        ensures keeps { Keeps self.old self.new }
        ensures takes { (tree : Plain) → TakesOne problem.now self.old self.new (hole tree) }
    {
        if !self.has_place() {
            self.failed = true;
            return;
        }
        self.pass(problem);
    }
}
