//! The place of the next node of a walk, whose last label is put only where what is kept of it is wanted.
ghost use Rattle.std.specs.Prelude.{◌≡◌, ◌≤◌, ◌<◌, ◌∷◌, [], ◌++◌, ◌↔◌, ℕ, List, true, false, None, IfOk, IfSome, IsTrue, length};
ghost use Rattle.bandwidth_bound.specs.Floors.{AreFloors};
ghost use Rattle.bandwidth_bound.specs.Prices.{lower8_of};
ghost use Rattle.grouping_tree.specs.Grouped.{items_in, labels_of, range_of, room_of, sender_of};
ghost use Rattle.grouping_tree.specs.Partial.{IsPartial};
ghost use Rattle.grouping_tree.specs.Walk.{places_below, places_left};
ghost use Rattle.pack_model.specs.Problem.{Parts};
ghost use Rattle.cert_check.specs.Places.{IsOver, IsPlace, labels_at};

use bandwidth_bound::Floors;
use grouping_tree::Partial;
use pack_model::{Memory, Problem};
use std::alloc::Global;

/// A partial grouping, and the label after it, if one is known: a bound leaf needs no more than what all classes
/// come to with it.
#[derive(Drop)]
pub(crate) struct NodePlace {
    /// The labels that are put.
    pub partial: Partial,
    /// The label after them, one that may be put next.
    ahead: Option<u32>,
    /// All labels of the place, and what is left of earlier ones.
    labels: Vec<u32>,
}

impl NodePlace {
    /// No labels, over all items of the problem. Memory is taken for all later calls.
    pub fn new(alloc: Global, problem: &Problem) -> Result<NodePlace, Memory>
        ensures place { IfOk result (IsPlace problem.now) }
        ensures room { IfOk result (λ place. length problem.now.items ≤ room_of place.partial) }
    {
        Ok(NodePlace {
            partial: Partial::whole(alloc, problem)?,
            ahead: None,
            labels: vec![in alloc; 0; problem.items().len()]?,
        })
    }

    /// Begins anew without labels, over the items of a sender of the problem, or over all. It takes no memory.
    pub fn restart(&mut self, problem: &Problem, range: Option<u32>)
        requires place { IsPlace problem.now self.old }
        requires room { length problem.now.items ≤ room_of self.old.partial }
        requires sender { IfSome range (λ sender. sender < length problem.now.senders) }
        ensures place { IsPlace problem.now self.new }
        ensures none { labels_at self.new ≡ [] }
        ensures sender { sender_of self.new.partial ≡ range }
        ensures range { range_of problem.now self.new.partial ≡ items_in problem.now.items range }
        ensures room { room_of self.new.partial ≡ room_of self.old.partial }
    {
        self.partial.restart(problem, range);
        self.ahead = None;
    }

    /// The labels of the place.
    pub fn labels(&self) -> &[u32]
        requires { (problem : Parts) × IsPlace problem self.now }
        ensures { result.now ≡ labels_at self.now }
    {
        let put = self.partial.labels().len();
        match self.ahead {
            None => &self.labels[..put],
            Some(_) => &self.labels[..put + 1],
        }
    }

    /// Gives the next item a label: one that may be put next.
    pub fn put(&mut self, problem: &Problem, label: u32)
        requires place { IsPlace problem.now self.old }
        requires legal { IsPartial (range_of problem.now self.old.partial) (labels_at self.old ++ label ∷ []) }
        ensures place { IsPlace problem.now self.new }
        ensures labels { labels_at self.new ≡ labels_at self.old ++ label ∷ [] }
        ensures over { IsOver problem.now self.old self.new }
    {
        self.settle(problem);
        self.go_down(problem, label);
    }

    /// Puts the last label too.
    #[inline(always)]
    pub fn settle(&mut self, problem: &Problem)
        requires { IsPlace problem.now self.old }
        ensures place { IsPlace problem.now self.new }
        ensures put { self.new.ahead ≡ None }
        ensures labels { labels_at self.new ≡ labels_at self.old }
        ensures over { IsOver problem.now self.old self.new }
    {
        if let Some(label) = self.ahead {
            self.partial.put(problem, label);
            self.ahead = None;
        }
    }

    /// Notes the label that comes next, one that may be put.
    #[inline(always)]
    fn go_down(&mut self, problem: &Problem, label: u32)
        requires place { IsPlace problem.now self.old }
        requires put { self.old.ahead ≡ None }
        requires legal { IsPartial (range_of problem.now self.old.partial) (labels_at self.old ++ label ∷ []) }
        ensures place { IsPlace problem.now self.new }
        ensures labels { labels_at self.new ≡ labels_at self.old ++ label ∷ [] }
        ensures over { IsOver problem.now self.old self.new }
    {
        let put = self.partial.labels().len();
        self.labels[put] = label;
        self.ahead = Some(label);
    }

    /// Takes the last label away and answers it.
    #[inline(always)]
    fn take_last(&mut self, problem: &Problem) -> u32
        requires place { IsPlace problem.now self.old }
        requires some { 0 < length (labels_at self.old) }
        ensures place { IsPlace problem.now self.new }
        ensures put { self.new.ahead ≡ None }
        ensures labels { labels_at self.old ≡ labels_at self.new ++ result ∷ [] }
        ensures over { IsOver problem.now self.old self.new }
    {
        match self.ahead {
            Some(label) => {
                self.ahead = None;
                label
            }
            None => {
                let labels = self.partial.labels();
                let last = labels[labels.len() - 1];
                self.partial.take_back(problem);
                last
            }
        }
    }

    /// Whether it has no labels.
    #[inline(always)]
    fn is_root(&self) -> bool
        requires { (problem : Parts) × IsPlace problem self.now }
        ensures { IsTrue result ↔ (labels_at self.now ≡ []) }
    {
        match self.ahead {
            None => self.partial.labels().len() == 0,
            Some(_) => false,
        }
    }

    /// Goes down to the first place below. An item is left.
    pub fn enter(&mut self, problem: &Problem)
        requires place { IsPlace problem.now self.old }
        requires put { self.old.ahead ≡ None }
        requires some { length (labels_at self.old) < length (range_of problem.now self.old.partial) }
        ensures place { IsPlace problem.now self.new }
        ensures over { IsOver problem.now self.old self.new }
        ensures places { labels_at self.new
            ∷ places_left (range_of problem.now self.new.partial) 0 (labels_at self.new)
            ≡ places_below (range_of problem.now self.old.partial) (labels_at self.old)
            ++ places_left (range_of problem.now self.old.partial) 0 (labels_at self.old) }
    {
        let Some(label) = self.partial.next_option(problem, 0) else {
            unreachable!()
        };
        self.go_down(problem, label);
    }

    /// Goes to the next place in preorder that is not below this one; false where there is none.
    #[inline(always)]
    pub fn leave(&mut self, problem: &Problem) -> bool
        requires { IsPlace problem.now self.old }
        ensures place { IsPlace problem.now self.new }
        ensures over { IsOver problem.now self.old self.new }
        ensures next { result ≡ true → places_left (range_of problem.now self.old.partial) 0 (labels_at self.old)
            ≡ labels_at self.new
            ∷ places_left (range_of problem.now self.new.partial) 0 (labels_at self.new) }
        ensures none { result ≡ false
            → places_left (range_of problem.now self.old.partial) 0 (labels_at self.old) ≡ [] }
    {
        while !self.is_root() {
            let last = self.take_last(problem);
            if let Some(label) = self.partial.next_option(problem, last + 1) {
                self.go_down(problem, label);
                return true;
            }
        }
        false
    }

    /// The lower bound at the place, in eighths of ticks a common period, for every problem and all values of
    /// lemmas that the tables are of.
    #[inline(always)]
    pub fn lower8(&self, floors: &Floors) -> u128
        requires { (problem : Parts) × (values : List ℕ) × IsPlace problem self.now
            × AreFloors problem (sender_of self.now.partial) values floors.now }
        ensures { (problem : Parts) (values : List ℕ) → IsPlace problem self.now
            → AreFloors problem (sender_of self.now.partial) values floors.now
            → result ≡ lower8_of problem values (range_of problem self.now.partial) (labels_at self.now) }
    {
        match self.ahead {
            None => floors.lower8(&self.partial),
            Some(label) => floors.lower8_ahead(&self.partial, label),
        }
    }
}
