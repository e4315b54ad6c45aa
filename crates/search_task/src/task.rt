//! A search over all items of a problem that stops between turns.
ghost use Rattle.std.specs.Prelude.{◌≡◌, ◌≤◌, ◌<◌, length, true, false, None, Option, IfOk, OnOk};
ghost use Rattle.cert_text.specs.PlainTree.{plain_of};
ghost use Rattle.cert_text.specs.Trees.{left};
ghost use Rattle.grouping_tree.specs.Partial.{IsPartial};
ghost use Rattle.pack_model.specs.Problem.{Parts};
ghost use Rattle.search_judge.specs.Findings.{Finds};
ghost use Rattle.search_judge.specs.Judges.{JudgesOver};
ghost use Rattle.tree_search.specs.Open.{has_open};
ghost use Rattle.tree_search.specs.Shown.{IsAt, IsOf, items_of, start_of};
ghost use Rattle.tree_search.specs.Step.{Searched, Steps};
ghost use Rattle.search_task.specs.Task.{IsTask, lesser, search_of, taken_over};

use crate::placing::{copy_of, lesser, place};
use cert_text::Tree;
use pack_model::{Memory, Problem};
use search_judge::{SearchJudge, problem_stands};
use std::alloc::Global;
use std::mem;
use tree_search::{Found, Opened, Search, flatten};

/// A search over all items from a partial grouping, by bounds with the values of lemmas, which stops between
/// turns.
#[derive(Drop)]
pub struct Task {
    /// The labels at which the search began.
    path: Vec<u32>,
    /// Its tree.
    tree: Tree,
    /// Some leaf of the tree is open.
    open: bool,
    /// The best load so far, in ticks a common period.
    best: Option<u128>,
    /// The values of lemmas by sender, in eighths of ticks a common period.
    lemmas: Vec<u128>,
    /// The grouping that was found last.
    found: Option<Found>,
    alloc: Global,
}

impl Task {
    /// A task whose tree is one open leaf at a path, a partial grouping of all items. `best` is a load in ticks
    /// a common period, and `lemmas` has the value of a lemma for each sender, in eighths of ticks a common
    /// period, 0 where there is none. The only error is want of memory.
    pub fn new(
        alloc: Global,
        problem: &Problem,
        path: &[u32],
        best: Option<u128>,
        lemmas: &[u128],
    ) -> Result<Task, Memory>
        requires path { IsPartial problem.now.items path.now }
        requires lemmas { length lemmas.now ≡ length problem.now.senders }
        ensures task { IfOk result (IsTask problem.now) }
        ensures path { IfOk result (λ task. task.path.items ≡ path.now) }
        ensures lemmas { IfOk result (λ task. task.lemmas.items ≡ lemmas.now) }
        ensures search { IfOk result (λ task. search_of task
            ≡ record { tree = left; best = best; found = None }) }
    {
        Ok(Task {
            path: Vec::from_slice(alloc, path)?,
            tree: Tree::Left,
            open: true,
            best,
            lemmas: Vec::from_slice(alloc, lemmas)?,
            found: None,
            alloc,
        })
    }

    // The search that goes on with its tree and what it found, with a best load. Both are taken away.
    fn begin(&mut self, problem: &Problem, best: Option<u128>) -> Result<Search, Memory>
        requires { IsTask problem.now self.old }
        ensures path { self.new.path ≡ self.old.path }
        ensures lemmas { self.new.lemmas ≡ self.old.lemmas }
        ensures alloc { self.new.alloc ≡ self.old.alloc }
        ensures search { IfOk result (IsOf problem.now) }
        ensures items { IfOk result (λ search. items_of problem.now search ≡ problem.now.items) }
        ensures start { IfOk result (λ search. start_of search ≡ self.old.path.items) }
        ensures at { IfOk result (λ search. IsAt problem.now search
            (record { tree = plain_of self.old.tree; best = best; found = self.old.found })) }
    {
        let partial = place(self.alloc, problem, &self.path)?;
        let tree = mem::replace(&mut self.tree, Tree::Left);
        let found = self.found.take();
        let mut nodes = Vec::new(self.alloc);
        flatten(tree, &mut nodes)?;
        let search = Search::resume(self.alloc, problem, partial, best, found, nodes)?;
        Ok(search)
    }

    // Keeps what a search ended a turn with.
    fn keep(
        &mut self,
        judge: &SearchJudge,
        problem: &Problem,
        mut search: Search,
    ) -> Result<(), Memory>
        requires search { IsOf problem.now search }
        requires suits { JudgesOver problem.now (items_of problem.now search) judge.now }
        ensures path { self.new.path ≡ self.old.path }
        ensures lemmas { self.new.lemmas ≡ self.old.lemmas }
        ensures alloc { self.new.alloc ≡ self.old.alloc }
        ensures open { OnOk result (self.new.open ≡ search.open) }
        ensures at { OnOk result ((x : Searched) → IsAt problem.now search x → search_of self.new ≡ x) }
    {
        self.open = search.pending();
        self.best = search.best();
        self.found = search.take_found();
        let Opened { tree, least: _ } = search.into_tree(self.alloc, judge, problem)?;
        self.tree = tree;
        Ok(())
    }

    /// Takes a best load for its own where that is less, and then makes at most so many steps. Answers how
    /// many: fewer only where no open leaf is left then. After an error nothing is known of the task, and it
    /// can only be dropped. The only error is want of memory.
    pub fn advance(
        &mut self,
        problem: &Problem,
        best: Option<u128>,
        steps: u64,
    ) -> Result<u64, Memory>
        requires { IsTask problem.now self.old }
        ensures task { OnOk result (IsTask problem.now self.new) }
        ensures path { OnOk result (self.new.path.items ≡ self.old.path.items) }
        ensures lemmas { OnOk result (self.new.lemmas.items ≡ self.old.lemmas.items) }
        ensures within { IfOk result (λ made. made ≤ steps) }
        ensures fewer { IfOk result (λ made. made < steps → has_open (plain_of self.new.tree) ≡ false) }
        // Each step is one of what is found over all items with the values of its lemmas.
        ensures steps { IfOk result (λ made. Steps (Finds problem.now None self.old.lemmas.items)
            problem.now.items self.old.path.items made (taken_over self.old best) (search_of self.new)) }
    {
        problem_stands(problem);
        let mut judge = SearchJudge::new(self.alloc, problem, None, &self.lemmas)?;
        let mut search = self.begin(problem, lesser(self.best, best))?;
        let made = search.advance(&mut judge, problem, steps)?;
        self.keep(&judge, problem, search)?;
        Ok(made)
    }

    /// Whether an open leaf is left.
    pub fn pending(&self) -> bool
        requires { (problem : Parts) × IsTask problem self.now }
        ensures { result ≡ has_open (plain_of self.now.tree) }
    {
        self.open
    }

    /// The best load, in ticks a common period.
    pub fn load(&self) -> Option<u128>
        requires { (problem : Parts) × IsTask problem self.now }
        ensures { result ≡ self.now.best }
    {
        self.best
    }

    /// A copy of the grouping that was found last, if anything was found. The only error is want of memory.
    pub fn found(&self) -> Result<Option<Found>, Memory>
        requires { (problem : Parts) × IsTask problem self.now }
        ensures { IfOk result (λ found. found ≡ self.now.found) }
    {
        match &self.found {
            Some(found) => {
                let copy = copy_of(self.alloc, found)?;
                Ok(Some(copy))
            }
            None => Ok(None),
        }
    }

    /// Its tree.
    pub fn into_tree(self) -> Tree
        requires { (problem : Parts) × IsTask problem self }
        ensures { result ≡ self.tree }
    {
        self.tree
    }
}
