//! The walk over the events of a certificate whose marked trees are judged apart.
ghost use Rattle.std.specs.Prelude.{◌≡◌, ◌≤◌, ◌∷◌, ◌||◌, [], List, None, false, IfOk, OnOk};
ghost use Rattle.matrix_rows.specs.declared.matrix.MatrixRow.{MatrixRow};
ghost use Rattle.cert_text.specs.declared.event.Event.{Event};
ghost use Rattle.cert_text.specs.CertEvents.{cert_events, tree_events};
ghost use Rattle.cert_text.specs.Parts.{CertOf, unmark_cert};
ghost use Rattle.cert_text.specs.Trees.{Marked};
ghost use Rattle.cert_check.specs.Joined.{IsFoundHolding};
ghost use Rattle.cert_check.specs.Taken.{HasOwnParts, HasStored, falls};
ghost use Rattle.par_check.specs.Gathered.{bare_of};
ghost use Rattle.par_check.specs.Shards.{IsGoal};
ghost use Rattle.par_check.specs.ShardWalks.{BeginsShard, HasShards, MayTake, ShardsBegun, ShardsTaken, StaysTaken, TakesOn, goal_by, with_part};

use crate::checking::check_shards;
use crate::gathering::{Gathered, Gathering};
use crate::judging::lesser;
use crate::shard::{Goal, Shard};
use cert_check::{CertWalk, CheckFault, Verdict};
use cert_text::{Event, Tree};
use matrix_text::Matrix;
use pack_base::Gate;
use pack_model::{Labels, Memory, Problem, Values};
use std::alloc::Global;
use std::mem;
use std::thread::Threads;

/// What the trees of a certificate are to show, as far as a walk took its events.
fn goal_of(alloc: Global, problem: &Problem, walk: &CertWalk) -> Result<Goal, Memory>
    requires { HasStored problem.now walk.now }
    ensures goal { IfOk result (λ goal. goal ≡ goal_by walk.now) }
    ensures stands { IfOk result (IsGoal problem.now) }
{
    let lemmas = Vec::from_slice(alloc, walk.lemma_values())?;
    Ok(Goal {
        kind: walk.kind(),
        best: walk.best(),
        lemmas: Values::of(lemmas),
    })
}

/// A walk over the events of a certificate. For several workers it gathers each marked tree into a shard and
/// passes over it.
#[derive(Drop)]
pub(crate) struct ShardWalk {
    alloc: Global,
    /// The walk over all else.
    walk: CertWalk,
    /// The marked tree that is being read, if it is to be a shard.
    gathering: Option<Gathering>,
    /// The shards that are not judged yet.
    batch: Vec<Shard>,
    /// The number of the next shard.
    number: usize,
    /// The least lower bound at the open leaves of the shards that were judged, in eighths of ticks a common
    /// period, if there is one.
    lower: Option<u128>,
    /// Some shard doesn't stand.
    denied: bool,
}

impl ShardWalk {
    /// A walk that took no event.
    pub fn new(alloc: Global, problem: &Problem, matrix: &Matrix) -> Result<ShardWalk, Memory>
        ensures { IfOk result (λ walk. ShardsTaken problem.now matrix.now walk []) }
    {
        Ok(ShardWalk {
            alloc,
            walk: CertWalk::new(alloc, problem, matrix)?,
            gathering: None,
            batch: Vec::new(alloc),
            number: 0,
            lower: None,
            denied: false,
        })
    }

    /// Whether something of the trees is known not to stand.
    fn has_failed(&self) -> bool
        ensures { result ≡ self.now.denied || falls self.now.walk }
    {
        self.denied || self.walk.failed()
    }

    /// Takes the next event. True where the shards are to be judged now.
    fn take<G: Gate>(
        &mut self,
        problem: &Problem,
        workers: u32,
        gate: &G,
        event: Event,
    ) -> Result<bool, Memory>
        requires { MayTake problem.now self.old (event ∷ []) }
        ensures { OnOk result (TakesOn problem.now self.old self.new (event ∷ [])) }
    {
        match mem::take(&mut self.gathering) {
            None => Ok(self.walk_on(problem, workers, gate, &event)),
            Some(part) => self.gather(problem, workers, part, event),
        }
    }

    /// Takes an event that is not one of a shard. True where the main tree begins.
    fn walk_on<G: Gate>(&mut self, problem: &Problem, workers: u32, gate: &G, event: &Event) -> bool
        requires taken { MayTake problem.now self.old (event.now ∷ []) }
        requires none { self.old.gathering ≡ None }
        ensures { TakesOn problem.now self.old self.new (event.now ∷ []) }
    {
        self.walk.take(problem, event);
        match event {
            Event::ShardMark => {
                self.begin_shard(workers, gate);
                false
            }
            Event::Main => true,
            _ => false,
        }
    }

    /// Begins the marked tree after a mark that was taken. One worker alone judges it where it stands, as its
    /// events come, and enters the gate now; for several it is gathered into a shard.
    fn begin_shard<G: Gate>(&mut self, workers: u32, gate: &G)
        requires { self.old.gathering ≡ None }
        ensures { BeginsShard self.old self.new }
    {
        if self.has_failed() {
            return;
        }
        if workers > 1 {
            self.gathering = Some(Gathering::new(self.alloc));
            return;
        }
        gate.enter(self.number);
        self.number = self.number.saturating_add(1);
    }

    /// Takes an event of a shard, of which there is a part. True where it is the last one of a batch.
    fn gather(
        &mut self,
        problem: &Problem,
        workers: u32,
        part: Gathering,
        event: Event,
    ) -> Result<bool, Memory>
        requires taken { MayTake problem.now (with_part self.old part) (event ∷ []) }
        requires none { self.old.gathering ≡ None }
        ensures { OnOk result (TakesOn problem.now (with_part self.old part) self.new (event ∷ [])) }
    {
        match part.take(event)? {
            Gathered::Part(part) => {
                self.gathering = Some(part);
                Ok(false)
            }
            Gathered::Whole(tree) => {
                self.keep(problem, tree)?;
                Ok(self.is_full(workers))
            }
        }
    }

    /// Keeps a tree as a shard of the batch.
    fn keep(&mut self, problem: &Problem, tree: Tree) -> Result<(), Memory>
        requires taken { MayTake problem.now self.old (tree_events (bare_of tree)) }
        requires none { self.old.gathering ≡ None }
        requires stands { falls self.old.walk ≡ false }
        ensures { OnOk result (TakesOn problem.now self.old self.new (tree_events (bare_of tree))) }
    {
        let path = Vec::from_slice(self.alloc, self.walk.path())?;
        self.batch.push(Shard {
            number: self.number,
            lemma: self.walk.lemma(),
            path: Labels::of(path),
            tree,
        })?;
        self.number = self.number.saturating_add(1);
        self.walk.pass_over(problem);
        Ok(())
    }

    /// Whether the batch has as many shards of the main tree as are judged together.
    fn is_full(&self, workers: u32) -> bool {
        self.walk.lemma().is_none() && self.batch.len() >= 4 * workers as usize
    }

    /// Judges the shards that were gathered.
    fn judge<R: Threads + Sync, G: Gate + Sync>(
        &mut self,
        rt: &R,
        problem: &Problem,
        workers: u32,
        gate: &G,
    ) -> Result<(), Memory>
        requires some { 1 ≤ workers }
        requires few { workers ≤ 64 }
        requires taken { HasShards problem.now self.old }
        ensures judged { OnOk result (self.new.batch.items ≡ []) }
        ensures stays { OnOk result (StaysTaken problem.now self.old self.new) }
    {
        let batch = mem::replace(&mut self.batch, Vec::new(self.alloc));
        if self.has_failed() {
            return Ok(());
        }
        let goal = goal_of(self.alloc, problem, &self.walk)?;
        match check_shards(rt, self.alloc, problem, &goal, &batch, workers, gate) {
            Ok(joined) => {
                self.lower = lesser(self.lower, joined.lower);
                Ok(())
            }
            Err(CheckFault::RejectedTree) => {
                self.denied = true;
                Ok(())
            }
            // No other fault comes but want of memory.
            Err(_) => Err(Memory),
        }
    }

    /// Takes the next event, and judges the shards where that is the last one of a batch.
    pub fn go_on<R: Threads + Sync, G: Gate + Sync>(
        &mut self,
        rt: &R,
        problem: &Problem,
        workers: u32,
        gate: &G,
        event: Event,
    ) -> Result<(), Memory>
        requires some { 1 ≤ workers }
        requires few { workers ≤ 64 }
        requires taken { MayTake problem.now self.old (event ∷ []) }
        ensures { OnOk result (TakesOn problem.now self.old self.new (event ∷ [])) }
    {
        if !self.take(problem, workers, gate, event)? {
            return Ok(());
        }
        self.judge(rt, problem, workers, gate)
    }

    /// The verdict where all shards were judged.
    ///
    /// # Errors
    ///
    /// The first part of the rule that fails: `RejectedMatrix`, `RejectedTiming` or `RejectedTree`.
    fn verdict(&self, problem: &Problem) -> Result<Verdict, CheckFault>
        requires taken { HasShards problem.now self.now }
        requires judged { self.now.batch.items ≡ [] }
        ensures found { (rows : List MatrixRow) (marked : CertOf Marked) → HasOwnParts (unmark_cert marked)
            → ShardsTaken problem.now rows self.now (cert_events marked)
            → IsFoundHolding problem.now rows (unmark_cert marked) result }
    {
        match self.walk.verdict_joined(problem, self.lower) {
            Ok(shown) => {
                if self.denied {
                    Err(CheckFault::RejectedTree)
                } else {
                    Ok(shown)
                }
            }
            Err(fault) => Err(fault),
        }
    }

    /// The verdict of the certificate whose events were taken.
    ///
    /// # Errors
    ///
    /// The first part of the rule that fails: `RejectedMatrix`, `RejectedTiming` or `RejectedTree`; `Memory` where
    /// memory runs out.
    pub fn finish<R: Threads + Sync, G: Gate + Sync>(
        mut self,
        rt: &R,
        problem: &Problem,
        workers: u32,
        gate: &G,
    ) -> Result<Verdict, CheckFault>
        requires some { 1 ≤ workers }
        requires few { workers ≤ 64 }
        requires taken { HasShards problem.now self }
        ensures { (rows : List MatrixRow) (marked : CertOf Marked) → HasOwnParts (unmark_cert marked)
            → ShardsBegun problem.now rows self (cert_events marked)
            → IsFoundHolding problem.now rows (unmark_cert marked) result }
    {
        self.judge(rt, problem, workers, gate)?;
        self.verdict(problem)
    }
}
