//! The walk over the events of a certificate.
ghost use Rattle.std.specs.Prelude.{◌≡◌, ◌<◌, ◌++◌, ◌∷◌, [], List, None, Some, false, true, ◌↔◌, IfOk, IfSome, IsErrOf, IsTrue, OnOk, length, map};
ghost use Rattle.pack_model.specs.Problem.{Parts};
ghost use Rattle.matrix_rows.specs.declared.matrix.MatrixRow.{MatrixRow};
ghost use Rattle.cert_text.specs.CertEvents.{cert_events};
ghost use Rattle.cert_text.specs.Parts.{CertOf, unmark_cert};
ghost use Rattle.cert_text.specs.PlainTree.{plain_of};
ghost use Rattle.cert_text.specs.Trees.{Marked, Plain};
ghost use Rattle.grouping_tree.specs.Grouped.{items_in};
ghost use Rattle.grouping_tree.specs.Partial.{IsPartial};
ghost use Rattle.bandwidth_bound.specs.Follows.{Holds};
ghost use Rattle.bandwidth_bound.specs.Rule.{MatrixOfKind, TimingOfKind};
ghost use Rattle.cert_check.specs.Accept.{IsFound, judged_of};
ghost use Rattle.cert_check.specs.Entries.{Entry, as_event, as_hole};
ghost use Rattle.cert_check.specs.Nodes.{bound_leaf, fail_leaf, hole, inner_node, lowered, nodes_of, open_leaf};
ghost use Rattle.cert_check.specs.Places.{labels_at};
ghost use Rattle.cert_check.specs.Said.{Said, and_said, lemma_begun, main_begun, said_by, with_end, with_kind, with_line, with_node, with_nodes};
ghost use Rattle.cert_check.specs.Trees.{HasRoom, lower_with};
ghost use Rattle.cert_check.specs.Taken.{HasOwnParts, IsClosed, IsOpen, ComesNext, HasStored, HasTaken, IsShowing, Stores, StoresMore, Taken, falls, load_in, one_more};
ghost use Rattle.cert_check.specs.Told.{IsFoundOf, IsFoundTold, IsVerdictTold};

use crate::aims::in_eighths;
use crate::fault::CheckFault;
use crate::kinds::{is_kind_placed, may_leave};
use crate::placing::{Placing, place};
use crate::tree::take_tree;
use crate::walk::{Aim, Walk, least_with};
use bandwidth_bound::Verdict;
use cert_text::{Event, FrameLine, Kind, Tree};
use matrix_text::Matrix;
use pack_model::{Memory, Problem};
use response_test::Evidence;
use std::alloc::Global;

/// The lesser of a bound in eighths and of the load of the best, if there is one.
fn lower_with(best: Option<u128>, least: u128) -> u128
    requires { HasRoom best }
    ensures { result ≡ lower_with best least }
{
    match best {
        None => least,
        Some(load) => least.min(8 * load),
    }
}

/// A walk over the events of a certificate, which judges it with a matrix, and keeps none of its trees.
#[derive(Drop)]
pub struct CertWalk {
    /// The matrix has rows.
    has_rows: bool,
    /// Its frames, where it is placed.
    placing: Option<Placing>,
    /// What the certificate is to show.
    kind: Kind,
    /// How many frame lines there were, up to 2^32 - 1.
    lines: u32,
    /// Some frame line doesn't show its frame.
    late: bool,
    /// The sender of the last lemma.
    last: Option<u32>,
    /// Something of a tree before the one of the walk doesn't stand, or that one can't begin.
    failed: bool,
    /// The walk over the tree.
    walk: Walk,
    /// The end was taken.
    finished: bool,
}

impl CertWalk {
    /// A walk that took no event. It takes all the memory that later calls need.
    pub fn new(alloc: Global, problem: &Problem, matrix: &Matrix) -> Result<CertWalk, Memory>
        ensures { IfOk result (λ walk. Taken walk problem.now matrix.now []) }
    {
        let placing = place(alloc, problem, matrix)?;
        let mut walk = Walk::new(alloc, problem)?;
        let aim = Aim {
            range: None,
            value: None,
            may_leave: false,
        };
        walk.begin(problem, aim);
        Ok(CertWalk {
            has_rows: !matrix.rows().is_empty(),
            placing,
            kind: Kind::KindPlaced,
            lines: 0,
            late: false,
            last: None,
            failed: false,
            walk,
            finished: false,
        })
    }

    /// Whether the end was taken.
    pub fn finished(&self) -> bool
        ensures { result ≡ self.now.finished }
    {
        self.finished
    }

    /// What the certificate is to show.
    pub fn kind(&self) -> Kind
        ensures value { result ≡ self.now.kind }
        ensures told { (problem : Parts) (rows : List MatrixRow) (entries : List Entry)
            → Taken self.now problem rows entries
            → result ≡ (said_by problem (load_in self.now.placing) entries).kind }
    {
        self.kind
    }

    /// The load of the matrix in ticks a common period, where it is placed, so that it has rows.
    pub fn best(&self) -> Option<u128>
        ensures value { result ≡ load_in self.now.placing }
        ensures room { (problem : Parts) → HasStored problem self.now → HasRoom result }
    {
        match &self.placing {
            None => None,
            Some(placing) => Some(placing.load),
        }
    }

    /// The values of the lemmas so far by sender, 0 where there is none, in eighths of ticks a common period. Once
    /// the walk has failed they may be any numbers.
    pub fn lemma_values(&self) -> &[u128]
        ensures value { result.now ≡ self.now.walk.values.items }
        ensures senders { (problem : Parts) → HasStored problem self.now
            → length result.now ≡ length problem.senders }
        ensures told { (problem : Parts) (rows : List MatrixRow) (entries : List Entry)
            → Taken self.now problem rows entries → falls self.now ≡ false
            → result.now ≡ (said_by problem (load_in self.now.placing) entries).values }
    {
        self.walk.values()
    }

    /// The sender over whose items the tree is that the walk is in; none in the main tree.
    pub fn lemma(&self) -> Option<u32>
        ensures value { result ≡ self.now.walk.aim.range }
        ensures there { (problem : Parts) → HasStored problem self.now → falls self.now ≡ false
            → IfSome result (λ sender. sender < length problem.senders) }
    {
        self.walk.range()
    }

    /// The labels of the place where the walk is: a partial grouping of its tree's items.
    pub fn path(&self) -> &[u32]
        requires stored { (problem : Parts) × HasStored problem self.now }
        requires stands { falls self.now ≡ false }
        ensures value { result.now ≡ labels_at self.now.walk.place }
        ensures legal { (problem : Parts) → HasStored problem self.now
            → IsPartial (items_in problem.items self.now.walk.aim.range) result.now }
    {
        self.walk.place()
    }

    /// Whether something of the trees doesn't stand, so that the certificate is rejected, whatever follows.
    pub fn failed(&self) -> bool
        ensures { result ≡ falls self.now }
    {
        self.failed || self.walk.has_failed()
    }

    /// Takes the kind.
    pub(crate) fn take_kind(&mut self, kind: Kind)
        ensures { (problem : Parts) → StoresMore problem self.old self.new (with_kind kind) }
    {
        self.kind = kind;
    }

    /// Whether a frame line shows the frame at the next place, where the matrix is placed.
    fn line_shows(&self, problem: &Problem, line: &FrameLine) -> bool
        requires { HasStored problem.now self.now }
        ensures { IsShowing problem.now self.now.placing self.now.lines line.now result }
    {
        match &self.placing {
            None => true,
            Some(placing) => {
                let bit = u64::from(problem.network().nominal_ticks);
                placing.shows(bit, self.lines as usize, line)
            }
        }
    }

    /// Takes a frame line.
    pub(crate) fn take_line(&mut self, problem: &Problem, line: &FrameLine)
        requires { HasStored problem.now self.old }
        ensures { StoresMore problem.now self.old self.new (with_line line.now) }
    {
        self.late |= !self.line_shows(problem, line);
        self.lines = self.lines.saturating_add(1);
    }

    /// Whether the sender of a lemma is there, and comes after that of the lemma before.
    fn comes_next(&self, problem: &Problem, sender: u32) -> bool
        ensures { IsTrue result ↔ ComesNext problem.now self.now.last (Some sender) }
    {
        if sender as usize >= problem.senders().len() {
            return false;
        }
        match self.last {
            None => true,
            Some(last) => last < sender,
        }
    }

    /// Takes the line of a lemma; its tree begins.
    pub(crate) fn take_lemma(&mut self, problem: &Problem, sender: u32, value: u128)
        requires { HasStored problem.now self.old }
        ensures { StoresMore problem.now self.old self.new (lemma_begun sender value) }
    {
        if self.failed() || !self.comes_next(problem, sender) {
            self.failed = true;
            return;
        }
        let aim = Aim {
            range: Some(sender),
            value: Some(value),
            may_leave: false,
        };
        self.last = Some(sender);
        self.walk.keep_value(sender, value);
        self.walk.begin(problem, aim);
    }

    /// The main tree begins.
    pub(crate) fn take_main(&mut self, problem: &Problem)
        requires { HasStored problem.now self.old }
        ensures { StoresMore problem.now self.old self.new (main_begun (load_in self.old.placing)) }
    {
        if self.failed() {
            self.failed = true;
            return;
        }
        let aim = Aim {
            range: None,
            value: in_eighths(self.best()),
            may_leave: may_leave(self.kind),
        };
        self.walk.begin(problem, aim);
    }

    /// Takes an inner node with so many subtrees.
    pub(crate) fn take_inner(&mut self, problem: &Problem, subtrees: usize)
        requires { HasStored problem.now self.old }
        ensures { StoresMore problem.now self.old self.new (with_node (inner_node subtrees)) }
    {
        if !self.failed {
            self.walk.take_inner(problem, subtrees);
        }
    }

    /// Takes a bound leaf.
    pub(crate) fn take_bound(&mut self, problem: &Problem)
        requires { HasStored problem.now self.old }
        ensures { StoresMore problem.now self.old self.new (with_node bound_leaf) }
    {
        if !self.failed {
            self.walk.take_bound(problem);
        }
    }

    /// Takes an open leaf.
    pub(crate) fn take_open(&mut self, problem: &Problem)
        requires { HasStored problem.now self.old }
        ensures { StoresMore problem.now self.old self.new (with_node open_leaf) }
    {
        if !self.failed {
            self.walk.take_open(problem);
        }
    }

    /// Takes a fail leaf.
    pub(crate) fn take_fail(&mut self, problem: &Problem, named: &[(u32, Evidence)])
        requires { HasStored problem.now self.old }
        ensures { StoresMore problem.now self.old self.new (with_node (fail_leaf named.now)) }
    {
        if !self.failed {
            self.walk.take_fail(problem, named);
        }
    }

    /// Takes the nodes of a tree.
    pub(crate) fn take_tree(&mut self, problem: &Problem, tree: &Tree)
        requires { HasStored problem.now self.old }
        ensures { StoresMore problem.now self.old self.new (with_nodes (nodes_of (plain_of tree.now))) }
    {
        if !self.failed {
            take_tree(&mut self.walk, problem, tree);
        }
    }

    /// Takes the end.
    pub(crate) fn take_finish(&mut self)
        ensures { (problem : Parts) → StoresMore problem self.old self.new with_end }
    {
        self.finished = true;
    }

    /// Takes the next event. It takes no memory.
    fn take_event(&mut self, problem: &Problem, event: &Event)
        requires { HasStored problem.now self.old }
        ensures { StoresMore problem.now self.old self.new
            (λ s. and_said (load_in self.old.placing) s event.now) }
    {
        match event {
            Event::Head(kind) => self.take_kind(*kind),
            Event::FrameOf(line) => self.take_line(problem, line),
            Event::LemmaOf { sender, value } => self.take_lemma(problem, *sender, *value),
            Event::Main => self.take_main(problem),
            Event::Node(subtrees) => self.take_inner(problem, *subtrees as usize),
            Event::BoundLeaf => self.take_bound(problem),
            Event::OpenLeaf => self.take_open(problem),
            Event::FailLeaf(refuted) => self.take_fail(problem, refuted.as_slice()),
            Event::ShardMark | Event::JoinMark => {}
            Event::Finish => self.take_finish(),
        }
    }

    /// Takes the next event. It takes no memory.
    pub fn take(&mut self, problem: &Problem, event: &Event)
        requires { HasTaken self.old problem.now }
        ensures taken { (rows : List MatrixRow) (entries : List Entry) → Taken self.old problem.now rows entries
            → Taken self.new problem.now rows (entries ++ as_event event.now ∷ []) }
    {
        self.take_event(problem, event);
    }

    /// Takes a hole, of which the walk is told nothing.
    fn take_hole(&mut self, problem: &Problem)
        requires { HasStored problem.now self.old }
        ensures { (tree : Plain) → StoresMore problem.now self.old self.new (with_node (hole tree)) }
    {
        if !self.failed {
            self.walk.take_hole(problem);
        }
    }

    /// Takes a hole in the place of all events of the tree that would come next, whatever tree it is. It takes no
    /// memory.
    pub fn pass_over(&mut self, problem: &Problem)
        requires { HasTaken self.old problem.now }
        ensures taken { (rows : List MatrixRow) (entries : List Entry) (tree : Marked)
            → Taken self.old problem.now rows entries
            → Taken self.new problem.now rows (entries ++ as_hole tree ∷ []) }
    {
        self.take_hole(problem);
    }

    /// Whether the matrix part of the rule holds.
    fn matrix_stands(&self) -> bool
        ensures { (problem : Parts) (rows : List MatrixRow) (s : Said) → Stores problem rows self.now s
            → IsTrue result ↔ MatrixOfKind s.kind problem rows }
    {
        let placed = self.placing.is_some();
        match self.kind {
            Kind::KindPlaced | Kind::KindTimed | Kind::KindBest => placed,
            Kind::KindBetween => placed || !self.has_rows,
            Kind::KindNoSolution => !self.has_rows,
        }
    }

    /// Whether the timing part of the rule holds, where the matrix part does.
    fn timing_stands(&self) -> bool
        ensures { (problem : Parts) (rows : List MatrixRow) (s : Said) → Stores problem rows self.now s
            → MatrixOfKind s.kind problem rows → IsTrue result ↔ TimingOfKind s.kind problem rows s.lines }
    {
        if is_kind_placed(self.kind) {
            return self.lines == 0;
        }
        match &self.placing {
            None => self.lines == 0,
            Some(placing) => !self.late && self.lines as usize == placing.order.len(),
        }
    }

    /// The verdict where the trees stand without open leaves.
    fn judge_closed(&self, shown: Verdict) -> Result<Verdict, CheckFault>
        ensures { IsClosed self.now shown result }
    {
        if self.failed() {
            return Err(CheckFault::RejectedTree);
        }
        Ok(shown)
    }

    /// The least bound at the open leaves of the main tree, with one more where it is given.
    fn least_with(&self, lower: Option<u128>) -> Option<u128>
        ensures { result ≡ lowered self.now.walk.least (one_more lower) }
    {
        match lower {
            None => self.walk.least(),
            Some(bound) => Some(least_with(self.walk.least(), bound)),
        }
    }

    /// The verdict where the trees stand with open leaves, and with one more of the bound that may be given.
    fn judge_open(&self, lower: Option<u128>, best: Option<u128>) -> Result<Verdict, CheckFault>
        requires { HasRoom best }
        ensures { IsOpen self.now lower best result }
    {
        if self.failed() {
            return Err(CheckFault::RejectedTree);
        }
        match self.least_with(lower) {
            None => Err(CheckFault::RejectedTree),
            Some(least) => Ok(Verdict::Between {
                best,
                lower: lower_with(best, least),
            }),
        }
    }

    /// Judges the trees, where matrix and times hold.
    fn judge_trees(&self, lower: Option<u128>) -> Result<Verdict, CheckFault>
        requires { (problem : Parts) × HasStored problem self.now }
        ensures { (problem : Parts) (rows : List MatrixRow) (s : Said) → Stores problem rows self.now s
            → IsVerdictTold problem (load_in self.now.placing) s lower result }
    {
        let best = self.best();
        let load = best.unwrap_or(0);
        match self.kind {
            Kind::KindPlaced => Ok(Verdict::Placed),
            Kind::KindTimed => Ok(Verdict::Timed { load }),
            Kind::KindBetween => self.judge_open(lower, best),
            Kind::KindBest => self.judge_closed(Verdict::Best { load }),
            Kind::KindNoSolution => self.judge_closed(Verdict::NoSolution),
        }
    }

    /// What is found of what was told, where the main tree has one more open leaf of the bound that may be given.
    pub(crate) fn judge(&self, lower: Option<u128>) -> Result<Verdict, CheckFault>
        requires { (problem : Parts) × HasStored problem self.now }
        ensures told { (problem : Parts) (rows : List MatrixRow) (s : Said) → Stores problem rows self.now s
            → IsFoundTold problem rows (load_in self.now.placing) s lower result }
        ensures known { ¬ (IsErrOf result CheckFault.Memory) }
    {
        if !self.matrix_stands() {
            return Err(CheckFault::RejectedMatrix);
        }
        if !self.timing_stands() {
            return Err(CheckFault::RejectedTiming);
        }
        self.judge_trees(lower)
    }

    /// The verdict of the certificate whose events were taken, by the acceptance rule, where a hole counts as a
    /// tree that stands at its place and has no open leaf.
    ///
    /// # Errors
    ///
    /// The first part of the rule that fails: `RejectedMatrix`, `RejectedTiming` or `RejectedTree`.
    pub fn verdict(&self, problem: &Problem) -> Result<Verdict, CheckFault>
        requires { HasTaken self.now problem.now }
        ensures found { (rows : List MatrixRow) (marked : CertOf Marked) → HasOwnParts (unmark_cert marked)
            → Taken self.now problem.now rows (map as_event (cert_events marked))
            → IsFound problem.now rows (unmark_cert marked) result }
        ensures holds { (rows : List MatrixRow) (marked : CertOf Marked) → HasOwnParts (unmark_cert marked)
            → Taken self.now problem.now rows (map as_event (cert_events marked))
            → OnOk result (Holds (judged_of problem.now rows (unmark_cert marked))) }
        ensures told { (rows : List MatrixRow) (entries : List Entry) → Taken self.now problem.now rows entries
            → IsFoundOf problem.now rows self.now entries None result }
        ensures known { ¬ (IsErrOf result CheckFault.Memory) }
    {
        self.judge(None)
    }

    /// The verdict as it would be if the main tree of a certificate of the kind `open` had one more open leaf of
    /// the bound `lower`, in eighths of ticks a common period, where it is given; for the other kinds the bound
    /// is not looked at. So where trees were passed over and stand, and the least bound at their open leaves in
    /// the main tree is given, it is the verdict of the whole certificate.
    ///
    /// # Errors
    ///
    /// The first part of the rule that fails: `RejectedMatrix`, `RejectedTiming` or `RejectedTree`.
    pub fn verdict_joined(
        &self,
        problem: &Problem,
        lower: Option<u128>,
    ) -> Result<Verdict, CheckFault>
        requires { HasTaken self.now problem.now }
        ensures told { (rows : List MatrixRow) (entries : List Entry) → Taken self.now problem.now rows entries
            → IsFoundOf problem.now rows self.now entries lower result }
        ensures known { ¬ (IsErrOf result CheckFault.Memory) }
    {
        self.judge(lower)
    }
}
