//! Shards of a small problem.
ghost use Rattle.std.specs.Prelude.{◌≡◌, ◌≤◌, ◌<◌, ◌*◌, ◌^◌, All, length};
ghost use Rattle.grouping_tree.specs.Partial.{IsPartial};
ghost use Rattle.pack_model.specs.Signal.{SignalStands};
ghost use Rattle.cert_check.specs.Trees.{HasRoom};
ghost use Rattle.par_check.specs.Shards.{IsGoal, IsShard};

use crate::{Goal, Joined, Shard, check_feed_par, check_shards};
use cert_check::{CheckFault, FeedCheck, Verdict};
use cert_text::{Kind, Tree};
use grouping_tree::Partial;
use matrix_text::read_matrix;
use pack_base::{Gate, OpenGate, SteadyFolder};
use pack_model::{Labels, Name, Network, Problem, Signal, Values, problem_of};
use std::alloc::Global;
use std::process::Abort;
use std::sync::atomic::{AtomicU64, Ordering};
use std::thread::Threads;

/// A gate that adds up the numbers of the shards that entered.
#[derive(Drop)]
struct Sum {
    numbers: AtomicU64,
}

impl Gate for Sum {
    fn enter(&self, shard: usize) {
        let _before = self.numbers.fetch_add(shard as u64, Ordering::SeqCst);
    }
}

/// A signal of one byte every 10 ms.
fn signal(rt: &impl Abort, alloc: Global, name: &[u8], sender: &[u8]) -> Signal
    ensures { SignalStands result }
{
    Signal {
        name: Name::new(alloc, name).expect(rt, "a name"),
        sender: Name::new(alloc, sender).expect(rt, "a name"),
        pdu: None,
        bits: 8,
        period_us: 10_000,
        deadline_us: 10_000,
        jitter_us: 0,
    }
}

/// The problem of two such signals of two senders. Each alone is a frame of 7000 ticks, and so often is its period
/// in the common one of 10 ms: 56000 eighths.
fn two_senders(rt: &impl Abort, alloc: Global) -> Problem {
    two_signals(rt, alloc, b"ECU2")
}

/// The problem of two such signals, the first of ECU1.
fn two_signals(rt: &impl Abort, alloc: Global, sender: &[u8]) -> Problem {
    let network = Network {
        ticks_per_us: 80,
        nominal_ticks: 160,
        data_ticks: 40,
        first_id: 256,
    };
    let first = signal(rt, alloc, b"S1", b"ECU1");
    let second = signal(rt, alloc, b"S2", sender);
    let signals = Vec::from_array(alloc, [first, second]).expect(rt, "memory");
    problem_of(alloc, network, signals).expect(rt, "a problem")
}

/// The goal with this value of the lemma of each sender.
fn goal_of(rt: &impl Abort, alloc: Global, problem: &Problem, kind: Kind, value: u128) -> Goal
    ensures { IsGoal problem.now result }
{
    let values = vec![in alloc; value; problem.senders().len()].expect(rt, "memory");
    Goal {
        kind,
        best: Some(14_000),
        lemmas: Values::of(values),
    }
}

/// An inner node with one bound leaf.
fn one_bound(rt: &impl Abort, alloc: Global) -> Tree {
    let leaves = Vec::from_array(alloc, [Tree::Bound]).expect(rt, "memory");
    Tree::Inner(leaves)
}

/// The tree of a sender's lemma.
fn lemma_shard(rt: &impl Abort, alloc: Global, problem: &Problem, sender: u32) -> Shard
    ensures { IsShard problem.now result }
{
    assert!(rt; (sender as usize) < problem.senders().len());
    Shard {
        number: 1 + sender as usize,
        lemma: Some(sender),
        path: Labels::of(Vec::new(alloc)),
        tree: one_bound(rt, alloc),
    }
}

/// A tree where the first item has a label.
fn main_shard(rt: &impl Abort, alloc: Global, problem: &Problem, tree: Tree) -> Shard
    ensures { IsShard problem.now result }
{
    let mut partial = Partial::whole(alloc, problem).expect(rt, "memory");
    let label = partial.next_option(problem, 0).expect(rt, "an option");
    partial.put(problem, label);
    let path = Vec::from_slice(alloc, partial.labels()).expect(rt, "memory");
    Shard {
        number: 4,
        lemma: None,
        path: Labels::of(path),
        tree,
    }
}

/// The trees of two lemmas, and a tree where the first item has a label.
fn shards_with(rt: &impl Abort, alloc: Global, problem: &Problem, tree: Tree) -> Vec<Shard>
    ensures { All (IsShard problem.now) result.items }
{
    let first = lemma_shard(rt, alloc, problem, 0);
    let second = lemma_shard(rt, alloc, problem, 1);
    let main = main_shard(rt, alloc, problem, tree);
    Vec::from_array(alloc, [first, second, main]).expect(rt, "memory")
}

/// The bound where the first item has a label is 56000 of its frame and 56000 of the other sender's lemma. Each
/// shard enters the gate once.
#[test]
fn the_least_of_the_main_shard(rt: HostRuntime) {
    let problem = two_senders(&rt, rt.alloc());
    let goal = goal_of(&rt, rt.alloc(), &problem, Kind::KindBetween, 56_000);
    let shards = shards_with(&rt, rt.alloc(), &problem, Tree::Left);
    for workers in [1, 2, 64] {
        let gate = Sum {
            numbers: AtomicU64::new(0),
        };
        let answer = check_shards(&rt, rt.alloc(), &problem, &goal, &shards, workers, &gate);
        assert_eq!(rt;
            answer,
            Ok(Joined {
                lower: Some(112_000)
            })
        );
        assert_eq!(rt; gate.numbers.load(Ordering::SeqCst), 7);
    }
}

/// No lemma shows an eighth more, and in a certificate of kind `best` no leaf may be left open.
#[test]
fn a_shard_that_does_not_stand(rt: HostRuntime) {
    let problem = two_senders(&rt, rt.alloc());
    let gate = Sum {
        numbers: AtomicU64::new(0),
    };
    let more = goal_of(&rt, rt.alloc(), &problem, Kind::KindBetween, 56_001);
    let best = goal_of(&rt, rt.alloc(), &problem, Kind::KindBest, 56_000);
    let left = shards_with(&rt, rt.alloc(), &problem, Tree::Left);
    let closed = shards_with(&rt, rt.alloc(), &problem, one_bound(&rt, rt.alloc()));
    for workers in [1, 2, 64] {
        let answer = check_shards(&rt, rt.alloc(), &problem, &more, &left, workers, &gate);
        assert_eq!(rt; answer, Err(CheckFault::RejectedTree));
        let answer = check_shards(&rt, rt.alloc(), &problem, &best, &left, workers, &gate);
        assert_eq!(rt; answer, Err(CheckFault::RejectedTree));
        let answer = check_shards(&rt, rt.alloc(), &problem, &best, &closed, workers, &gate);
        assert_eq!(rt; answer, Ok(Joined { lower: None }));
    }
}

/// What is moved into a thread and shared among threads.
fn crosses<T: Send + Sync>(_value: &T) {}

/// Shards and goals may cross.
#[test]
fn shards_cross(rt: HostRuntime) {
    let problem = two_senders(&rt, rt.alloc());
    crosses(&goal_of(&rt, rt.alloc(), &problem, Kind::KindBest, 0));
    crosses(&main_shard(&rt, rt.alloc(), &problem, Tree::Bound));
}

/// The matrix of two signals of one sender in one frame of two bytes, which takes 7400 ticks.
const ONE_FRAME: &[u8] = b"id,sender,size,ticks,header,pdu,at,signal,start,bits\n\
    256,ECU1,2,7400,none,,0,S1,0,8\n\
    256,ECU1,2,7400,none,,0,S2,8,8\n";

/// Its certificate, of which the whole main tree is marked.
const MARKED: &[u8] =
    b"canpack certificate 1\nkind best\nframe 7400 0\nmain\nshard\ni 1\nb\njoin\nend\n";

/// What so many workers find of it.
fn found_by<R: Threads + Abort + Sync>(
    rt: &R,
    alloc: Global,
    problem: &Problem,
    workers: u32,
) -> Result<Verdict, FeedCheck>
    requires some { 1 ≤ workers }
    requires few { workers ≤ 64 }
{
    let matrix = read_matrix(alloc, ONE_FRAME).expect(rt, "a matrix");
    let mut folder = SteadyFolder::new(alloc);
    folder.put("CERT", MARKED).expect(rt, "memory");
    check_feed_par(
        rt,
        alloc,
        problem,
        &matrix,
        &mut folder,
        "CERT",
        workers,
        &OpenGate,
    )
}

/// One frame of two bytes is best, for every number of workers.
#[test]
fn a_marked_tree_is_judged(rt: HostRuntime) {
    let problem = two_signals(&rt, rt.alloc(), b"ECU1");
    let best = Ok(Verdict::Best { load: 7400 });
    assert_eq!(rt; found_by(&rt, rt.alloc(), &problem, 1), best);
    assert_eq!(rt; found_by(&rt, rt.alloc(), &problem, 2), best);
    assert_eq!(rt; found_by(&rt, rt.alloc(), &problem, 64), best);
}
