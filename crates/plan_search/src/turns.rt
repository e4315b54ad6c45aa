//! The turns of senders: a lemma and a grouping of each whose search ends within its share.
ghost use Rattle.std.specs.Prelude.{◌≡◌, ◌≤◌, ◌<◌, length, map, IfOk, OnOk};
ghost use Rattle.pack_model.specs.Problem.{IsProblem};
ghost use Rattle.cert_text.specs.PlainTree.{plain_lemma, plain_of};
ghost use Rattle.tree_search.specs.Open.{nodes_of};
ghost use Rattle.plan_search.specs.Begin.{AreTurns, after_turn, turn_count as turn_count_of};
ghost use Rattle.plan_search.specs.Takes.{IsSpent, turns_of};

use crate::count::count_nodes;
use cert_text::Lemma;
use grouping_tree::Partial;
use pack_model::{Labels, Memory, Problem};
use search_judge::SearchJudge;
use std::alloc::Global;
use tree_search::Search;

/// What a sender's search that ended gives.
#[derive(Drop)]
struct Ended {
    /// The lemma on the sender.
    lemma: Lemma,
    /// The best grouping of its items, one label an item.
    labels: Labels,
}

/// What the turns of senders leave.
#[derive(Drop)]
pub(crate) struct Taken {
    /// The branches that are left.
    pub left: u64,
    /// The lemmas, by sender.
    pub lemmas: Vec<Lemma>,
    /// The best groupings of the senders whose search ended, by sender.
    pub groupings: Vec<Labels>,
}

impl Taken {
    /// Takes what a sender's search gives. Its tree has no more nodes than branches are left.
    fn take(&mut self, ended: Ended) -> Result<(), Memory>
        requires { nodes_of (plain_of ended.lemma.tree) ≤ self.old.left }
        ensures { OnOk result (turns_of self.new
            ≡ after_turn (turns_of self.old) (plain_lemma ended.lemma) ended.labels) }
    {
        let Ended { lemma, labels } = ended;
        self.left -= count_nodes(&lemma.tree);
        self.lemmas.push(lemma)?;
        self.groupings.push(labels)?;
        Ok(())
    }
}

/// Searches the groupings of a sender's items within so many steps. The only error is want of memory.
fn search_sender(
    alloc: Global,
    problem: &Problem,
    sender: u32,
    share: u64,
) -> Result<Option<Ended>, Memory>
    requires { sender < length problem.now.senders }
    ensures { IfOk result (IsSpent problem.now sender share) }
{
    let mut judge = SearchJudge::new(alloc, problem, Some(sender), &[])?;
    let partial = Partial::of_sender(alloc, problem, sender)?;
    let mut search = Search::new(alloc, problem, partial, None);
    search.advance(&mut judge, problem, share)?;
    if search.pending() {
        return Ok(None);
    }
    let Some(found) = search.take_found() else {
        unreachable!()
    };
    let value = 8 * found.load;
    let tree = search.into_trimmed(alloc, &judge, problem, value)?;
    let lemma = Lemma {
        sender,
        value,
        tree,
    };
    Ok(Some(Ended {
        lemma,
        labels: found.labels,
    }))
}

/// How many senders have a turn: all where there are two or more, else none.
fn turn_count(problem: &Problem) -> u32
    ensures count { result ≡ turn_count_of problem.now }
    ensures problem { IsProblem problem.now }
{
    let senders = problem.senders().len();
    if senders < 2 { 0 } else { senders as u32 }
}

/// The turns of senders within so many branches, one search at a time. The only error is want of memory.
pub(crate) fn take_turns(alloc: Global, problem: &Problem, branches: u64) -> Result<Taken, Memory>
    ensures turns { IfOk result (λ taken. AreTurns problem.now branches (turn_count_of problem.now)
        (turns_of taken)) }
    ensures problem { IfOk result (λ taken. IsProblem problem.now) }
{
    let mut taken = Taken {
        left: branches,
        lemmas: Vec::new(alloc),
        groupings: Vec::new(alloc),
    };
    let senders = turn_count(problem);
    for sender in 0..senders {
        let share = taken.left / u64::from(senders - sender + 1);
        if let Some(ended) = search_sender(alloc, problem, sender, share)? {
            taken.take(ended)?;
        }
    }
    Ok(taken)
}
