//! The search over all items.
ghost use Rattle.std.specs.Prelude.{◌≡◌, ◌*◌, ◌^◌, ◌<◌, [], List, None, map, IfOk, IfSome};
ghost use Rattle.cert_text.specs.PlainTree.{plain_of};
ghost use Rattle.bandwidth_bound.specs.Prices.{lower8_of};
ghost use Rattle.bandwidth_bound.specs.Trees.{open_places};
ghost use Rattle.tree_search.specs.Open.{least_of};
ghost use Rattle.tree_search.specs.Shown.{IsAt, IsOf, items_of, start_of};
ghost use Rattle.tree_search.specs.Step.{Searched};
ghost use Rattle.search_judge.specs.Judges.{JudgesOver};
ghost use Rattle.search_judge.specs.Findings.{FoundStands};
ghost use Rattle.plan_search.specs.Ending.{IsEnded, final_tree};
ghost use Rattle.plan_search.specs.Plan.{last_found, load_found};

use cert_text::Tree;
use grouping_tree::Partial;
use pack_model::{Memory, Problem};
use search_judge::{SearchJudge, problem_stands};
use std::alloc::Global;
use tree_search::{Found, Opened, Search};

/// What a search over all items ended with.
#[derive(Drop)]
pub(crate) struct Ended {
    /// The best grouping, if there is one.
    pub best: Option<Found>,
    /// Some leaf is open.
    pub is_open: bool,
    /// The tree, trimmed where no leaf is open and there is a best grouping.
    pub tree: Tree,
    /// The least bound at its open leaves, in eighths of ticks a common period; none where no leaf is open.
    pub least: Option<u128>,
}

/// The load of a grouping that may not be there.
pub(crate) fn load_found(found: &Option<Found>) -> Option<u128>
    ensures { result ≡ load_found found.now }
{
    match found {
        Some(one) => Some(one.load),
        None => None,
    }
}

/// The grouping that a search found last, or else the one that it began with.
fn last_found(found: Option<Found>, first: Option<Found>) -> Option<Found>
    ensures { result ≡ last_found found first }
{
    match found {
        Some(one) => Some(one),
        None => first,
    }
}

/// The tree of a search over all items, trimmed where no leaf is open and there is a best load, and the least
/// bound at its open leaves. The only error is want of memory.
fn final_tree(
    alloc: Global,
    judge: &SearchJudge,
    problem: &Problem,
    search: Search,
) -> Result<Opened, Memory>
    requires search { IsOf problem.now search }
    requires suits { JudgesOver problem.now problem.now.items judge.now }
    requires items { items_of problem.now search ≡ problem.now.items }
    requires start { start_of search ≡ [] }
    requires tree { (x : Searched) × IsAt problem.now search x }
    requires low { IfSome search.best (λ load. 8 * load < 2 ^ 128) }
    ensures tree { IfOk result (λ opened. (x : Searched) → IsAt problem.now search x
        → plain_of opened.tree
        ≡ final_tree problem.now judge.now.values.items search.best search.open x.tree) }
    ensures least { IfOk result (λ opened. (x : Searched) → IsAt problem.now search x
        → opened.least ≡ least_of (map (lower8_of problem.now judge.now.values.items problem.now.items)
        (open_places problem.now.items [] x.tree))) }
{
    match search.best() {
        Some(load) if !search.pending() => {
            let tree = search.into_trimmed(alloc, judge, problem, 8 * load)?;
            Ok(Opened { tree, least: None })
        }
        _ => {
            let opened = search.into_tree(alloc, judge, problem)?;
            Ok(opened)
        }
    }
}

/// Searches over all items from a first best grouping, if there is one, by bounds with the values of lemmas,
/// in at most so many steps. The only error is want of memory.
pub(crate) fn search_all(
    alloc: Global,
    problem: &Problem,
    values: &[u128],
    first: Option<Found>,
    left: u64,
) -> Result<Ended, Memory>
    requires { IfSome first (FoundStands problem.now) }
    ensures { IfOk result (IsEnded problem.now values.now first left) }
{
    problem_stands(problem);
    let mut judge = SearchJudge::new(alloc, problem, None, values)?;
    let partial = Partial::whole(alloc, problem)?;
    let mut search = Search::new(alloc, problem, partial, load_found(&first));
    search.advance(&mut judge, problem, left)?;
    let best = last_found(search.take_found(), first);
    let is_open = search.pending();
    let Opened { tree, least } = final_tree(alloc, &judge, problem, search)?;
    Ok(Ended {
        best,
        is_open,
        tree,
        least,
    })
}
