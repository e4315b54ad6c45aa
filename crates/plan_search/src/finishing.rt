//! The end of a plan whose main tree is given.
ghost use Rattle.std.specs.Prelude.{◌≡◌, ◌*◌, ◌^◌, ◌<◌, true, [], All, IfOk, IfSome, length, map};
ghost use Rattle.std.specs.List.{list_any};
ghost use Rattle.cert_text.specs.PlainTree.{plain_lemma, plain_of};
ghost use Rattle.cert_text.specs.Trees.{Plain};
ghost use Rattle.cert_text.specs.Written.{CertFits};
ghost use Rattle.bandwidth_bound.specs.Goals.{main_goal};
ghost use Rattle.bandwidth_bound.specs.Lemmas.{LemmasStand, values_of};
ghost use Rattle.bandwidth_bound.specs.Rule.{Accepts};
ghost use Rattle.bandwidth_bound.specs.Trees.{TreeStands};
ghost use Rattle.tree_search.specs.Flat.{flat};
ghost use Rattle.tree_search.specs.Open.{HasOptions};
ghost use Rattle.search_judge.specs.Findings.{FoundStands};
ghost use Rattle.plan_search.specs.Ending.{final_tree, is_left};
ghost use Rattle.plan_search.specs.Plan.{Ends, IsTrimmedPlan, cert_of_plan, judged_plan, load_found, verdict_of_plan};
ghost use Rattle.plan_search.specs.Searches.{trimmed, LemmaIsTrimmed};

use crate::beginning::lemma_values;
use crate::ending::end;
use crate::planned::Planned;
use crate::searching::load_found;
use cert_text::{Lemma, Tree};
use grouping_tree::Partial;
use pack_model::{Memory, Problem};
use search_judge::{SearchJudge, problem_stands};
use std::alloc::Global;
use tree_search::{Found, Node, flatten, tree_of, trim};

/// Whether the node is an open leaf.
fn is_left(node: &Node) -> bool
    ensures { result ≡ is_left node.now }
{
    match node {
        Node::Left => true,
        Node::Inner(_) | Node::Bound | Node::Fail(_) => false,
    }
}

/// Whether one of the nodes is an open leaf.
fn any_left(nodes: &[Node]) -> bool
    ensures { result ≡ list_any is_left nodes.now }
{
    for node in nodes {
        if is_left(node) {
            return true;
        }
    }
    false
}

/// The nodes of a tree over all items, trimmed where the lower bound with the values of lemmas reaches 8
/// times the load. The only error is want of memory.
fn trimmed_nodes(
    alloc: Global,
    problem: &Problem,
    values: &[u128],
    load: u128,
    nodes: Vec<Node>,
) -> Result<Vec<Node>, Memory>
    requires low { 8 * load < 2 ^ 128 }
    requires tree { (t : Plain) × (flat t ≡ nodes.items) × HasOptions problem.now.items [] t }
    ensures { IfOk result (λ kept. (t : Plain) → flat t ≡ nodes.items → HasOptions problem.now.items [] t
        → flat (trimmed problem.now None values.now (8 * load) t) ≡ kept.items) }
{
    let judge = SearchJudge::new(alloc, problem, None, values)?;
    let mut partial = Partial::whole(alloc, problem)?;
    let kept = trim(alloc, &judge, problem, &mut partial, nodes, 8 * load)?;
    Ok(kept)
}

/// The nodes of the tree that is written: trimmed, where no leaf is open and there is a best load. The only
/// error is want of memory.
fn final_nodes(
    alloc: Global,
    problem: &Problem,
    lemmas: &[Lemma],
    best: Option<u128>,
    nodes: Vec<Node>,
    is_open: bool,
) -> Result<Vec<Node>, Memory>
    requires lemmas { All (λ lemma. lemma.sender < length problem.now.senders) lemmas.now }
    requires low { IfSome best (λ load. 8 * load < 2 ^ 128) }
    requires tree { (t : Plain) × (flat t ≡ nodes.items) × HasOptions problem.now.items [] t }
    ensures { IfOk result (λ kept. (t : Plain) → flat t ≡ nodes.items → HasOptions problem.now.items [] t
        → flat (final_tree problem.now (values_of problem.now (map plain_lemma lemmas.now)) best is_open t)
        ≡ kept.items) }
{
    match best {
        Some(load) if !is_open => {
            let values = lemma_values(alloc, problem, lemmas)?;
            let kept = trimmed_nodes(alloc, problem, values.as_slice(), load, nodes)?;
            Ok(kept)
        }
        _ => Ok(nodes),
    }
}

/// Ends a plan with lemmas, the best grouping, if there is one, and the main tree: without an open leaf it is
/// trimmed, and the answer is `Best`, or `NoSolution` where there is no best grouping; else the answer is
/// `Spent`, with the tree as it stands. The only error is want of memory.
pub fn finish(
    alloc: Global,
    problem: &Problem,
    lemmas: Vec<Lemma>,
    best: Option<Found>,
    tree: Tree,
) -> Result<Planned, Memory>
    requires lemmas { LemmasStand problem.now (map plain_lemma lemmas.items) }
    requires best { IfSome best (FoundStands problem.now) }
    requires tree { TreeStands
        (main_goal problem.now (values_of problem.now (map plain_lemma lemmas.items)) (load_found best) true) []
        (plain_of tree) }
    ensures ends { IfOk result (Ends problem.now (map plain_lemma lemmas.items) best (plain_of tree)) }
    ensures accepted { IfOk result (λ planned. Accepts (judged_plan problem.now planned)
        (verdict_of_plan problem.now planned)) }
    ensures trimmed { All (LemmaIsTrimmed problem.now) (map plain_lemma lemmas.items)
        → IfOk result (IsTrimmedPlan problem.now) }
    ensures fits { IfOk result (λ planned. CertFits (cert_of_plan planned)) }
{
    problem_stands(problem);
    let mut nodes = Vec::new(alloc);
    flatten(tree, &mut nodes)?;
    let is_open = any_left(&nodes);
    let kept = final_nodes(alloc, problem, &lemmas, load_found(&best), nodes, is_open)?;
    let last = tree_of(alloc, kept)?;
    let planned = end(alloc, problem, lemmas, best, last, is_open)?;
    Ok(planned)
}
