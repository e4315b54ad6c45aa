//! What a plan ends with.
ghost use Rattle.std.specs.Prelude.{◌≡◌, ◌*◌, ◌^◌, ◌<◌, ℕ, IfOk, IfSome, map};
ghost use Rattle.cert_text.specs.PlainTree.{plain_lemma, plain_of};
ghost use Rattle.cert_text.specs.Trees.{Plain};
ghost use Rattle.bandwidth_bound.specs.Lemmas.{values_of};
ghost use Rattle.tree_search.specs.Open.{has_open};
ghost use Rattle.search_judge.specs.Findings.{FoundStands};
ghost use Rattle.plan_search.specs.Ending.{final_tree, lower_with, plan_with, plan_without, verdict_with};
ghost use Rattle.plan_search.specs.Plan.{Ends, load_found};

use crate::planned::Planned;
use crate::shown::shown_by;
use bandwidth_bound::Verdict;
use cert_text::{Cert, FrameLine, Kind, Lemma, Tree};
use matrix_text::Matrix;
use pack_model::{Memory, Problem};
use std::alloc::Global;
use tree_search::Found;

/// The plan of a matrix with its lines, of lemmas and a final tree.
fn plan_with(
    matrix: Matrix,
    lines: Vec<FrameLine>,
    lemmas: Vec<Lemma>,
    tree: Tree,
    is_open: bool,
) -> Planned
    ensures { result ≡ plan_with matrix lines.items (map plain_lemma lemmas.items) (plain_of tree) is_open }
{
    if is_open {
        let cert = Cert::of(Kind::KindBetween, lines, lemmas, Some(tree));
        return Planned::Spent(Some(matrix), cert);
    }
    Planned::Best(matrix, Cert::of(Kind::KindBest, lines, lemmas, Some(tree)))
}

/// The plan of lemmas and a final tree, without a matrix.
fn plan_without(alloc: Global, lemmas: Vec<Lemma>, tree: Tree, is_open: bool) -> Planned
    ensures { result ≡ plan_without (map plain_lemma lemmas.items) (plain_of tree) is_open }
{
    let lines = Vec::new(alloc);
    if is_open {
        return Planned::Spent(None, Cert::of(Kind::KindBetween, lines, lemmas, Some(tree)));
    }
    Planned::NoSolution(Cert::of(Kind::KindNoSolution, lines, Vec::new(alloc), Some(tree)))
}

/// What a plan ends with: lemmas, the best grouping, if there is one, the final tree, and whether a leaf is
/// open in it. The only error is want of memory.
pub(crate) fn end(
    alloc: Global,
    problem: &Problem,
    lemmas: Vec<Lemma>,
    best: Option<Found>,
    tree: Tree,
    is_open: bool,
) -> Result<Planned, Memory>
    requires { IfSome best (FoundStands problem.now) }
    ensures { IfOk result (λ planned. (t : Plain) → has_open t ≡ is_open
        → plain_of tree ≡ final_tree problem.now (values_of problem.now (map plain_lemma lemmas.items))
        (load_found best) is_open t
        → Ends problem.now (map plain_lemma lemmas.items) best t planned) }
{
    match best {
        None => Ok(plan_without(alloc, lemmas, tree, is_open)),
        Some(found) => {
            let (matrix, lines) = shown_by(alloc, problem, &found)?;
            Ok(plan_with(matrix, lines, lemmas, tree, is_open))
        }
    }
}

/// The lower bound that is shown where branches are spent: the least bound at the open leaves, and at most 8
/// times the best load, in eighths of ticks a common period.
fn lower_with(best: Option<u128>, least: u128) -> u128
    requires { IfSome best (λ load. 8 * load < 2 ^ 128) }
    ensures { result ≡ lower_with best least }
{
    match best {
        None => least,
        Some(load) => least.min(8 * load),
    }
}

/// The verdict of a plan: the best load, or that there is none, or where a leaf is open the best load so far
/// and the lower bound, from the least bound at the open leaves in eighths of ticks a common period.
pub(crate) fn verdict_with(best: Option<u128>, is_open: bool, least: Option<u128>) -> Verdict
    requires { IfSome best (λ load. 8 * load < 2 ^ 128) }
    ensures { result ≡ verdict_with best is_open least }
{
    if is_open {
        let lower = lower_with(best, least.unwrap_or(0));
        return Verdict::Between { best, lower };
    }
    match best {
        None => Verdict::NoSolution,
        Some(load) => Verdict::Best { load },
    }
}
