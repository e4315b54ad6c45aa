//! The work of one worker.
ghost use Rattle.std.specs.Prelude.{◌≡◌, ◌<◌, All, IfSome, length};
ghost use Rattle.cert_check.specs.Trees.{HasRoom};
ghost use Rattle.par_check.specs.Aims.{aim_at};
ghost use Rattle.par_check.specs.Shards.{AreFound, IsGoal, IsShard, lesser};

use crate::shard::{Goal, Shard};
use cert_check::{Aim, CheckFault, SubtreeJudge, lemma_aim, main_aim};
use pack_base::Gate;
use pack_model::Problem;
use std::alloc::Global;

/// What a subtree of the main tree is to show, or one of the tree of a sender's lemma.
fn aim_of(goal: &Goal, lemma: Option<u32>) -> Aim
    requires room { HasRoom goal.now.best }
    requires sender { IfSome lemma (λ sender. sender < length goal.now.lemmas) }
    ensures { result ≡ aim_at goal.now lemma }
{
    match lemma {
        None => main_aim(goal.kind, goal.best),
        Some(sender) => lemma_aim(sender, goal.lemmas.as_slice()[sender as usize]),
    }
}

/// The lesser of two numbers that may not be there.
pub(crate) fn lesser(least: Option<u128>, other: Option<u128>) -> Option<u128>
    ensures { result ≡ lesser least other }
{
    match (least, other) {
        (None, other) => other,
        (Some(least), None) => Some(least),
        (Some(least), Some(other)) => Some(least.min(other)),
    }
}

/// The least lower bound at the open leaves of shards in the main tree, in eighths of ticks a common period, if
/// there is one, where each shard stands. The gate is entered before each shard is judged.
///
/// # Errors
///
/// `RejectedTree` where some shard doesn't stand; `Memory` where memory runs out.
pub(crate) fn judge_in_turn<G: Gate>(
    alloc: Global,
    problem: &Problem,
    goal: &Goal,
    shards: &[Shard],
    gate: &G,
) -> Result<Option<u128>, CheckFault>
    requires goal { IsGoal problem.now goal.now }
    requires shards { All (IsShard problem.now) shards.now }
    ensures { AreFound problem.now goal.now shards.now result }
{
    let mut judge = SubtreeJudge::new(alloc, problem, goal.lemmas.as_slice())?;
    let mut least = None;
    for shard in shards {
        gate.enter(shard.number);
        let aim = aim_of(goal, shard.lemma);
        match judge.judge(problem, aim, shard.path.as_slice(), &shard.tree) {
            Ok(found) => least = lesser(least, found),
            Err(fault) => return Err(fault),
        }
    }
    Ok(least)
}
