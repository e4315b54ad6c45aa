//! The check of marked subtrees by several workers.
ghost use Rattle.std.specs.Prelude.{◌≡◌, ◌≤◌, All, None};
ghost use Rattle.par_check.specs.Shards.{AreFound, AreJudged, IsGoal, IsShard, joined_from};

use crate::judging::{judge_in_turn, lesser};
use crate::shard::{Goal, Joined, Shard};
use cert_check::CheckFault;
use pack_base::Gate;
use pack_model::Problem;
use std::alloc::Global;
use std::thread;
use std::thread::Threads;

/// The first fault of some answers, else the least of what they found.
fn join(answers: &[Result<Option<u128>, CheckFault>]) -> Result<Option<u128>, CheckFault>
    ensures { result ≡ joined_from None answers.now }
{
    let mut least = None;
    for answer in answers {
        match *answer {
            Ok(found) => least = lesser(least, found),
            Err(fault) => return Err(fault),
        }
    }
    Ok(least)
}

/// Judges each shard at its place, by at most so many workers, of which each enters the gate with a shard's
/// number before it judges the shard. The answer is the same for every number of workers.
///
/// # Errors
///
/// `RejectedTree` where some shard doesn't stand; `Memory` where memory runs out.
pub fn check_shards<R: Threads + Sync, G: Gate + Sync>(
    rt: &R,
    alloc: Global,
    problem: &Problem,
    goal: &Goal,
    shards: &[Shard],
    workers: u32,
    gate: &G,
) -> Result<Joined, CheckFault>
    requires goal { IsGoal problem.now goal.now }
    requires shards { All (IsShard problem.now) shards.now }
    requires some { 1 ≤ workers }
    requires few { workers ≤ 64 }
    ensures { AreJudged problem.now goal.now shards.now result }
{
    let size = shards.len().div_ceil(workers as usize).max(1);
    let answers = thread::map_chunks(
        rt,
        alloc,
        shards,
        size,
        &|_, part| judge_in_turn(alloc, problem, goal, part, gate),
    )?;
    match join(&answers) {
        Ok(lower) => Ok(Joined { lower }),
        Err(fault) => Err(fault),
    }
}
