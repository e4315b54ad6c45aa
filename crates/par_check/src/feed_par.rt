//! The checking of a certificate that is read piece by piece, whose marked trees several workers judge.
ghost use Rattle.std.specs.Prelude.{◌≡◌, ◌≤◌, List, ℕ, IsErrOf, IsSome};
ghost use Rattle.pack_base.specs.Counts.{Rose};
ghost use Rattle.pack_base.specs.Outside.{Later, SameFaults, bytes_at};
ghost use Rattle.cert_check.specs.Feed.{FeedFinds, IsOfSize};

use crate::shard_walk::ShardWalk;
use cert_check::{FeedCheck, Verdict};
use cert_text::CertFeed;
use matrix_text::Matrix;
use pack_base::{Folder, Gate};
use pack_model::Problem;
use std::alloc::Global;
use std::thread::Threads;

/// The verdict of the certificate in the file of this name on a problem's matrix, by the acceptance rule. It
/// reads the file by pieces. The answer is that of `check_feed` for every number of workers.
///
/// One worker alone judges each tree as it is read, and keeps nothing of it. Several judge the marked trees, each
/// of which is kept until then; of other trees nothing is kept. The trees that are marked before the main tree are
/// judged together when that begins, and later ones when four times as many as there are workers were read, before
/// the file is read on. A worker enters the gate with a tree's number, from 0 in the order of the marks, before it
/// judges the tree.
///
/// # Errors
///
/// `ReadFault` where a read failed; `TooLarge` where the file gave more than 2^63 - 1 bytes; `BadLine(n)` and
/// `Cut` where the text is that of no certificate; else the first part of the rule that fails,
/// `RejectedMatrix`, `RejectedTiming` or `RejectedTree`, once the file was read to its end; `Memory` where
/// memory runs out.
pub fn check_feed_par<R: Threads + Sync, F: Folder, G: Gate + Sync>(
    rt: &R,
    alloc: Global,
    problem: &Problem,
    matrix: &Matrix,
    folder: &mut F,
    name: &str,
    workers: u32,
    gate: &G,
) -> Result<Verdict, FeedCheck>
    requires least { 1 ≤ workers }
    requires most { workers ≤ 64 }

    // Where the file is told, the answer is that of its bytes; they are as many as a text has, or too many.
    ensures told { IsSome (F.files folder.old)
        → FeedFinds problem.now matrix.now (bytes_at (F.files folder.old) name.now) result }
    ensures size { IsSome (F.files folder.old) → IsOfSize (bytes_at (F.files folder.old) name.now) result }
    // In any case it is that of some bytes.
    ensures some { (bytes : List ℕ) × FeedFinds problem.now matrix.now bytes result }

    ensures files { F.files folder.new ≡ F.files folder.old }
    ensures later { Later F.read_faults F.write_faults F.given folder.old folder.new }
    ensures read_fault { IsErrOf result FeedCheck.ReadFault
        → Rose (F.read_faults folder.old name.now) (F.read_faults folder.new name.now) }
    ensures quiet { (IsErrOf result FeedCheck.ReadFault → ⊥)
        → SameFaults F.read_faults F.write_faults folder.old folder.new }
{
    let mut walk = ShardWalk::new(alloc, problem, matrix)?;
    let mut feed = CertFeed::new(alloc)?;
    while !feed.ended() {
        let event = feed.next(folder, name)?;
        walk.go_on(rt, problem, workers, gate, event)?;
    }
    let shown = walk.finish(rt, problem, workers, gate)?;
    Ok(shown)
}
