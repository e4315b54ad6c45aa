//! `check`: the checking of a certificate.
ghost use Rattle.std.specs.Prelude.{◌≡◌, ◌≤◌, Err, IfOk, IsErrOf, IsSome, OnErr};
ghost use Rattle.canpack_top.specs.Check.{HasAll, IsJudgement, check_answer, check_meaning, check_status};
ghost use Rattle.canpack_top.specs.Command.{names_of};
ghost use Rattle.canpack_top.specs.Meaning.{Runs, seen};
ghost use Rattle.canpack_top.specs.Reads.{ReadsOnly, SomeRose, check_names};
ghost use Rattle.canpack_top.specs.Verdict.{IsShown};

use crate::command::Names;
use crate::ending::{Answer, Halt, Status, Stop};
use crate::files::matrix_at;
use crate::problem::read_problem;
use crate::stopping::answer_of;
use crate::verdict::{Found, found_line, judge};
use pack_base::{Folder, Gate};
use std::alloc::Global;
use std::thread::Threads;

/// What was found of four texts.
#[derive(Clone, Copy, Debug)]
pub struct Judgement {
    pub found: Found,
    /// The common period of all signals, in ticks.
    pub hyper: u64,
}

/// Reads the four files, and judges the matrix and the certificate, which is read last and piece by piece, by so many
/// workers.
#[tactic(auto, using(crate::proofs::ReadTwice::reads_trans), unfolding(crate::specs::Check::texts_at))]
fn judgement_at<R: Threads + Sync, F: Folder, G: Gate + Sync>(
    rt: &R,
    alloc: Global,
    folder: &mut F,
    names: Names<'_>,
    workers: u32,
    gate: &G,
) -> Result<Judgement, Stop>
    requires some { 1 ≤ workers }
    requires few { workers ≤ 64 }
    ensures exact { IsSome (F.files folder.old)
        → IsJudgement result (names_of names.entry) (F.files folder.old) }
    ensures holds { IsSome (F.files folder.old)
        → IfOk result (λ given. IsShown given.found → HasAll (names_of names.entry) (F.files folder.old)) }
    ensures read_fault { IsErrOf result Stop.ReadFault
        → SomeRose (check_names (names_of names.entry))
        (F.read_faults folder.old) (F.read_faults folder.new) }
    ensures only { ReadsOnly F.files F.read_faults F.write_faults F.given folder.old folder.new }
{
    let problem = read_problem(alloc, folder, names)?;
    let matrix = matrix_at(alloc, folder, names.matrix)?;
    let found = judge(
        rt, alloc, folder, &problem, &matrix, names.cert, workers, gate,
    )?;
    Ok(Judgement {
        found,
        hyper: problem.hyper(),
    })
}

/// The status of what was found.
fn status_of(found: Found) -> Status
    ensures { result ≡ check_status found }
{
    match found {
        Found::Shown(_) => Status::Done,
        Found::Rejected(_) => Status::Rejected,
    }
}

/// The answer with what was found.
fn judged_answer(alloc: Global, given: Judgement) -> Result<Answer, Halt>
    ensures ok { IfOk result (λ answer. seen answer ≡ check_answer given.hyper given.found) }
    ensures err { OnErr result (result ≡ Err Halt.Memory) }
{
    let line = found_line(alloc, given.found, given.hyper)?;
    Ok(Answer {
        status: status_of(given.found),
        line,
    })
}

/// Answers what the four files say, by so many workers.
pub fn check<R: Threads + Sync, F: Folder, G: Gate + Sync>(
    rt: &R,
    alloc: Global,
    folder: &mut F,
    names: Names<'_>,
    workers: u32,
    gate: &G,
) -> Result<Answer, Halt>
    requires some { 1 ≤ workers }
    requires few { workers ≤ 64 }
    ensures { Runs (check_meaning (names_of names.entry))
        F.files F.read_faults F.write_faults F.given folder.old folder.new result }
{
    match judgement_at(rt, alloc, folder, names, workers, gate) {
        Ok(given) => judged_answer(alloc, given),
        Err(stop) => answer_of(alloc, stop),
    }
}
