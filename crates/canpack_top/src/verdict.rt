//! What the acceptance rule finds of a certificate, and its lines.
ghost use Rattle.std.specs.Prelude.{◌≡◌, ◌≤◌, ◌^◌, ◌<◌, IfOk, IsErrOf, IsSome, string_bytes};
ghost use Rattle.canpack_top.specs.Files.{cert_at};
ghost use Rattle.canpack_top.specs.Reads.{FaultAt, ReadsOnly};
ghost use Rattle.canpack_top.specs.Verdict.{
  IsJudged,
  found_line,
  found_of,
  rejected_line,
  verdict_line,
};

use crate::ending::Stop;
use crate::refusal::{Refusal, Role};
use bandwidth_bound::{Part, Verdict};
use cert_check::FeedCheck;
use matrix_text::Matrix;
use pack_base::{Folder, Gate};
use pack_model::{Memory, Problem};
use par_check::check_feed_par;
use std::alloc::{AllocError, Global};
use std::thread::Threads;

/// What is found of texts that stand.
#[derive(Clone, Copy, Debug, PartialEq, Eq)]
pub enum Found {
    /// The certificate is accepted, and shows this.
    Shown(Verdict),
    /// The first part of the acceptance rule that doesn't hold.
    Rejected(Part),
}

/// What the checker answered of a certificate's file: what was found, or why the reading stops.
fn found_of(answer: Result<Verdict, FeedCheck>) -> Result<Found, Stop>
    ensures { result ≡ found_of answer }
{
    match answer {
        Ok(shown) => Ok(Found::Shown(shown)),
        Err(FeedCheck::RejectedMatrix) => Ok(Found::Rejected(Part::Matrix)),
        Err(FeedCheck::RejectedTiming) => Ok(Found::Rejected(Part::Timing)),
        Err(FeedCheck::RejectedTree) => Ok(Found::Rejected(Part::Tree)),
        Err(FeedCheck::TooLarge) => Err(Stop::Refused(Refusal::TooLarge(Role::Cert))),
        Err(FeedCheck::BadLine(line)) => Err(Stop::Refused(Refusal::BadLine(line))),
        Err(FeedCheck::Cut) => Err(Stop::Refused(Refusal::Cut)),
        Err(FeedCheck::ReadFault) => Err(Stop::ReadFault),
        Err(FeedCheck::Memory) => Err(Stop::Memory),
    }
}

/// Judges the certificate of a file, which is read piece by piece, by so many workers: what it shows of a problem's
/// matrix, or the first part of the acceptance rule that doesn't hold.
pub fn judge<R: Threads + Sync, F: Folder, G: Gate + Sync>(
    rt: &R,
    alloc: Global,
    folder: &mut F,
    problem: &Problem,
    matrix: &Matrix,
    name: &str,
    workers: u32,
    gate: &G,
) -> Result<Found, Stop>
    requires some { 1 ≤ workers }
    requires few { workers ≤ 64 }
    ensures exact { IsSome (F.files folder.old)
        → IsJudged result problem.now matrix.now (cert_at (F.files folder.old) name.now) }
    ensures read_fault { IsErrOf result Stop.ReadFault
        → FaultAt (F.read_faults folder.old) (F.read_faults folder.new) name.now }
    ensures only { ReadsOnly F.files F.read_faults F.write_faults F.given folder.old folder.new }
{
    found_of(check_feed_par(rt, alloc, problem, matrix, folder, name, workers, gate))
}

fn verdict_text(alloc: Global, shown: Verdict, hyper: u64) -> Result<String, AllocError>
    ensures { IfOk result (λ text. string_bytes text ≡ verdict_line hyper shown) }
{
    let eighths = 8 * u128::from(hyper);
    match shown {
        Verdict::Placed => format!(in alloc; "placed\n"),
        Verdict::Timed { load } => format!(in alloc; "timed {load}/{hyper}\n"),
        Verdict::Between { best: None, lower } => format!(in alloc; "open - {lower}/{eighths}\n"),
        Verdict::Between {
            best: Some(best),
            lower,
        } => { format!(in alloc; "open {best}/{hyper} {lower}/{eighths}\n") }
        Verdict::Best { load } => format!(in alloc; "best {load}/{hyper}\n"),
        Verdict::NoSolution => format!(in alloc; "none\n"),
    }
}

fn rejected_line(part: Part) -> &'static [u8]
    ensures { result.now ≡ rejected_line part }
{
    match part {
        Part::Matrix => b"rejected matrix\n",
        Part::Timing => b"rejected timing\n",
        Part::Tree => b"rejected tree\n",
    }
}

/// The line of what was found; `hyper` is the common period of all signals, in ticks.
pub fn found_line(alloc: Global, found: Found, hyper: u64) -> Result<Vec<u8>, Memory>
    ensures { IfOk result (λ line. line.items ≡ found_line hyper found) }
{
    match found {
        Found::Shown(shown) => Ok(verdict_text(alloc, shown, hyper)?.into_bytes()),
        Found::Rejected(part) => Ok(Vec::from_slice(alloc, rejected_line(part))?),
    }
}
