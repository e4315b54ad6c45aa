//! The checking of a certificate that is read piece by piece.
ghost use Rattle.std.specs.Prelude.{◌≡◌, List, ℕ, IsErrOf, IsSome};
ghost use Rattle.pack_base.specs.Counts.{Rose};
ghost use Rattle.pack_base.specs.Outside.{Later, SameFaults, bytes_at};
ghost use Rattle.cert_check.specs.Feed.{FeedFinds, IsOfSize};

use crate::cert_walk::CertWalk;
use crate::fault::CheckFault;
use bandwidth_bound::Verdict;
use cert_text::{CertFeed, FeedFault};
use matrix_text::Matrix;
use pack_base::Folder;
use pack_model::{Memory, Problem};
use std::alloc::Global;
use thiserror::Error;

/// Why a certificate in a file gives no verdict.
#[derive(Clone, Copy, Debug, PartialEq, Eq, Drop, Error)]
pub enum FeedCheck {
    /// A read failed, and the folder's count of read faults rose.
    #[error("a read failed")]
    ReadFault,
    /// The file gave more than 2^63 - 1 bytes.
    #[error("the text is too large")]
    TooLarge,
    /// This line, counted from 1, can't stand after the lines before it, or bytes stand there after `end`.
    #[error("line {0} can't stand there")]
    BadLine(u64),
    /// All lines can stand, but the line `end` is missing.
    #[error("the text is cut")]
    Cut,
    /// The matrix is not placed.
    #[error("rejected matrix")]
    RejectedMatrix,
    /// The frame lines do not show that each frame passes.
    #[error("rejected timing")]
    RejectedTiming,
    /// The trees do not show what the kind says.
    #[error("rejected tree")]
    RejectedTree,
    /// Memory ran out.
    #[error("out of memory")]
    Memory,
}

impl From<Memory> for FeedCheck {
    ghost use Rattle.cert_check.specs.declared.one_pass.FeedCheck.TheVariants as feed;

    ghost from_gives = { λ _ e. e ≡ feed.Memory };

    fn from(_e: Memory) -> FeedCheck {
        FeedCheck::Memory
    }
}

impl From<FeedFault> for FeedCheck {
    ghost use Rattle.cert_check.specs.Feed.{check_of_feed};

    ghost from_gives = { λ fault e. e ≡ check_of_feed fault };

    fn from(fault: FeedFault) -> FeedCheck {
        match fault {
            FeedFault::ReadFault => FeedCheck::ReadFault,
            FeedFault::TooLarge => FeedCheck::TooLarge,
            FeedFault::BadLine(line) => FeedCheck::BadLine(line),
            FeedFault::Cut => FeedCheck::Cut,
            FeedFault::Memory => FeedCheck::Memory,
        }
    }
}

impl From<CheckFault> for FeedCheck {
    ghost use Rattle.cert_check.specs.Feed.{check_of_fault};

    ghost from_gives = { λ fault e. e ≡ check_of_fault fault };

    fn from(fault: CheckFault) -> FeedCheck {
        match fault {
            CheckFault::RejectedMatrix => FeedCheck::RejectedMatrix,
            CheckFault::RejectedTiming => FeedCheck::RejectedTiming,
            CheckFault::RejectedTree => FeedCheck::RejectedTree,
            CheckFault::Memory => FeedCheck::Memory,
        }
    }
}

/// The verdict of the certificate in the file of this name on a problem's matrix, by the acceptance rule. It
/// reads the file by pieces, and keeps neither its text nor its trees.
///
/// # Errors
///
/// `ReadFault` where a read failed; `TooLarge` where the file gave more than 2^63 - 1 bytes; `BadLine(n)` and
/// `Cut` where the text is that of no certificate; else the first part of the rule that fails,
/// `RejectedMatrix`, `RejectedTiming` or `RejectedTree`, once the file was read to its end; `Memory` where
/// memory runs out.
pub fn check_feed<F: Folder>(
    alloc: Global,
    problem: &Problem,
    matrix: &Matrix,
    folder: &mut F,
    name: &str,
) -> Result<Verdict, FeedCheck>
    // Where the file is told, the answer is that of its bytes; they are as many as a text has, or too many.
    ensures told { IsSome (F.files folder.old)
        → FeedFinds problem.now matrix.now (bytes_at (F.files folder.old) name.now) result }
    ensures size { IsSome (F.files folder.old) → IsOfSize (bytes_at (F.files folder.old) name.now) result }
    // In any case it is that of some bytes.
    ensures some { (bytes : List ℕ) × FeedFinds problem.now matrix.now bytes result }

    ensures files { F.files folder.new ≡ F.files folder.old }
    ensures later { Later F.read_faults F.write_faults F.given folder.old folder.new }
    ensures read_fault { IsErrOf result FeedCheck.ReadFault
        → Rose (F.read_faults folder.old name.now) (F.read_faults folder.new name.now) }
    ensures quiet { (IsErrOf result FeedCheck.ReadFault → ⊥)
        → SameFaults F.read_faults F.write_faults folder.old folder.new }
{
    let mut walk = CertWalk::new(alloc, problem, matrix)?;
    let mut feed = CertFeed::new(alloc)?;
    while !feed.ended() {
        let event = feed.next(folder, name)?;
        walk.take(problem, &event);
    }
    let shown = walk.verdict(problem)?;
    Ok(shown)
}
