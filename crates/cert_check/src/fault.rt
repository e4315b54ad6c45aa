//! What a certificate is found not to show.
ghost use Rattle.std.specs.Prelude.{◌≡◌};
ghost use Rattle.cert_check.specs.declared.fault.CheckFault.TheVariants.{Memory as memory};

use pack_model::Memory;
use std::alloc::{AllocError, AllocFailed};
use thiserror::Error;

/// The first part of a certificate that does not show what it says.
#[derive(Clone, Copy, Debug, PartialEq, Eq, Drop, Error)]
pub enum CheckFault {
    /// The matrix is not placed.
    #[error("rejected matrix")]
    RejectedMatrix,
    /// The frame lines do not show that each frame passes.
    #[error("rejected timing")]
    RejectedTiming,
    /// The trees do not show what the kind says.
    #[error("rejected tree")]
    RejectedTree,
    /// Memory ran out.
    #[error("out of memory")]
    Memory,
}

impl From<Memory> for CheckFault {
    ghost from_gives = { λ _ e. e ≡ memory };

    fn from(_e: Memory) -> CheckFault {
        CheckFault::Memory
    }
}

impl From<AllocError> for CheckFault {
    ghost from_gives = { λ _ e. e ≡ memory };

    fn from(_e: AllocError) -> CheckFault {
        CheckFault::Memory
    }
}

impl<T: Drop> From<AllocFailed<T>> for CheckFault {
    ghost from_gives = { λ _ e. e ≡ memory };

    fn from(_e: AllocFailed<T>) -> CheckFault {
        CheckFault::Memory
    }
}
