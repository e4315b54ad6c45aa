//! Why a text has no certificate, and why a feed gives no further event.
use pack_base::Failed;
use pack_model::Memory;
use std::alloc::{AllocError, AllocFailed};
use thiserror::Error;

/// Why a text has no certificate.
#[derive(Clone, Copy, Debug, Drop, PartialEq, Eq, Error)]
pub enum CertFault {
    /// This line, counted from 1, can't stand after the lines before it, or bytes stand there after `end`.
    #[error("line {0} can't stand there")]
    BadLine(u64),
    /// All lines can stand, but the line `end` is missing.
    #[error("the text is cut")]
    Cut,
    /// Memory ran out.
    #[error("out of memory")]
    Memory,
}

impl From<Memory> for CertFault {
    ghost use Rattle.std.specs.Prelude.{◌≡◌};
    ghost use Rattle.cert_text.specs.declared.fault.CertFault.TheVariants as fault;

    ghost from_gives = { λ _ e. e ≡ fault.Memory };

    fn from(_e: Memory) -> CertFault {
        CertFault::Memory
    }
}

impl From<AllocError> for CertFault {
    ghost use Rattle.std.specs.Prelude.{◌≡◌};
    ghost use Rattle.cert_text.specs.declared.fault.CertFault.TheVariants as fault;

    ghost from_gives = { λ _ e. e ≡ fault.Memory };

    fn from(_e: AllocError) -> CertFault {
        CertFault::Memory
    }
}

impl<T: Drop> From<AllocFailed<T>> for CertFault {
    ghost use Rattle.std.specs.Prelude.{◌≡◌};
    ghost use Rattle.cert_text.specs.declared.fault.CertFault.TheVariants as fault;

    ghost from_gives = { λ _ e. e ≡ fault.Memory };

    fn from(_e: AllocFailed<T>) -> CertFault {
        CertFault::Memory
    }
}

/// Why a feed gives no further event.
#[derive(Clone, Copy, Debug, Drop, PartialEq, Eq, Error)]
pub enum FeedFault {
    /// A read failed, and the folder's count of read faults rose.
    #[error("a read failed")]
    ReadFault,
    /// The file gave more than 2^63 - 1 bytes.
    #[error("the text is too large")]
    TooLarge,
    /// This line, counted from 1, can't stand after the lines before it, or bytes stand there after `end`.
    #[error("line {0} can't stand there")]
    BadLine(u64),
    /// All lines can stand, but the line `end` is missing.
    #[error("the text is cut")]
    Cut,
    /// Memory ran out.
    #[error("out of memory")]
    Memory,
}

impl From<Failed> for FeedFault {
    ghost use Rattle.std.specs.Prelude.{◌≡◌};
    ghost use Rattle.cert_text.specs.declared.fault.FeedFault.TheVariants as feed_fault;

    ghost from_gives = { λ _ e. e ≡ feed_fault.ReadFault };

    fn from(_e: Failed) -> FeedFault {
        FeedFault::ReadFault
    }
}

impl From<Memory> for FeedFault {
    ghost use Rattle.std.specs.Prelude.{◌≡◌};
    ghost use Rattle.cert_text.specs.declared.fault.FeedFault.TheVariants as feed_fault;

    ghost from_gives = { λ _ e. e ≡ feed_fault.Memory };

    fn from(_e: Memory) -> FeedFault {
        FeedFault::Memory
    }
}

impl From<AllocError> for FeedFault {
    ghost use Rattle.std.specs.Prelude.{◌≡◌};
    ghost use Rattle.cert_text.specs.declared.fault.FeedFault.TheVariants as feed_fault;

    ghost from_gives = { λ _ e. e ≡ feed_fault.Memory };

    fn from(_e: AllocError) -> FeedFault {
        FeedFault::Memory
    }
}
