//! Why bytes are no container.
use std::alloc::{AllocError, AllocFailed};
use thiserror::Error;

/// Why the parts of a container could not be read: the first fault from the front. Places count bytes from 0.
#[derive(Clone, Copy, Debug, Drop, PartialEq, Eq, Error)]
pub enum ContainerFault {
    /// At this place fewer bytes than a header are left, and not all are zero.
    #[error("the header at {0} is cut")]
    CutHeader(usize),
    /// The header at this place has the id 0.
    #[error("the id at {0} is 0")]
    ZeroId(usize),
    /// Fewer bytes than the length follow the header at this place.
    #[error("the part at {0} is cut")]
    CutBody(usize),
    /// This id is that of an earlier part.
    #[error("id {0} occurs twice")]
    TwiceId(u32),
    /// Memory ran out.
    #[error("out of memory")]
    Memory,
}

impl From<AllocError> for ContainerFault {
    ghost use Rattle.std.specs.Prelude.{◌≡◌};
    ghost use Rattle.container_pdu.specs.declared.fault.ContainerFault.TheVariants as fault;

    ghost from_gives = { λ _ e. e ≡ fault.Memory };

    fn from(_e: AllocError) -> ContainerFault {
        ContainerFault::Memory
    }
}

impl<T: Drop> From<AllocFailed<T>> for ContainerFault {
    ghost use Rattle.std.specs.Prelude.{◌≡◌};
    ghost use Rattle.container_pdu.specs.declared.fault.ContainerFault.TheVariants as fault;

    ghost from_gives = { λ _ e. e ≡ fault.Memory };

    fn from(_e: AllocFailed<T>) -> ContainerFault {
        ContainerFault::Memory
    }
}
