//! Reading a whole file through a folder, up to a limit.
ghost use Rattle.std.specs.Prelude.{◌≡◌, ◌≤◌, ◌<◌, ◌^◌, ◌+◌, IsSome, IfOk, IsErrOf, length};
ghost use Rattle.pack_base.specs.Counts.{GrewBy, Rose};
ghost use Rattle.pack_base.specs.Outside.{Later, SameFaults, bytes_at};

use crate::outside::{Failed, Folder};
use std::alloc::{AllocError, AllocFailed, Global};

/// How many bytes one read asks for.
const PIECE: usize = 65536;

/// Why a file wasn't read whole.
#[derive(Clone, Copy, Debug, PartialEq, Eq)]
pub enum ReadWhole {
    /// A read failed, and the folder's count of read faults rose.
    ReadFault,
    /// The folder gave more bytes than the limit.
    TooLarge,
    /// Want of memory.
    Memory,
}

impl From<Failed> for ReadWhole {
    ghost use Rattle.pack_base.specs.declared.reading.ReadWhole.TheVariants.{ReadFault};

    ghost from_gives = { λ _ e. e ≡ ReadFault };

    fn from(_: Failed) -> ReadWhole {
        ReadWhole::ReadFault
    }
}

impl From<AllocError> for ReadWhole {
    ghost use Rattle.pack_base.specs.declared.reading.ReadWhole.TheVariants.{Memory};

    ghost from_gives = { λ _ e. e ≡ Memory };

    fn from(_: AllocError) -> ReadWhole {
        ReadWhole::Memory
    }
}

impl<T: Drop> From<AllocFailed<T>> for ReadWhole {
    ghost use Rattle.pack_base.specs.declared.reading.ReadWhole.TheVariants.{Memory};

    ghost from_gives = { λ _ e. e ≡ Memory };

    fn from(_: AllocFailed<T>) -> ReadWhole {
        ReadWhole::Memory
    }
}

/// Reads a file from its front to its end, in pieces of at most 64 KiB. It gives up as `TooLarge` as soon as it
/// has more than `limit` bytes.
pub fn read_whole<F: Folder>(
    alloc: Global,
    folder: &mut F,
    name: &str,
    limit: u64,
) -> Result<Vec<u8>, ReadWhole>
    requires { limit < 2 ^ 63 }

    ensures whole { IfOk result (λ text. IsSome (F.files folder.old) → text.items ≡ bytes_at (F.files folder.old) name.now) }
    ensures within { IfOk result (λ text. length text.items ≤ limit) }
    ensures read_fault { IsErrOf result ReadWhole.ReadFault
        → Rose (F.read_faults folder.old name.now) (F.read_faults folder.new name.now) }

    // Too large is what the folder gave, and where the files are told the file is.
    ensures too_large { IsErrOf result ReadWhole.TooLarge
        → GrewBy (limit + 1) (F.given folder.old name.now) (F.given folder.new name.now) }
    ensures larger { IsErrOf result ReadWhole.TooLarge → IsSome (F.files folder.old)
        → limit < length (bytes_at (F.files folder.old) name.now) }

    ensures files { F.files folder.new ≡ F.files folder.old }
    ensures quiet { (IsErrOf result ReadWhole.ReadFault → ⊥)
        → SameFaults F.read_faults F.write_faults folder.old folder.new }
    ensures later { Later F.read_faults F.write_faults F.given folder.old folder.new }
{
    let mut text = Vec::new(alloc);
    let mut piece = vec![in alloc; 0u8; PIECE]?;
    while text.len() as u64 <= limit {
        let count = folder.read_at(name, text.len() as u64, &mut piece)?;
        if count == 0 {
            return Ok(text);
        }
        text.extend_from_slice(&piece[..count])?;
    }
    Err(ReadWhole::TooLarge)
}
