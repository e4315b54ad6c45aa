//! Reading the text of a file.
ghost use Rattle.std.specs.Prelude.{◌≡◌, ◌<◌, ◌^◌, IsSome, IsErrOf};
ghost use Rattle.pack_base.specs.Outside.{bytes_at};
ghost use Rattle.canpack_top.specs.Ending.{Gives};
ghost use Rattle.canpack_top.specs.Reads.{FaultAt, ReadsOnly};
ghost use Rattle.canpack_top.specs.Text.{whole_stop, within};

use crate::ending::Stop;
use crate::refusal::{Refusal, Role};
use pack_base::{Folder, ReadWhole, read_whole};
use std::alloc::Global;

/// Why the reading of a whole file stops.
fn whole_stop(fault: ReadWhole, role: Role) -> Stop
    ensures { result ≡ whole_stop fault role }
{
    match fault {
        ReadWhole::ReadFault => Stop::ReadFault,
        ReadWhole::TooLarge => Stop::Refused(Refusal::TooLarge(role)),
        ReadWhole::Memory => Stop::Memory,
    }
}

/// The bytes of a file, which is refused where it has more than `limit` bytes.
pub fn read_file<F: Folder>(
    alloc: Global,
    folder: &mut F,
    name: &str,
    limit: u64,
    role: Role,
) -> Result<Vec<u8>, Stop>
    requires { limit < 2 ^ 63 }
    ensures exact { IsSome (F.files folder.old)
        → Gives (λ text. text.items) result (within limit role (bytes_at (F.files folder.old) name.now)) }
    ensures read_fault { IsErrOf result Stop.ReadFault
        → FaultAt (F.read_faults folder.old) (F.read_faults folder.new) name.now }
    ensures only { ReadsOnly F.files F.read_faults F.write_faults F.given folder.old folder.new }
{
    match read_whole(alloc, folder, name, limit) {
        Ok(text) => Ok(text),
        Err(fault) => Err(whole_stop(fault, role)),
    }
}
