//! The files of a command that are read whole, and their texts read: all but CERT.
ghost use Rattle.std.specs.Prelude.{◌≡◌, IfOk, IsSome, IsErrOf, All};
ghost use Rattle.pack_model.specs.Network.{NetworkStands};
ghost use Rattle.pack_model.specs.Signal.{SignalStands};
ghost use Rattle.canpack_top.specs.Files.{matrix_at, network_at, signals_at};
ghost use Rattle.canpack_top.specs.Ending.{Gives};
ghost use Rattle.canpack_top.specs.Reads.{FaultAt, ReadsOnly};

use crate::ending::Stop;
use crate::reading::read_file;
use crate::refusal::Role;
use crate::texts::{matrix_in, network_in, signals_in};
use matrix_text::Matrix;
use pack_base::Folder;
use pack_model::{Network, Signal};
use std::alloc::Global;

/// The greatest length of NETWORK and of SIGNALS, in bytes.
const TEXT_LIMIT: u64 = 16_777_216;

/// The greatest length of MATRIX, in bytes.
const SIZE_LIMIT: u64 = (1 << 63) - 1;

/// The network of a file.
#[tactic(auto, unfolding(crate::specs::Files::network_at))]
pub fn network_at<F: Folder>(alloc: Global, folder: &mut F, name: &str) -> Result<Network, Stop>
    ensures exact { IsSome (F.files folder.old)
        → Gives (λ network. network) result (network_at (F.files folder.old) name.now) }
    ensures stands { IfOk result NetworkStands }
    ensures read_fault { IsErrOf result Stop.ReadFault
        → FaultAt (F.read_faults folder.old) (F.read_faults folder.new) name.now }
    ensures only { ReadsOnly F.files F.read_faults F.write_faults F.given folder.old folder.new }
{
    let text = read_file(alloc, folder, name, TEXT_LIMIT, Role::Network)?;
    network_in(alloc, &text)
}

/// The signals of a file.
#[tactic(auto, unfolding(crate::specs::Files::signals_at))]
pub fn signals_at<F: Folder>(alloc: Global, folder: &mut F, name: &str) -> Result<Vec<Signal>, Stop>
    ensures exact { IsSome (F.files folder.old)
        → Gives (λ signals. signals.items) result (signals_at (F.files folder.old) name.now) }
    ensures stand { IfOk result (λ signals. All SignalStands signals.items) }
    ensures read_fault { IsErrOf result Stop.ReadFault
        → FaultAt (F.read_faults folder.old) (F.read_faults folder.new) name.now }
    ensures only { ReadsOnly F.files F.read_faults F.write_faults F.given folder.old folder.new }
{
    let text = read_file(alloc, folder, name, TEXT_LIMIT, Role::Signals)?;
    signals_in(alloc, &text)
}

/// The matrix of a file.
#[tactic(auto, unfolding(crate::specs::Files::matrix_at))]
pub fn matrix_at<F: Folder>(alloc: Global, folder: &mut F, name: &str) -> Result<Matrix, Stop>
    ensures exact { IsSome (F.files folder.old)
        → Gives (λ matrix. matrix) result (matrix_at (F.files folder.old) name.now) }
    ensures read_fault { IsErrOf result Stop.ReadFault
        → FaultAt (F.read_faults folder.old) (F.read_faults folder.new) name.now }
    ensures only { ReadsOnly F.files F.read_faults F.write_faults F.given folder.old folder.new }
{
    let text = read_file(alloc, folder, name, SIZE_LIMIT, Role::Matrix)?;
    matrix_in(alloc, &text)
}
