//! The texts that are read whole: all but CERT's.
ghost use Rattle.std.specs.Prelude.{◌≡◌, IfOk, All, option_map};
ghost use Rattle.pack_model.specs.Network.{NetworkStands};
ghost use Rattle.pack_model.specs.Signal.{SignalStands};
ghost use Rattle.input_text.specs.NetworkText.{network_refusal};
ghost use Rattle.input_text.specs.SignalsText.{signals_refusal};
ghost use Rattle.matrix_text.specs.MatrixText.{matrix_refusal};
ghost use Rattle.canpack_top.specs.Ending.{Says, stop_of};
ghost use Rattle.canpack_top.specs.Text.{
  matrix_in,
  matrix_refused,
  network_in,
  network_refused,
  signals_in,
  signals_refused,
};

use crate::ending::Stop;
use crate::refusal::{Refusal, Role};
use input_text::{NetworkFault, SignalsFault, read_network, read_signals};
use matrix_text::{Matrix, MatrixFault, read_matrix};
use pack_model::{Network, Signal};
use std::alloc::Global;

/// The refusal of NETWORK, or want of memory.
fn network_stop(fault: NetworkFault) -> Stop
    ensures { result ≡ stop_of (option_map network_refused (network_refusal fault)) }
{
    match fault {
        NetworkFault::NotJson => Stop::Refused(Refusal::NotJson),
        NetworkFault::BadMember(member) => Stop::Refused(Refusal::BadMember(member)),
        NetworkFault::Memory => Stop::Memory,
    }
}

/// The network of a text.
#[tactic(auto, using(crate::proofs::Stops::says_stop), unfolding(crate::specs::Text::network_in))]
pub fn network_in(alloc: Global, text: &[u8]) -> Result<Network, Stop>
    ensures exact { Says (λ network. network) result (network_in text.now) }
    ensures stands { IfOk result NetworkStands }
{
    match read_network(alloc, text) {
        Ok(network) => Ok(network),
        Err(fault) => Err(network_stop(fault)),
    }
}

/// The refusal of SIGNALS, or want of memory.
fn signals_stop(fault: SignalsFault) -> Stop
    ensures { result ≡ stop_of (option_map signals_refused (signals_refusal fault)) }
{
    match fault {
        SignalsFault::BadHeader => Stop::Refused(Refusal::BadHeader(Role::Signals)),
        SignalsFault::BadRow { row, column } => Stop::Refused(Refusal::BadRow {
            role: Role::Signals,
            row: u64::from(row),
            column,
        }),
        SignalsFault::TooManySignals => Stop::Refused(Refusal::TooManySignals),
        SignalsFault::Memory => Stop::Memory,
    }
}

/// The signals of a text.
#[tactic(auto, using(crate::proofs::Stops::says_stop), unfolding(crate::specs::Text::signals_in))]
pub fn signals_in(alloc: Global, text: &[u8]) -> Result<Vec<Signal>, Stop>
    ensures exact { Says (λ signals. signals.items) result (signals_in text.now) }
    ensures stand { IfOk result (λ signals. All SignalStands signals.items) }
{
    match read_signals(alloc, text) {
        Ok(signals) => Ok(signals),
        Err(fault) => Err(signals_stop(fault)),
    }
}

/// The refusal of MATRIX, or want of memory.
fn matrix_stop(fault: MatrixFault) -> Stop
    ensures { result ≡ stop_of (option_map matrix_refused (matrix_refusal fault)) }
{
    match fault {
        MatrixFault::BadHeader => Stop::Refused(Refusal::BadHeader(Role::Matrix)),
        MatrixFault::BadRow { row, column } => Stop::Refused(Refusal::BadRow {
            role: Role::Matrix,
            row,
            column,
        }),
        MatrixFault::Memory => Stop::Memory,
    }
}

/// The matrix of a text.
#[tactic(auto, using(crate::proofs::Stops::says_stop), unfolding(crate::specs::Text::matrix_in))]
pub fn matrix_in(alloc: Global, text: &[u8]) -> Result<Matrix, Stop>
    ensures { Says (λ matrix. matrix) result (matrix_in text.now) }
{
    match read_matrix(alloc, text) {
        Ok(matrix) => Ok(matrix),
        Err(fault) => Err(matrix_stop(fault)),
    }
}
