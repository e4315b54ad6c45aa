//! canpack plans and checks the communication matrix of one CAN FD bus.
#![tactic(auto)]

use canpack_program::program;
use std::process::ExitCode;

fn main(rt: HostRuntime) -> ExitCode {
    ExitCode::from(program(&rt))
}
