//! The program, stored with a run whose matrix is rejected, so with a status other than 0.
#![tactic(auto)]

use canpack_program::program;
use std::process::ExitCode;

fn main(rt: HostRuntime) -> ExitCode {
    ExitCode::from(program(&rt))
}
