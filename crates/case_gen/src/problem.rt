//! The problem of a case.
ghost use Rattle.std.specs.Prelude.{◌≡◌, ◌≤◌, IfOk};
ghost use Rattle.pack_model.specs.declared.problem.ProblemFault.TheVariants as fault;
ghost use Rattle.case_gen.specs.Generated.{CaseStands, parts_of_case};

use crate::generate::make_case;
use pack_model::{Memory, Problem, ProblemFault, problem_of};
use std::alloc::Global;

/// The law that no case is refused: it is a problem, of at most 32 signals and a common period of at most
/// 8000000 ticks.
pub fn case_stands(number: u32)
    ensures { CaseStands number }
{}

/// Want of memory, which is the only fault that comes of a case.
fn memory_of(why: ProblemFault) -> Memory
    requires { why ≡ fault.Memory }
{
    match why {
        ProblemFault::Memory => Memory,
        _ => unreachable!(),
    }
}

/// The problem of the case of a number from 0 to 1000000.
pub fn problem_of_case(alloc: Global, number: u32) -> Result<Problem, Memory>
    requires { number ≤ 1000000 }
    ensures { IfOk result (λ problem. problem ≡ parts_of_case number) }
{
    let case = make_case(alloc, number)?;
    match problem_of(alloc, case.network, case.signals.into_vec()) {
        Ok(problem) => Ok(problem),
        Err(why) => Err(memory_of(why)),
    }
}
