//! `plan`: the planning of a matrix.
ghost use Rattle.std.specs.Prelude.{◌≡◌, ◌≤◌, ◌⊎◌, Ok, IsTrue, IsErr, IsErrOf, IsSome, IfOk};
ghost use Rattle.pack_base.specs.Outside.{Later};
ghost use Rattle.canpack_top.specs.Command.{are_names, names_of};
ghost use Rattle.canpack_top.specs.Files.{problem_at};
ghost use Rattle.canpack_top.specs.Meaning.{Runs, seen};
ghost use Rattle.canpack_top.specs.Plan.{PlanPartWritten, PlanWritten, ShowsPlan, plan_meaning};
ghost use Rattle.canpack_top.specs.Reads.{SomeRose, written_names};

use crate::command::Names;
use crate::ending::{Answer, Halt};
use crate::planning::plan_texts;
use crate::problem::read_problem;
use crate::stopping::answer_of;
use crate::writing::write_both;
use pack_base::Folder;
use pack_model::Problem;
use std::alloc::Global;

/// Writes the matrix and the certificate of the plan for a problem. All memory, that of the line too, is
/// taken before the first write.
fn write_plan<F: Folder>(
    alloc: Global,
    folder: &mut F,
    names: Names<'_>,
    problem: &Problem,
    branches: u64,
) -> Result<Answer, Halt>
    requires names { IsTrue (are_names (names_of names)) }
    requires some { 1 ≤ branches }
    requires most { branches ≤ 1000000 }
    ensures written { IfOk result (λ answer. PlanWritten (names_of names.entry) branches problem.now
        (seen answer) (F.files folder.old) (F.files folder.new)) }
    ensures accepted { IfOk result (λ answer. IsSome (F.files folder.old)
        → problem_at (names_of names.entry) (F.files folder.old) ≡ Ok problem.now
        → ShowsPlan (names_of names.entry) branches (F.files folder.new) (seen answer)) }
    ensures part { IsErrOf result Halt.WriteFault → PlanPartWritten (names_of names.entry) branches
        problem.now (F.files folder.old) (F.files folder.new) }
    ensures write_fault { IsErrOf result Halt.WriteFault → SomeRose (written_names (names_of names.entry))
        (F.write_faults folder.old) (F.write_faults folder.new) }
    ensures writes { IsErrOf result Halt.ReadFault → ⊥ }
    ensures same { IsErr result → IsErrOf result Halt.WriteFault ⊎ (F.files folder.new ≡ F.files folder.old) }
    ensures later { Later F.read_faults F.write_faults F.given folder.old folder.new }
{
    let texts = plan_texts(alloc, problem, branches)?;
    match write_both(folder, names.matrix, &texts.matrix, names.cert, &texts.cert) {
        Ok(()) => Ok(Answer {
            status: texts.status,
            line: texts.line,
        }),
        Err(_) => Err(Halt::WriteFault),
    }
}

/// Reads the network and the signals, and writes a matrix and its certificate, planned within so many branches.
#[tactic(none)]
pub fn plan<F: Folder>(
    alloc: Global,
    folder: &mut F,
    names: Names<'_>,
    branches: u64,
) -> Result<Answer, Halt>
    requires names { IsTrue (are_names (names_of names)) }
    requires some { 1 ≤ branches }
    requires most { branches ≤ 1000000 }
    ensures { Runs (plan_meaning branches (names_of names.entry))
        F.files F.read_faults F.write_faults F.given folder.old folder.new result }
{
    match read_problem(alloc, folder, names) {
        Ok(problem) => write_plan(alloc, folder, names, &problem, branches),
        Err(stop) => answer_of(alloc, stop),
    }
}
