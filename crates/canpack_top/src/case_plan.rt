//! `make` without files: the planning of a generated case in memory.
ghost use Rattle.std.specs.Prelude.{◌≡◌, ◌≤◌, ◌++◌, List, ℕ, codes, Err, IfOk, OnErr, string_bytes};
ghost use Rattle.case_gen.specs.Generated.{parts_of_case};
ghost use Rattle.canpack_top.specs.CasePlan.{IsCasePlan, case_plan_meaning};
ghost use Rattle.canpack_top.specs.Make.{count_words};
ghost use Rattle.canpack_top.specs.Meaning.{Runs, seen};

use crate::ending::{Answer, Halt};
use crate::planning::make_plan;
use crate::verdict::{Found, found_line};
use case_gen::problem_of_case;
use pack_base::Folder;
use pack_model::{Memory, Problem};
use std::alloc::{AllocError, Global};

/// The branches within which a generated case is planned.
const CASE_BRANCHES: u64 = 100_000;

/// The words of a case.
fn words_of_case(alloc: Global, number: u32, problem: &Problem) -> Result<String, AllocError>
    ensures { IfOk result (λ text. string_bytes text ≡ count_words number problem.now (codes " ")) }
{
    let signals = problem.signals().len();
    let senders = problem.senders().len();
    format!(in alloc; "case {number} signals {signals} senders {senders} ")
}

/// The words of a case and then a line.
fn case_line(alloc: Global, number: u32, problem: &Problem, line: &[u8]) -> Result<Vec<u8>, Memory>
    ensures { IfOk result (λ text. text.items ≡ count_words number problem.now (codes " " ++ line.now)) }
{
    let mut text = words_of_case(alloc, number, problem)?.into_bytes();
    text.extend_from_slice(line)?;
    Ok(text)
}

/// The answer of the plan for the case of a number. The only error is want of memory.
fn case_answer(alloc: Global, number: u32) -> Result<Answer, Memory>
    requires { number ≤ 1000000 }
    ensures { IfOk result (λ answer. IsCasePlan number (seen answer)) }
{
    let problem = problem_of_case(alloc, number)?;
    let made = make_plan(alloc, &problem, CASE_BRANCHES)?;
    let line = found_line(alloc, Found::Shown(made.shown), problem.hyper())?;
    Ok(Answer {
        status: made.status,
        line: case_line(alloc, number, &problem, &line)?,
    })
}

/// Plans the case of a number, 0 to 1000000, in memory. It reads and writes no file.
#[tactic(none)]
pub fn plan_case<F: Folder>(alloc: Global, folder: &mut F, number: u32) -> Result<Answer, Halt>
    requires { number ≤ 1000000 }
    ensures { Runs (case_plan_meaning number)
        F.files F.read_faults F.write_faults F.given folder.old folder.new result }
{
    match case_answer(alloc, number) {
        Ok(answer) => Ok(answer),
        Err(_) => Err(Halt::Memory),
    }
}
