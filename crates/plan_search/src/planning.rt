//! The plan within a budget of branches.
ghost use Rattle.std.specs.Prelude.{◌≡◌, ◌≤◌, IfOk};
ghost use Rattle.cert_text.specs.Written.{CertFits};
ghost use Rattle.bandwidth_bound.specs.Rule.{Accepts};
ghost use Rattle.plan_search.specs.Plan.{IsPlanOf, IsTrimmedPlan, IsWithin, cert_of_plan, judged_plan, verdict_of_plan};

use crate::beginning::{Begun, begin};
use crate::ending::{end, verdict_with};
use crate::planned::{Planned, Told};
use crate::searching::{Ended, load_found, search_all};
use pack_model::{Memory, Problem};
use search_judge::problem_stands;
use std::alloc::Global;

/// Plans within so many branches, from 1 to 1000000, and tells the verdict that the certificate shows: the load
/// of the matrix, or that no grouping can meet all deadlines, or, where the branches are spent, the best load so
/// far and the lower bound. The only error is want of memory.
pub fn plan_shown(alloc: Global, problem: &Problem, branches: u64) -> Result<Told, Memory>
    requires some { 1 ≤ branches }
    requires most { branches ≤ 1000000 }
    ensures exact { IfOk result (λ told. IsPlanOf problem.now branches told.planned) }
    ensures accepted { IfOk result (λ told. Accepts (judged_plan problem.now told.planned)
        (verdict_of_plan problem.now told.planned)) }
    ensures trimmed { IfOk result (λ told. IsTrimmedPlan problem.now told.planned) }
    ensures within { IfOk result (λ told. IsWithin problem.now branches told.planned) }
    ensures fits { IfOk result (λ told. CertFits (cert_of_plan told.planned)) }
    ensures verdict { IfOk result (λ told. told.verdict ≡ verdict_of_plan problem.now told.planned) }
{
    problem_stands(problem);
    let Begun {
        lemmas,
        values,
        first,
        left,
    } = begin(alloc, problem, branches)?;
    let Ended {
        best,
        is_open,
        tree,
        least,
    } = search_all(alloc, problem, values.as_slice(), first, left)?;
    let verdict = verdict_with(load_found(&best), is_open, least);
    let planned = end(alloc, problem, lemmas, best, tree, is_open)?;
    Ok(Told { planned, verdict })
}

/// Plans within so many branches, from 1 to 1000000: the matrix of the least load with its certificate, or
/// that no grouping can meet all deadlines, or, where the branches are spent, the best so far and a lower
/// bound. The only error is want of memory.
pub fn plan(alloc: Global, problem: &Problem, branches: u64) -> Result<Planned, Memory>
    requires some { 1 ≤ branches }
    requires most { branches ≤ 1000000 }
    ensures exact { IfOk result (IsPlanOf problem.now branches) }
    ensures accepted { IfOk result (λ planned. Accepts (judged_plan problem.now planned)
        (verdict_of_plan problem.now planned)) }
    ensures trimmed { IfOk result (IsTrimmedPlan problem.now) }
    ensures within { IfOk result (IsWithin problem.now branches) }
    ensures fits { IfOk result (λ planned. CertFits (cert_of_plan planned)) }
{
    let Told {
        planned,
        verdict: _verdict,
    } = plan_shown(alloc, problem, branches)?;
    Ok(planned)
}
