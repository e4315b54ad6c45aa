//! The texts and the line of a plan, made before anything is written.
ghost use Rattle.std.specs.Prelude.{◌≡◌, ◌≤◌, [], All, IfOk, unwrap_or};
ghost use Rattle.pack_model.specs.Problem.{IsProblem, IsSorted};
ghost use Rattle.matrix_text.specs.Row.{RowInRange};
ghost use Rattle.plan_search.specs.Plan.{cert_of_plan, matrix_of_plan};
ghost use Rattle.canpack_top.specs.Plan.{AreMade, IsMade, plan_status};

use crate::ending::Status;
use crate::verdict::{Found, found_line};
use bandwidth_bound::Verdict;
use cert_text::{Cert, write_cert};
use matrix_text::{Matrix, write_matrix};
use pack_model::{Memory, Problem};
use plan_search::{Planned, Told, plan_shown};
use std::alloc::Global;

/// How a plan ends, with its matrix and its certificate.
#[derive(Debug, Drop)]
struct Outcome {
    status: Status,
    matrix: Matrix,
    cert: Cert,
}

/// A plan: how it ends, its matrix, its certificate, and what the certificate shows.
#[derive(Debug, Drop)]
pub struct Made {
    /// How it ends.
    pub status: Status,
    /// The matrix that is planned; without one it has no rows.
    pub matrix: Matrix,
    /// Its certificate.
    pub cert: Cert,
    /// What the certificate shows.
    pub shown: Verdict,
}

/// The texts of a plan.
#[derive(Debug, Drop)]
pub struct PlanTexts {
    /// How the plan ends.
    pub status: Status,
    /// The text of the matrix.
    pub matrix: Vec<u8>,
    /// The text of the certificate.
    pub cert: Vec<u8>,
    /// The line that is said.
    pub line: Vec<u8>,
}

/// A matrix without rows.
fn no_rows(alloc: Global) -> Matrix
    ensures { result ≡ [] }
{
    Matrix::of(Vec::new(alloc))
}

/// The matrix, or one without rows.
fn rows_of(alloc: Global, matrix: Option<Matrix>) -> Matrix
    ensures { result ≡ unwrap_or matrix [] }
{
    match matrix {
        Some(matrix) => matrix,
        None => no_rows(alloc),
    }
}

/// The status, the matrix and the certificate of a plan.
fn outcome_of(alloc: Global, planned: Planned) -> Outcome
    ensures status { result.status ≡ plan_status planned }
    ensures matrix { result.matrix ≡ matrix_of_plan planned }
    ensures cert { result.cert ≡ cert_of_plan planned }
{
    match planned {
        Planned::Best(matrix, cert) => Outcome {
            status: Status::Done,
            matrix,
            cert,
        },
        Planned::NoSolution(cert) => Outcome {
            status: Status::NoSolution,
            matrix: no_rows(alloc),
            cert,
        },
        Planned::Spent(matrix, cert) => Outcome {
            status: Status::Spent,
            matrix: rows_of(alloc, matrix),
            cert,
        },
    }
}

/// The problem stands, its items are those of its signals, and the figures of the matrix are in their ranges.
fn parts_stand(problem: &Problem, matrix: &Matrix)
    ensures problem { IsProblem problem.now }
    ensures sorted { IsSorted problem.now.signals problem.now.items }
    ensures in_range { All RowInRange matrix.now }
{
    let _items = problem.items();
    let _rows = matrix.rows();
}

/// The plan for a problem within so many branches, from 1 to 1000000. The only error is want of memory.
pub(crate) fn make_plan(alloc: Global, problem: &Problem, branches: u64) -> Result<Made, Memory>
    requires some { 1 ≤ branches }
    requires most { branches ≤ 1000000 }
    ensures { IfOk result (IsMade problem.now branches) }
{
    let Told { planned, verdict } = plan_shown(alloc, problem, branches)?;
    let Outcome {
        status,
        matrix,
        cert,
    } = outcome_of(alloc, planned);
    parts_stand(problem, &matrix);
    Ok(Made {
        status,
        matrix,
        cert,
        shown: verdict,
    })
}

/// The texts and the line of the plan for a problem within so many branches, from 1 to 1000000. The only error is
/// want of memory.
pub(crate) fn plan_texts(
    alloc: Global,
    problem: &Problem,
    branches: u64,
) -> Result<PlanTexts, Memory>
    requires some { 1 ≤ branches }
    requires most { branches ≤ 1000000 }
    ensures { IfOk result (AreMade problem.now branches) }
{
    let made = make_plan(alloc, problem, branches)?;
    Ok(PlanTexts {
        status: made.status,
        matrix: write_matrix(alloc, &made.matrix)?,
        cert: write_cert(alloc, &made.cert, true)?,
        line: found_line(alloc, Found::Shown(made.shown), problem.hyper())?,
    })
}
