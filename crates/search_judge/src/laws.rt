//! Laws of what is found, and of the problem whose items are searched.
ghost use Rattle.pack_model.specs.Problem.{IsProblem, IsSorted};
ghost use Rattle.search_judge.specs.Laws.{FindingsShow, OneIsFound};

use pack_model::Problem;

/// What is found at a partial grouping shows this there.
pub fn findings_show()
    ensures { FindingsShow }
{}

/// One thing is found at a partial grouping.
pub fn one_is_found()
    ensures { OneIsFound }
{}

/// The problem stands, and its items are those of its signals.
pub fn problem_stands(problem: &Problem)
    ensures problem { IsProblem problem.now }
    ensures sorted { IsSorted problem.now.signals problem.now.items }
{
    let _items = problem.items();
}
