//! Laws of plans.
ghost use Rattle.plan_search.specs.Laws.{PlanAloneIsOne, PlanIsOne};

/// A problem has one plan in which each item has a frame of its own.
pub fn plan_alone_is_one()
    ensures { PlanAloneIsOne }
{}

/// A problem has one plan within so many branches.
pub fn plan_is_one()
    ensures { PlanIsOne }
{}
