//! Laws of partial groupings as items are put.
ghost use Rattle.bandwidth_bound.specs.Laws.{ClassesExtend, ClassesStay, FailSetIsFinal, FailingIsFinal, FailingSetsGrow, LoadsNeverFall, RefutedIsFailing};

/// With more labels a class has its items and perhaps more, and there are no fewer classes.
pub fn classes_extend()
    ensures items { ClassesExtend }
    ensures count { ClassesStay }
{}

/// The load of the classes so far, in ticks a common period, never falls as items are put.
pub fn loads_never_fall()
    ensures { LoadsNeverFall }
{}

/// Frames that are refuted, each with the others of them higher and all remaining ones lower, are a failing
/// set.
pub fn refuted_is_failing()
    ensures { RefutedIsFailing }
{}

/// A failing set of classes stays one as items are put.
pub fn failing_sets_grow()
    ensures { FailingSetsGrow }
{}

/// Where classes of a partial grouping are a failing set, no legal grouping that extends it has an order in
/// which each frame passes.
pub fn fail_set_is_final()
    ensures { FailSetIsFinal }
{}

/// Where classes of a partial grouping are refuted, no legal grouping that extends it has an order in which
/// each frame passes.
pub fn failing_is_final()
    ensures { FailingIsFinal }
{}
