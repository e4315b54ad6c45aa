//! Laws of the lower bound, in eighths of ticks a common period.
ghost use Rattle.bandwidth_bound.specs.PriceLaws.{BoundIsBelow, BoundIsExact, BoundIsMore, PricesAreBelow};

/// As items join a class, 8 times its load is no less than it was with the prices of these items, less the
/// slack of the class.
pub fn prices_are_below()
    ensures { PricesAreBelow }
{}

/// The lower bound at a partial grouping is at most 8 times the load of each legal grouping that extends it,
/// where the value of each lemma is at most 8 times the load of every legal grouping of its sender's items.
pub fn bound_is_below()
    ensures { BoundIsBelow }
{}

/// Where all items are placed the lower bound is 8 times the load.
pub fn bound_is_exact()
    ensures { BoundIsExact }
{}

/// The lower bound is never less than 8 times the load of the classes so far.
pub fn bound_is_more()
    ensures { BoundIsMore }
{}
