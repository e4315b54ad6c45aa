//! Loads and lower bounds, in eighths of ticks a common period.
ghost use Rattle.std.specs.Prelude.{◌≡◌};
ghost use Rattle.grouping_tree.specs.Grouped.{Belongs, labels_of, range_of};
ghost use Rattle.bandwidth_bound.specs.Bounds.{load8_of};
ghost use Rattle.bandwidth_bound.specs.Loads.{LoadsFit};
ghost use Rattle.bandwidth_bound.specs.Prices.{lower8_of};

use crate::floors::{Rest, items_of};
use grouping_tree::Partial;
use pack_model::Problem;

/// The load of the classes so far, in eighths of ticks a common period. It takes no memory.
pub fn load8(partial: &Partial, problem: &Problem) -> u128
    requires { Belongs problem.now partial.now }
    ensures { result ≡ load8_of problem.now (range_of problem.now partial.now) (labels_of partial.now) }
{
    8 * partial.kept_load()
}

/// The lower bound at a partial grouping, in eighths of ticks a common period, with the values of lemmas by
/// sender, 0 where there is none: 8 times the load of each legal grouping that extends it is no less, where each
/// value is at most 8 times the load of every legal grouping of its sender's items. It takes no memory.
pub fn lower8(partial: &Partial, problem: &Problem, lemmas: &[u128]) -> u128
    requires { Belongs problem.now partial.now }
    ensures { result
        ≡ lower8_of problem.now lemmas.now (range_of problem.now partial.now) (labels_of partial.now) }
{
    let items = items_of(problem, partial.range());
    let placed = partial.labels().len();
    let mut rest = Rest::none();
    for place in (placed..items.len()).rev() {
        rest = rest.with_item(problem, items, place, lemmas);
    }
    rest.lower8(partial.kept_load(), partial.kept_slack())
}

/// A load in eighths is below 2 to the power of 128, and so is the bound.
pub fn loads_fit()
    ensures { LoadsFit }
{}
