//! What a turn begins with.
ghost use Rattle.std.specs.Prelude.{◌≡◌, IfOk};
ghost use Rattle.grouping_tree.specs.Grouped.{Belongs, labels_of, range_of};
ghost use Rattle.grouping_tree.specs.Partial.{IsPartial};
ghost use Rattle.search_task.specs.Task.{lesser};

use grouping_tree::Partial;
use pack_model::{Labels, Memory, Problem};
use std::alloc::Global;
use tree_search::Found;

/// The partial grouping of all items with the labels of a path. The only error is want of memory.
pub(crate) fn place(alloc: Global, problem: &Problem, path: &[u32]) -> Result<Partial, Memory>
    requires { IsPartial problem.now.items path.now }
    ensures belongs { IfOk result (Belongs problem.now) }
    ensures labels { IfOk result (λ partial. labels_of partial ≡ path.now) }
    ensures range { IfOk result (λ partial. range_of problem.now partial ≡ problem.now.items) }
{
    let mut partial = Partial::whole(alloc, problem)?;
    for &label in path {
        partial.put(problem, label);
    }
    Ok(partial)
}

/// The lesser of two loads that may not be there.
pub(crate) fn lesser(best: Option<u128>, other: Option<u128>) -> Option<u128>
    ensures { result ≡ lesser best other }
{
    match (best, other) {
        (Some(load), Some(less)) if less < load => Some(less),
        (Some(load), _) => Some(load),
        (None, other) => other,
    }
}

/// A copy of a grouping that was found. The only error is want of memory.
pub(crate) fn copy_of(alloc: Global, found: &Found) -> Result<Found, Memory>
    ensures { IfOk result (λ copy. copy ≡ found.now) }
{
    let labels = Labels::of(Vec::from_slice(alloc, found.labels.as_slice())?);
    let order = Labels::of(Vec::from_slice(alloc, found.order.as_slice())?);
    Ok(Found {
        labels,
        order,
        load: found.load,
    })
}
