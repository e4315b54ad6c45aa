//! The items of a range, and what is kept of each.
ghost use Rattle.std.specs.Prelude.{◌≡◌, ◌≤◌, ◌<◌, ◌+◌, length, count_by, nat_eq, nat_lt, take, drop};
ghost use Rattle.pack_model.specs.declared.item.Item.{Item};
ghost use Rattle.grouping_tree.specs.Grouped.{AreEach, items_in};

use crate::class::Class;
use pack_model::{Item, Problem};

/// The items of a range, as a piece of a problem's.
#[derive(Clone, Copy, Debug, PartialEq, Eq)]
pub(crate) struct Place {
    /// The place of the first of them.
    pub(crate) first: usize,
    /// How many there are.
    pub(crate) many: usize,
}

/// The place of the items of a sender, or of all.
pub(crate) fn place_in(problem: &Problem, sender: Option<u32>) -> Place
    ensures slice { take result.many (drop result.first problem.now.items)
        ≡ items_in problem.now.items sender }
    ensures inside { result.first + result.many ≤ length problem.now.items }
{
    let items = problem.items();
    match sender {
        Some(number) => Place {
            first: count_before(items, number),
            many: count_of(items, number),
        },
        None => Place {
            first: 0,
            many: items.len(),
        },
    }
}

/// How many items are of senders before one.
fn count_before(items: &[Item], sender: u32) -> usize
    ensures { result ≡ count_by (λ item. nat_lt item.sender sender) items.now }
{
    items.iter().filter(|item| item.sender < sender).count()
}

/// How many items are of a sender.
fn count_of(items: &[Item], sender: u32) -> usize
    ensures { result ≡ count_by (λ item. nat_eq item.sender sender) items.now }
{
    items.iter().filter(|item| item.sender == sender).count()
}

/// Writes what is kept of each item of a range as a class of its own.
pub(crate) fn write_alone(alone: &mut Vec<Class>, problem: &Problem, place: Place)
    requires room { place.many ≤ length alone.old.items }
    requires inside { place.first + place.many ≤ length problem.now.items }
    ensures room { length alone.new.items ≡ length alone.old.items }
    ensures each { AreEach problem.now (take place.many (drop place.first problem.now.items)) alone.new.items }
{
    for number in 0..place.many {
        alone[number] = Class::alone(problem, &problem.items()[place.first + number]);
    }
}
