//! What the items that are not placed cost at least, and the lower bound by it.
ghost use Rattle.std.specs.Prelude.{◌≡◌, ◌≤◌, ◌<◌, ◌+◌, ◌*◌, ◌^◌, ◌↔◌, ◌++◌, ◌∷◌, [], ℕ, List, Option, Some, length, take, slice_index_or, count_by, nat_eq, nat_lt, Contains, IfOk, IfSome, IsTrue};
ghost use Rattle.pack_model.specs.Problem.{IsProblem, Parts};
ghost use Rattle.pack_model.specs.declared.item.Item.{Item};
ghost use Rattle.class_frame.specs.Classes.{load_of};
ghost use Rattle.grouping_tree.specs.Grouped.{Belongs, items_in, labels_of, range_of, sender_of};
ghost use Rattle.grouping_tree.specs.Partial.{IsPartial};
ghost use Rattle.grouping_tree.specs.Slack.{last_sender, sender_in_work, slack_in_work};
ghost use Rattle.bandwidth_bound.specs.Floors.{AreFloors, AreInRange, HasTables, IsRest, floors_room};
ghost use Rattle.bandwidth_bound.specs.Prices.{lower8_of, price_of};

use class_frame::Sums;
use grouping_tree::Partial;
use pack_model::{Item, Memory, Problem};
use std::alloc::Global;

/// What the items of a range that are not placed cost at least, by the number of items placed, in eighths of
/// ticks a common period.
#[derive(Drop)]
pub struct Floors {
    /// What is left after each number of items placed.
    rests: Vec<Rest>,
}

impl Floors {
    /// Takes the memory for all items of the problem. Nothing is known of the tables until `fill`.
    pub fn new(alloc: Global, problem: &Problem) -> Result<Floors, Memory>
        ensures tables { IfOk result HasTables }
        ensures room { IfOk result (λ floors. floors_room floors ≡ length problem.now.items) }
    {
        Ok(Floors {
            rests: vec![in alloc; Rest::none(); problem.items().len() + 1]?,
        })
    }

    /// Fills the tables for the items of a sender of the problem, or for all, with the values of lemmas by
    /// sender in eighths of ticks a common period, 0 where there is none. It takes no memory.
    pub fn fill(&mut self, problem: &Problem, range: Option<u32>, values: &[u128])
        requires tables { HasTables self.old }
        requires room { length problem.now.items ≤ floors_room self.old }
        requires sender { IfSome range (λ number. number < length problem.now.senders) }
        ensures tables { HasTables self.new }
        ensures room { floors_room self.new ≡ floors_room self.old }
        ensures floors { AreFloors problem.now range values.now self.new }
    {
        let items = items_of(problem, range);
        let mut rest = Rest::none();
        self.rests[items.len()] = rest;
        for place in (0..items.len()).rev() {
            rest = rest.with_item(problem, items, place, values);
            self.rests[place] = rest;
        }
    }

    /// The lower bound at a partial grouping of the range, in eighths of ticks a common period, for every
    /// problem and all values of lemmas that the tables are of. It takes no memory, and goes over nothing.
    pub fn lower8(&self, partial: &Partial) -> u128
        requires { (problem : Parts) × (values : List ℕ) × Belongs problem partial.now
            × AreFloors problem (sender_of partial.now) values self.now }
        ensures { (problem : Parts) (values : List ℕ) → Belongs problem partial.now
            → AreFloors problem (sender_of partial.now) values self.now
            → result ≡ lower8_of problem values (range_of problem partial.now) (labels_of partial.now) }
    {
        let rest = self.rests[partial.labels().len()];
        rest.lower8(partial.kept_load(), partial.kept_slack())
    }

    /// The lower bound once the next item has a label, one that may be put next, in eighths of ticks a common
    /// period, for every problem and all values of lemmas that the tables are of. It takes no memory, and goes
    /// over nothing.
    #[inline(always)]
    pub fn lower8_ahead(&self, partial: &Partial, label: u32) -> u128
        requires { (problem : Parts) × (values : List ℕ) × Belongs problem partial.now
            × IsPartial (range_of problem partial.now) (labels_of partial.now ++ label ∷ [])
            × AreFloors problem (sender_of partial.now) values self.now }
        ensures { (problem : Parts) (values : List ℕ) → Belongs problem partial.now
            → IsPartial (range_of problem partial.now) (labels_of partial.now ++ label ∷ [])
            → AreFloors problem (sender_of partial.now) values self.now
            → result ≡ lower8_of problem values (range_of problem partial.now)
            (labels_of partial.now ++ label ∷ []) }
    {
        let ahead = partial.ahead(label);
        let rest = self.rests[partial.labels().len() + 1];
        rest.lower8(ahead.load, ahead.slack)
    }
}

/// What the items of a range cost at least that are not placed, in eighths of ticks a common period.
#[derive(Clone, Copy, Debug, PartialEq, Eq)]
pub struct Rest {
    /// The prices of the items that the sender in work has left.
    left: u128,
    /// What the senders without an item placed cost at least, at most 2 to the power of 128 less 1.
    later: u128,
}

impl Rest {
    /// Where all items are placed nothing is left.
    pub fn none() -> Rest
        ensures { (problem : Parts) (values : List ℕ) (items : List Item) → IsProblem problem
            → AreInRange problem items → IsRest problem values items (length items) result }
    {
        Rest { left: 0, later: 0 }
    }

    /// What is left where the item at a place isn't placed either, but all before it.
    pub fn with_item(self, problem: &Problem, items: &[Item], place: usize, values: &[u128]) -> Rest
        requires range { AreInRange problem.now items.now }
        requires below { place < length items.now }
        requires rest { IsRest problem.now values.now items.now (place + 1) self }
        ensures { IsRest problem.now values.now items.now place result }
    {
        let item = &items[place];
        let left = self.left + price(problem, item);
        if is_in_work(items, place) {
            Rest {
                left,
                later: self.later,
            }
        } else {
            let floor = left.max(value_at(values, item.sender));
            Rest {
                left: 0,
                later: self.later.saturating_add(floor),
            }
        }
    }

    /// The lower bound after which this is left, where the loads of the classes come to `load` ticks a common
    /// period, and the slacks of those of the sender in work to `slack` eighths of ticks.
    #[inline(always)]
    pub fn lower8(self, load: u128, slack: u128) -> u128
        requires { 8 * load < 2 ^ 128 }
        ensures { (problem : Parts) (values : List ℕ) (items : List Item) (labels : List ℕ)
            → load ≡ load_of problem items labels
            → slack ≡ slack_in_work problem items labels (sender_in_work items labels)
            → IsRest problem values items (length labels) self → result ≡ lower8_of problem values items labels }
    {
        let left = self.left.saturating_sub(slack);
        let load8 = 8 * load;
        load8.saturating_add(left).saturating_add(self.later)
    }
}

/// The items of a sender of the problem, or all.
pub fn items_of<'a>(problem: &'a Problem, range: Option<u32>) -> &'a [Item]
    ensures items { result.now ≡ items_in problem.now.items range }
    ensures problem { IsProblem problem.now }
{
    let items = problem.items();
    match range {
        Some(sender) => {
            let first = count_before(items, sender);
            let end = first + count_of(items, sender);
            &items[first..end]
        }
        None => items,
    }
}

/// How many items are of senders before one.
fn count_before(items: &[Item], sender: u32) -> usize
    ensures { result ≡ count_by (λ item. nat_lt item.sender sender) items.now }
{
    items.iter().filter(|item| item.sender < sender).count()
}

/// How many items are of a sender.
fn count_of(items: &[Item], sender: u32) -> usize
    ensures { result ≡ count_by (λ item. nat_eq item.sender sender) items.now }
{
    items.iter().filter(|item| item.sender == sender).count()
}

/// Whether the item at a place is of the sender in work where all items before it are placed.
fn is_in_work(items: &[Item], place: usize) -> bool
    requires { place < length items.now }
    ensures { (d : Item) → IsTrue result
        ↔ (last_sender (take place items.now) ≡ Some (slice_index_or items.now place d).sender) }
{
    place > 0 && items[place - 1].sender == items[place].sender
}

/// The value of a sender's lemma, 0 where there is none.
fn value_at(values: &[u128], sender: u32) -> u128
    ensures { result ≡ slice_index_or values.now sender 0 }
{
    values.get(sender as usize).copied().unwrap_or(0)
}

/// The price of an item of the problem: ten data bits for each byte of its weight, at the item's own period,
/// in eighths of ticks a common period.
fn price(problem: &Problem, item: &Item) -> u128
    requires { Contains problem.now.items item.now }
    ensures price { result ≡ price_of problem.now item.now }
    ensures problem { IsProblem problem.now }
{
    let network = problem.network();
    let sums = Sums::of(problem, item);
    let bits = 10 * network.data_ticks * sums.weight;
    let rate = problem.hyper() / sums.timed(network).period;
    u128::from(bits) * u128::from(rate)
}
