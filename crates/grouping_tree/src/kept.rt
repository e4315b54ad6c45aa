//! What is kept of classes.
ghost use Rattle.std.specs.Prelude.{◌≡◌, ◌<◌, ℕ, length, slice_index_or};
ghost use Rattle.busy_period.specs.declared.timed.Timed.{Timed};
ghost use Rattle.grouping_tree.specs.declared.class.Class.{Class};

use crate::class::Class;
use busy_period::Timed;

/// What all classes come to once the next item has a label.
#[derive(Clone, Copy, Debug, PartialEq, Eq)]
pub struct Ahead {
    /// Their loads together, in ticks a common period.
    pub load: u128,
    /// The slacks of the classes of the sender in work then, in eighths of ticks a common period.
    pub slack: u128,
}

/// What is kept of a class.
#[derive(Clone, Copy, Debug, PartialEq, Eq)]
pub struct Kept {
    /// The weights of its items together.
    pub weight: u32,
    /// The data length of its frame, in bytes.
    pub size: u32,
    /// Its frame, in ticks.
    pub timed: Timed,
}

/// What is kept of the class of a label and of all classes.
#[derive(Clone, Copy, Debug, PartialEq, Eq)]
pub(crate) struct State {
    /// What is kept of the class.
    pub(crate) own: Class,
    /// The number of classes.
    pub(crate) classes: u32,
    /// How many there were when the sender in work began.
    pub(crate) first_label: u32,
    /// The loads of these together.
    pub(crate) load: u128,
    /// The slacks of those of the sender in work together.
    pub(crate) slack: u128,
}

impl State {
    /// Of a class, where no item has a label.
    pub(crate) fn of(own: Class) -> State {
        State {
            own,
            classes: 0,
            first_label: 0,
            load: 0,
            slack: 0,
        }
    }
}

/// Takes all items from all classes: `none` is what is kept of no items.
pub(crate) fn clear(held: &mut Vec<Class>, frames: &mut Vec<Timed>, none: Class)
    requires frames { length frames.old.items ≡ length held.old.items }
    ensures held_room { length held.new.items ≡ length held.old.items }
    ensures frames_room { length frames.new.items ≡ length held.old.items }
    ensures held { (label : ℕ) (d : Class) → label < length held.old.items
        → slice_index_or held.new.items label d ≡ none }
    ensures frames { (label : ℕ) (d : Timed) → label < length held.old.items
        → slice_index_or frames.new.items label d ≡ none.frame }
{
    let many = held.len();
    for label in 0..many {
        held[label] = none;
        frames[label] = none.frame;
    }
}
