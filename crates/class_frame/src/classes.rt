//! The sums of each class of a grouping.
ghost use Rattle.std.specs.Prelude.{ℕ, ◌≡◌, ◌≤◌, ◌<◌, length, slice_index_or, All};
ghost use Rattle.class_frame.specs.Grouping.{class_of};
ghost use Rattle.class_frame.specs.Sums.{AreSums};
ghost use Rattle.class_frame.specs.declared.sums.Sums.{Sums};

use crate::sums::Sums;
use pack_model::{Item, Problem};

/// The most classes that there are: as many as items.
pub const MAX_CLASSES: usize = 128;

/// The sums of each class of items of the problem, by label: those of no items at a label that no item has. There is
/// one label for each item, and there are at most 128, each of at most 512 bits.
pub fn class_sums(problem: &Problem, items: &[Item], labels: &[u32]) -> [Sums; MAX_CLASSES]
    requires each { length labels.now ≡ length items.now }
    requires few { length items.now ≤ 128 }
    requires small { All (λ item. item.bits ≤ 512) items.now }
    requires members { All (λ item. All (λ place. place < length problem.now.signals) item.members) items.now }
    requires low { All (λ label. label < 128) labels.now }
    ensures { (label : ℕ) (d : Sums) → label < 128
        → AreSums problem.now (class_of label labels.now items.now) (slice_index_or result label d) }
{
    let mut sums = [Sums::none(); MAX_CLASSES];
    for (number, item) in items.iter().enumerate() {
        let label = labels[number] as usize;
        sums[label] = sums[label].join(Sums::of(problem, item));
    }
    sums
}
