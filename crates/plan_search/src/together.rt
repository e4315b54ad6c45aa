//! The groupings of senders put together.
ghost use Rattle.std.specs.Prelude.{◌≡◌, ◌≤◌, ◌<◌, ◌+◌, ◌++◌, ◌^◌, length, map, sum_by, take, IfOk, OnOk};
ghost use Rattle.class_frame.specs.Grouping.{classes_of};
ghost use Rattle.plan_search.specs.Begin.{put_together as put_together_of};

use pack_model::{Labels, Memory};
use std::alloc::Global;

/// The number of classes of labels that are numbered by first use.
pub(crate) fn count_classes(labels: &[u32]) -> u32
    requires { classes_of labels.now < 2 ^ 32 }
    ensures { result ≡ classes_of labels.now }
{
    let mut classes = 0;
    for label in labels {
        if *label >= classes {
            classes = *label + 1;
        }
    }
    classes
}

/// Puts labels of a grouping of its own after those of so many classes.
fn put_after(labels: &mut Vec<u32>, own: &[u32], classes: u32) -> Result<(), Memory>
    requires { classes + classes_of own.now < 2 ^ 32 }
    ensures { OnOk result (labels.new.items ≡ labels.old.items ++ map (λ label. classes + label) own.now) }
{
    for label in own {
        labels.push(classes + *label)?;
    }
    Ok(())
}

/// The groupings put together: each one's labels follow those of the ones before. The only error is want of
/// memory.
pub(crate) fn put_together(alloc: Global, groupings: &[Labels]) -> Result<Vec<u32>, Memory>
    requires { classes_of (put_together_of 0 groupings.now) < 2 ^ 32 }
    ensures { IfOk result (λ labels. labels.items ≡ put_together_of 0 groupings.now) }
{
    let mut labels = Vec::new(alloc);
    let mut classes = 0;
    for own in groupings {
        put_after(&mut labels, own.as_slice(), classes)?;
        classes += count_classes(own.as_slice());
    }
    Ok(labels)
}
