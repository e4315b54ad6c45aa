//! The items of each class.
ghost use Rattle.std.specs.Prelude.{◌≡◌, ◌<◌, ◌^◌, [], All, IfOk, length, map, replicate};
ghost use Rattle.std.specs.List.{range_with_len};
ghost use Rattle.matrix_layout.specs.ClassItems.{numbers_of_class};

use pack_model::Memory;
use std::alloc::Global;

/// The numbers of the items of each of the first `classes` classes, ascending.
pub fn items_by_class(
    alloc: Global,
    labels: &[u32],
    classes: usize,
) -> Result<Vec<Vec<u32>>, Memory>
    requires few { length labels.now < 2 ^ 32 }
    requires below { All (λ label. label < classes) labels.now }
    ensures { IfOk result (λ numbers. map (λ class. class.items) numbers.items
        ≡ map (numbers_of_class labels.now) (range_with_len 0 classes)) }
{
    let mut numbers = empty_classes(alloc, classes)?;
    for (number, &label) in labels.iter().enumerate() {
        let class = &mut numbers[label as usize];
        class.push(number as u32)?;
    }
    Ok(numbers)
}

/// So many classes with no item.
fn empty_classes(alloc: Global, classes: usize) -> Result<Vec<Vec<u32>>, Memory>
    ensures { IfOk result (λ numbers. map (λ class. class.items) numbers.items ≡ replicate classes []) }
{
    let mut numbers = Vec::with_capacity(alloc, classes)?;
    for _ in 0..classes {
        numbers.push(Vec::new(alloc))?;
    }
    Ok(numbers)
}
