//! The signals of the items of a class.
ghost use Rattle.std.specs.Prelude.{◌≡◌, ◌<◌, All, IfOk, length};
ghost use Rattle.matrix_layout.specs.ClassItems.{items_at, places_of_items};

use pack_model::{Item, Memory};
use std::alloc::Global;

/// The list places of the signals of the items of these numbers, item by item.
pub fn places_at(alloc: Global, items: &[Item], numbers: &[u32]) -> Result<Vec<u32>, Memory>
    requires { All (λ number. number < length items.now) numbers.now }
    ensures { IfOk result (λ places. places.items ≡ places_of_items (items_at items.now numbers.now)) }
{
    let mut places = Vec::new(alloc);
    for &number in numbers {
        let item = &items[number as usize];
        places.extend_from_slice(item.members.as_slice())?;
    }
    Ok(places)
}
