//! Lists that are moved item by item.
ghost use Rattle.std.specs.Prelude.{◌≡◌, IfOk, reverse};

use pm_io::{List, NoMemory};
use std::alloc::Global;

/// The list from its end to its start.
pub(crate) fn reversed<T: Drop>(alloc: Global, mut items: List<T>) -> Result<List<T>, NoMemory>
    ensures { IfOk result (λ moved. reverse moved ≡ items) }
{
    let mut moved = List::new(alloc);
    while let Some(item) = items.pop() {
        moved.push(item)?;
    }
    Ok(moved)
}
