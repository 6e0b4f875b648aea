//! Copies of lists, and of what they hold.
ghost use Rattle.std.specs.Prelude.{◌≡◌, IfOk};

use pm_io::{List, NoMemory, Text};
use std::alloc::Global;

/// What can be copied where memory may run out.
pub(crate) trait Copied: Drop {
    /// An equal value with parts of its own.
    fn copied(&self, alloc: Global) -> Result<Self, NoMemory>
        ensures { IfOk result (λ copied. copied ≡ self.now) };
}

pub(crate) fn copy_list<T: Copied>(alloc: Global, items: &[T]) -> Result<List<T>, NoMemory>
    ensures { IfOk result (λ copied. copied ≡ items.now) }
{
    let mut copied = List::new(alloc);
    for item in items {
        copied.push(item.copied(alloc)?)?;
    }
    Ok(copied)
}

pub(crate) fn copy_text(alloc: Global, text: &Text) -> Result<Text, NoMemory>
    ensures { IfOk result (λ copied. copied ≡ text.now) }
{
    Text::from_slice(alloc, text.as_slice())
}

/// A copy of some numbers.
pub(crate) fn copy_numbers(alloc: Global, numbers: &[u32]) -> Result<List<u32>, NoMemory>
    ensures { IfOk result (λ copied. copied ≡ numbers.now) }
{
    Ok(List::from_slice(alloc, numbers)?)
}
