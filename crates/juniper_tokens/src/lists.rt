//! Lists whose length is expected.
ghost use Rattle.std.specs.Prelude.{◌≡◌, []};

use std::alloc::Global;

/// An empty list with this capacity, if there is as much memory.
pub(crate) fn list_with_capacity<T>(alloc: Global, capacity: usize) -> Vec<T>
    ensures { result.items ≡ [] }
{
    match Vec::with_capacity(alloc, capacity) {
        Ok(list) => list,
        Err(_) => Vec::new(alloc),
    }
}
