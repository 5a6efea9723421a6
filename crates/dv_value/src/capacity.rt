//! Lists with room reserved at once.
ghost use Rattle.std.specs.Prelude.{◌≡◌, [], IfOk};

use sqlite_items::Items;
use std::alloc::{AllocError, Global};

/// An empty list with room for so many items, which are then added without a further allocation.
pub fn items_with_capacity<T>(alloc: Global, capacity: usize) -> Result<Items<T>, AllocError>
    ensures { IfOk result (λ items. items ≡ []) }
{
    Ok(Items::from_vec(Vec::with_capacity(alloc, capacity)?))
}
