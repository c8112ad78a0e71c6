//! Copies a vector. The tables of an index use this for their own copies.

ghost use Rattle.std.specs.Prelude.{◌≡◌, IfOk};

use std::alloc::AllocError;

/// Returns a copy of a vector, with the same allocator.
pub(crate) fn copied<T: Copy>(table: &Vec<T>) -> Result<Vec<T>, AllocError>
    ensures { IfOk result (λ copy. copy.items ≡ table.now.items) }
{
    let mut copy = Vec::new(*table.allocator());
    copy.extend_from_slice(table.as_slice())?;
    Ok(copy)
}
