//! An allocator for tests that refuses one request for memory.

use std::alloc::{AllocError, Allocator};
use std::cell::Cell;

/// An allocator that refuses one request, whose number a test sets. It passes all other requests on
/// to another allocator. All collections of a map have a reference to the same allocator, so the
/// requests of all collections are counted together. A collection that grows makes one request for
/// its new block. Freeing a block isn't a request.
#[derive(Drop)]
pub struct Refusing<M: Allocator> {
    memory: M,
    /// The number of the request that is refused, counted from now: 1 for the next request, or 0 if
    /// no request is refused.
    left: Cell<usize>,
}

impl<M: Allocator> Refusing<M> {
    /// Returns an allocator that refuses no request yet.
    pub fn new(memory: M) -> Refusing<M> {
        Refusing {
            memory,
            left: Cell::new(0),
        }
    }

    /// Sets the number of the request that is refused, counted from now: 1 for the next request, or
    /// 0 if no request is refused.
    pub fn refuse(&self, number: usize) {
        self.left.set(number);
    }

    /// Whether the request with the set number has been refused. The result is also true if the set
    /// number is 0.
    pub fn has_refused(&self) -> bool {
        self.left.get() == 0
    }
}

/// Counts one request, and returns whether this request is refused.
fn counts_down(left: &Cell<usize>) -> bool {
    let number = left.get();
    left.set(number.saturating_sub(1));
    number == 1
}

// SAFETY: the wrapped allocator allocates each block and frees it. So the right to free a block is
// the right that the wrapped allocator has given for this block.
unsafe impl<M: Allocator> Allocator for Refusing<M> {
    ghost dealloc_token = { λ r ty ptr. M.dealloc_token r.memory ty ptr };

    fn allocate(&self, size: usize, align: usize) -> Result<*mut u8, AllocError> {
        if counts_down(&self.left) {
            return Err(AllocError);
        }
        self.memory.allocate(size, align)
    }

    unsafe fn deallocate(&self, ptr: *mut u8, size: usize, align: usize) {
        // SAFETY: the wrapped allocator allocated the block, for the type `ty` of the contract of
        // `deallocate`. The caller passes the right to free the block to this function, which
        // passes it on to the wrapped allocator.
        self.memory.deallocate(ptr, size, align);
    }
}
