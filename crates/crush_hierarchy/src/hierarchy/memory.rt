//! Moves the items of a *place* (a bucket, the list of roots, or the list of unplaced devices) from
//! one vector to another. The old vector is returned, so that the move can be undone exactly.

ghost use Rattle.std.specs.Prelude.{◌≡◌, true, vec_capacity};
ghost use Rattle.crush_model.specs.Forest.{rows_of};
ghost use Rattle.crush_tree.specs.Ops.{is_place};
ghost use Rattle.crush_tree.specs.BufferReplaced.{CanReplaceBuffer, GrowsBuffer, ReplacesBuffer};

use super::Hierarchy;
use crush_tree::{Node, Place};
use std::alloc::{AllocError, Allocator};

impl<A: Allocator> Hierarchy<A> {
    /// Moves the items of a place into the vector `given`, and returns the vector in which the
    /// items were before, which is now empty. The place must exist. `given` must be empty, and must
    /// have memory for all items of the place. A second call with the returned vector undoes the
    /// first call. Allocates nothing.
    pub fn replace_buffer(&mut self, place: Place, given: Vec<Node<A>, A>) -> Vec<Node<A>, A>
        requires { CanReplaceBuffer place given self.old }
        ensures { ReplacesBuffer place (vec_capacity given) self.old self.new result }
    {
        let before = self
            .forest
            .replace_buffer_by(self.index.places(), place, given);
        self.forest.recall_invariant();
        before
    }
}

impl<A: Allocator + Clone> Hierarchy<A> {
    /// Ensures that a place has room for one more item, in a way that can be undone. The place must
    /// exist. If the place is full, the call moves the items of the place to a larger vector, and
    /// returns the old vector. The larger vector has 1.5 times the capacity of the old vector,
    /// rounded down, plus one. With the old vector, [`Hierarchy::replace_buffer`] undoes the call.
    /// If the place already has room, the call returns `Ok(None)` and changes nothing. Returns an
    /// error if memory can't be allocated; then nothing changes.
    pub fn grow_buffer(&mut self, place: Place) -> Result<Option<Vec<Node<A>, A>>, AllocError>
        requires { is_place (rows_of self.old) place ≡ true }
        ensures { GrowsBuffer place self.old self.new result }
    {
        let done = self.forest.grow_buffer_by(self.index.places(), place);
        self.forest.recall_invariant();
        done
    }
}
