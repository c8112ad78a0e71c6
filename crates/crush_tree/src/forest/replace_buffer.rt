//! Moves the items of a place from one vector to another, and back.

ghost use Rattle.std.specs.Prelude.{◌≡◌, true, vec_capacity};
ghost use Rattle.crush_model.specs.Forest.{rows_of};
ghost use Rattle.crush_nodes.specs.Ops.{is_place};
ghost use Rattle.crush_tree.specs.BufferReplaced.{CanReplaceBuffer, GrowsBuffer, ReplacesBuffer};
ghost use Rattle.crush_tree.specs.Required.{LedToPlace};

use super::Forest;
use crush_nodes::descent::{Descent, Search};
use crush_nodes::node::Node;
use crush_nodes::place::Place;
use crush_walks::grow_buffer::{grow_buffer_in, grow_buffer_of};
use crush_walks::replace_buffer::{replace_buffer_in, replace_buffer_of};
use std::alloc::{AllocError, Allocator};

impl<A: Allocator> Forest<A> {
    /// Moves the items of a place into the vector `given`, and returns the vector that had the
    /// items before, now empty. The place must exist. `given` must be empty, and must have memory
    /// for all items of the place. A second call with the returned vector undoes the first call.
    /// Allocates nothing.
    pub fn replace_buffer(&mut self, place: Place, given: Vec<Node<A>, A>) -> Vec<Node<A>, A>
        requires { CanReplaceBuffer place given self.old }
        ensures { ReplacesBuffer place (vec_capacity given) self.old self.new result }
    {
        self.replace_buffer_along(&Search, place, given)
    }

    pub(super) fn replace_buffer_along<W: Descent>(
        &mut self,
        descent: &W,
        place: Place,
        given: Vec<Node<A>, A>,
    ) -> Vec<Node<A>, A>
        requires { LedToPlace place (W.knows descent.now) self.old (CanReplaceBuffer place given self.old) }
        ensures { ReplacesBuffer place (vec_capacity given) self.old self.new result }
    {
        match place {
            Place::Bucket(bucket) => replace_buffer_in(
                self.roots.as_mut_slice(),
                descent,
                bucket,
                given,
            ),
            Place::Root => replace_buffer_of(&mut self.roots, given),
            Place::Unplaced => replace_buffer_of(&mut self.unplaced, given),
        }
    }
}

impl<A: Allocator + Clone> Forest<A> {
    /// Ensures that a place, which must exist, has room for one more item, in a way that can be
    /// undone. If the place already has room, returns `Ok(None)` and changes nothing. If the place
    /// is full, moves its items to a vector with 1.5 times the capacity, rounded down, plus one,
    /// and returns the old vector. [`Forest::replace_buffer`], called with the old vector, undoes
    /// this. Fails with `AllocError` if memory can't be allocated, and then nothing has changed.
    pub fn grow_buffer(&mut self, place: Place) -> Result<Option<Vec<Node<A>, A>>, AllocError>
        requires { is_place (rows_of self.old) place ≡ true }
        ensures { GrowsBuffer place self.old self.new result }
    {
        self.grow_buffer_along(&Search, place)
    }

    pub(super) fn grow_buffer_along<W: Descent>(
        &mut self,
        descent: &W,
        place: Place,
    ) -> Result<Option<Vec<Node<A>, A>>, AllocError>
        requires { LedToPlace place (W.knows descent.now) self.old
            (is_place (rows_of self.old) place ≡ true) }
        ensures { GrowsBuffer place self.old self.new result }
    {
        match place {
            Place::Bucket(bucket) => grow_buffer_in(self.roots.as_mut_slice(), descent, bucket),
            Place::Root => grow_buffer_of(&mut self.roots),
            Place::Unplaced => grow_buffer_of(&mut self.unplaced),
        }
    }
}
