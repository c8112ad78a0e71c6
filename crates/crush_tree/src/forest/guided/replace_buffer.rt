//! Moves the items of a place from one vector to another, with a guide.

ghost use Rattle.std.specs.Prelude.{◌≡◌, true, vec_capacity};
ghost use Rattle.crush_model.specs.Forest.{rows_of};
ghost use Rattle.crush_nodes.specs.Ops.{is_place};
ghost use Rattle.crush_tree.specs.BufferReplaced.{CanReplaceBuffer, GrowsBuffer, ReplacesBuffer};
ghost use Rattle.crush_tree.specs.Required.{Guided};

use super::along::along_mut;
use crate::forest::Forest;
use crush_nodes::descent::Search;
use crush_nodes::guide::Guide;
use crush_nodes::node::Node;
use crush_nodes::place::Place;
use crush_units::ItemId;
use std::alloc::{AllocError, Allocator};

impl<A: Allocator> Forest<A> {
    /// Moves the items of a place into the vector `given` and returns their old vector, as
    /// [`Forest::replace_buffer`] does, with a guide.
    pub fn replace_buffer_by<G: Guide>(
        &mut self,
        guide: &G,
        place: Place,
        given: Vec<Node<A>, A>,
    ) -> Vec<Node<A>, A>
        requires { Guided (G.place_of guide.now) self.old (CanReplaceBuffer place given self.old) }
        ensures { ReplacesBuffer place (vec_capacity given) self.old self.new result }
    {
        self.recall_invariant();
        let place = &place;
        let Some(bucket) = place.holder() else {
            return self.replace_buffer_along(&Search, *place, given);
        };
        along_mut(guide, ItemId::Bucket(bucket), self, |forest, _, descent| {
            forest.replace_buffer_along(descent, *place, given)
        })
    }
}

impl<A: Allocator + Clone> Forest<A> {
    /// Ensures that a place has room for one more item, in a way that can be undone, as
    /// [`Forest::grow_buffer`] does, with a guide.
    pub fn grow_buffer_by<G: Guide>(
        &mut self,
        guide: &G,
        place: Place,
    ) -> Result<Option<Vec<Node<A>, A>>, AllocError>
        requires { Guided (G.place_of guide.now) self.old
            (is_place (rows_of self.old) place ≡ true) }
        ensures { GrowsBuffer place self.old self.new result }
    {
        self.recall_invariant();
        let place = &place;
        let Some(bucket) = place.holder() else {
            return self.grow_buffer_along(&Search, *place);
        };
        along_mut(guide, ItemId::Bucket(bucket), self, |forest, _, descent| {
            forest.grow_buffer_along(descent, *place)
        })
    }
}
