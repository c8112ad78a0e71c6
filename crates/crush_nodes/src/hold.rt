//! Appends an item to a bucket. The bucket may be in a forest or not.

ghost use Rattle.std.specs.Prelude.{◌≡◌, ℕ, ◌+◌, ◌<◌, ◌≤◌, ◌∷◌, [], ◌++◌, Option, nat_lt};
ghost use Rattle.crush_model.specs.ItemRows.{rows};
ghost use Rattle.crush_model.specs.Stored.{weight_sum, StoresSums};
ghost use Rattle.crush_nodes.specs.Held.{first_room, first_bucket, is_own_place, bucket_with};
ghost use Rattle.crush_model.specs.Count.{one_if};
ghost use Rattle.crush_nodes.specs.Room.{room_in};
ghost use Rattle.crush_nodes.specs.Seen.{items_of};
ghost use Rattle.crush_nodes.specs.declared.place.Place.{Place};
ghost use Rattle.crush_units.specs.declared.limits.TheConstants.{HEAVIEST_BUCKET};

use crate::node::{Bucket, Node};
use crate::sums::with_more;
use std::alloc::Allocator;

impl<A: Allocator> Node<A> {
    /// Whether the item is a bucket with memory for one more item, so that [`Node::hold`] may be
    /// called.
    pub fn has_room(&self) -> bool
        ensures { result ≡ nat_lt 0 (first_room (items_of (self.now ∷ []))) }
    {
        match self {
            Node::Device(_) => false,
            Node::Bucket(bucket) => {
                let bucket: &Bucket<A> = bucket;
                bucket.items.len() < bucket.items.capacity()
            }
        }
    }

    /// Appends a child to a bucket, and adds the child's weight to the bucket's weight. Doesn't
    /// change the buckets above this bucket. The bucket must have room, which [`Node::has_room`]
    /// tests. The new weight must be at most 4294967295 units. Allocates nothing.
    pub fn hold(&mut self, child: Node<A>)
        requires room { 0 < first_room (items_of (self.old ∷ [])) }
        requires fits { weight_sum (items_of (self.old ∷ []))
            + weight_sum (items_of (child ∷ [])) ≤ HEAVIEST_BUCKET }
        ensures items { items_of (self.new ∷ [])
            ≡ bucket_with (items_of (child ∷ [])) (items_of (self.old ∷ [])) }
        ensures rows { (p : Option ℕ) → rows p (items_of (self.new ∷ []))
            ≡ rows p (items_of (self.old ∷ []))
            ++ rows (first_bucket (items_of (self.old ∷ []))) (items_of (child ∷ [])) }
        ensures sums { StoresSums (items_of (self.old ∷ [])) → StoresSums (items_of (child ∷ []))
            → StoresSums (items_of (self.new ∷ [])) }
        ensures rooms { (p : Place) → room_in (items_of (self.new ∷ [])) p
            + one_if (is_own_place (items_of (self.old ∷ [])) p)
            ≡ room_in (items_of (self.old ∷ [])) p + room_in (items_of (child ∷ [])) p }
    {
        match self {
            Node::Device(_) => unreachable!(),
            Node::Bucket(bucket) => {
                let bucket: &mut Bucket<A> = bucket;
                bucket.weight = with_more(bucket.weight, child.weight());
                bucket.items.push_reserved(child);
            }
        }
    }
}
