//! Gives a bucket, or a vector of items, more memory in a way that can be undone: the old vector is
//! returned, and `replace_buffer` moves the items back to it without allocating.

ghost use Rattle.std.specs.Prelude.{◌∷◌, []};
ghost use Rattle.crush_units.specs.declared.id.ItemId.TheVariants.{Bucket as BucketItem};
ghost use Rattle.crush_nodes.specs.Ops.{StoresUpTo};
ghost use Rattle.crush_nodes.specs.Seen.{items_of};
ghost use Rattle.crush_walks.specs.Grown.{IsBucket, IsGrown, IsGrownBucket, IsGrownIn};
ghost use Rattle.crush_walks.specs.DescendsTo.{DescendsTo};
ghost use Rattle.crush_units.specs.declared.limits.TheConstants.{HEAVIEST_BUCKET};

use crate::change::{NodeChange, change_at};
use crate::replace_buffer::replace_buffer_of;
use crush_nodes::descent::Descent;
use crush_nodes::node::{Bucket, Node};
use crush_units::{BucketId, ItemId};
use std::alloc::{AllocError, Allocator};

/// Ensures that a bucket has room for one more item. If the bucket has room already, returns
/// `Ok(None)` and changes nothing. If the bucket is full, moves its items to a vector with 1.5
/// times the capacity, rounded down, plus one. In this case returns the old vector, now empty, so
/// that the growth can be undone. Fails with `AllocError` if memory can't be allocated, and then
/// nothing has changed. `descent` leads to the bucket.
pub fn grow_buffer_in<A: Allocator + Clone, W: Descent>(
    items: &mut [Node<A>],
    descent: &W,
    place: BucketId,
) -> Result<Option<Vec<Node<A>, A>>, AllocError>
    requires descent { DescendsTo (W.knows descent.now) (BucketItem place) (items_of items.old) }
    requires stored { StoresUpTo HEAVIEST_BUCKET (items_of items.old) }
    ensures { IsGrownIn place (items_of items.old) (items_of items.new) result }
{
    change_at(items, descent, &ItemId::Bucket(place), GrowBuffer)
}

/// Ensures that a vector of items has room for one more item. Returns the same results as
/// [`grow_buffer_in`] does for a bucket.
pub fn grow_buffer_of<A: Allocator + Clone>(
    items: &mut Vec<Node<A>, A>,
) -> Result<Option<Vec<Node<A>, A>>, AllocError>
    ensures { IsGrown items.old items.new result }
{
    let len = items.len();
    if len < items.capacity() {
        return Ok(None);
    }
    let larger = Vec::with_capacity(items.allocator().clone()?, len + len / 2 + 1)?;
    Ok(Some(replace_buffer_of(items, larger)))
}

/// A change that ensures room for one more item in a bucket. Returns the old vector if the items
/// have moved to a larger one, otherwise `Ok(None)`. Fails if memory can't be allocated.
#[derive(Drop)]
struct GrowBuffer;

impl<A: Allocator + Clone> NodeChange<A> for GrowBuffer {
    type Out = Result<Option<Vec<Node<A>, A>>, AllocError>;

    ghost can = { λ act x. IsBucket x };

    ghost does = { λ act x y out. IsGrownBucket x y out };

    #[inline(never)]
    fn act(self, node: &mut Node<A>) -> Result<Option<Vec<Node<A>, A>>, AllocError> {
        match node {
            Node::Device(_) => unreachable!(),
            Node::Bucket(bucket) => {
                let bucket: &mut Bucket<A> = bucket;
                grow_buffer_of(&mut bucket.items)
            }
        }
    }
}
