//! Moves items to another vector, without allocating.

ghost use Rattle.std.specs.Prelude.{◌≡◌, ◌+◌, ◌≤◌, [], ◌++◌, vec_capacity, vec_len};
ghost use Rattle.crush_units.specs.declared.id.ItemId.TheVariants.{Bucket as BucketItem};
ghost use Rattle.crush_nodes.specs.Ops.{StoresUpTo};
ghost use Rattle.crush_nodes.specs.Room.{count};
ghost use Rattle.crush_nodes.specs.Seen.{items_of};
ghost use Rattle.crush_walks.specs.BufferReplaced.{with_capacity, HoldsUpTo, HasBufferReplaced};
ghost use Rattle.crush_walks.specs.Swapping.{bucket_in};
ghost use Rattle.crush_walks.specs.DescendsTo.{DescendsTo};
ghost use Rattle.crush_units.specs.declared.limits.TheConstants.{HEAVIEST_BUCKET};

use crate::change::{NodeChange, change_at};
use crush_nodes::descent::Descent;
use crush_nodes::node::{Bucket, Node};
use crush_units::{BucketId, ItemId};
use std::alloc::Allocator;
use std::mem;

/// Moves the items of a bucket, in order, to the vector `given`, which becomes the bucket's vector.
/// `given` must be empty, and its capacity must be at least the number of the items. Returns the
/// old vector, now empty. A second call with the old vector undoes the first call. `descent` leads
/// to the bucket.
pub fn replace_buffer_in<A: Allocator, W: Descent>(
    items: &mut [Node<A>],
    descent: &W,
    place: BucketId,
    given: Vec<Node<A>, A>,
) -> Vec<Node<A>, A>
    requires descent { DescendsTo (W.knows descent.now) (BucketItem place) (items_of items.old) }
    requires stored { StoresUpTo HEAVIEST_BUCKET (items_of items.old) }
    requires empty { given.items ≡ [] }
    requires enough { count (bucket_in place (items_of items.old)).kids ≤ vec_capacity given }
    ensures after { items_of items.new
        ≡ with_capacity place (vec_capacity given) (items_of items.old) }
    ensures empty { result.items ≡ [] }
    ensures capacity { vec_capacity result
        ≡ (bucket_in place (items_of items.old)).capacity }
    ensures enough { count (bucket_in place (items_of items.old)).kids ≤ vec_capacity result }
{
    change_at(
        items,
        descent,
        &ItemId::Bucket(place),
        ReplaceBuffer { items: given },
    )
}

/// Moves all items, in order, to the vector `given`, which replaces the vector `items`. `given`
/// must be empty, and its capacity must be at least the number of the items. Returns the old
/// vector, now empty.
pub fn replace_buffer_of<A: Allocator>(
    items: &mut Vec<Node<A>, A>,
    mut given: Vec<Node<A>, A>,
) -> Vec<Node<A>, A>
    requires empty { given.items ≡ [] }
    requires enough { vec_len items.old ≤ vec_capacity given }
    ensures items { items.new.items ≡ items.old.items }
    ensures given { vec_capacity items.new ≡ vec_capacity given }
    ensures empty { result.items ≡ [] }
    ensures capacity { vec_capacity result ≡ vec_capacity items.old }
{
    move_all(items, &mut given);
    mem::replace(items, given)
}

/// Moves all items of `from` to the end of `to`, which has room for them.
fn move_all<A: Allocator>(from: &mut Vec<Node<A>, A>, to: &mut Vec<Node<A>, A>)
    requires { vec_len to.old + vec_len from.old ≤ vec_capacity to.old }
    ensures items { to.new.items ≡ to.old.items ++ from.old.items }
    ensures empty { from.new.items ≡ [] }
    ensures memory { vec_capacity to.new ≡ vec_capacity to.old }
    ensures left { vec_capacity from.new ≡ vec_capacity from.old }
{
    for node in from.drain(..) {
        to.push_reserved(node);
    }
}

/// A change that moves the items of a bucket to an empty vector. Returns the old vector, now empty.
#[derive(Drop)]
struct ReplaceBuffer<A: Allocator> {
    items: Vec<Node<A>, A>,
}

impl<A: Allocator> NodeChange<A> for ReplaceBuffer<A> {
    type Out = Vec<Node<A>, A>;

    ghost can = { λ act x. (act.items.items ≡ []) × HoldsUpTo (vec_capacity act.items) x };

    ghost does = { λ act x y out. HasBufferReplaced (vec_capacity act.items) x y out };

    #[inline(never)]
    fn act(self, node: &mut Node<A>) -> Vec<Node<A>, A> {
        match node {
            Node::Device(_) => unreachable!(),
            Node::Bucket(bucket) => {
                let bucket: &mut Bucket<A> = bucket;
                replace_buffer_of(&mut bucket.items, self.items)
            }
        }
    }
}
