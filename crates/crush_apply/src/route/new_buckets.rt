//! Builds the new buckets of a route as nodes. The bucket of each stop is inside the bucket of the
//! next stop.

ghost use Rattle.std.specs.Prelude.{◌≡◌, ◌<◌, ◌≤◌, ◌∷◌, [], length, IfOk, All};
ghost use Rattle.crush_units.specs.declared.limits.TheConstants.{HEAVIEST_BUCKET};
ghost use Rattle.crush_model.specs.Items.{none, bucket};
ghost use Rattle.crush_model.specs.Stored.{weight_sum};
ghost use Rattle.crush_nodes.specs.Seen.{items_of, header_data};
ghost use Rattle.crush_edits.specs.Put.{with_ids, new_header};
ghost use Rattle.crush_edits.specs.Boxes.{boxes};
ghost use Rattle.crush_edits.specs.New.{IsStop};
ghost use Rattle.crush_apply.specs.Stopped.{stop_data, stops_data};

use crate::route::stops::Stop;
use crush_edits::Location;
use crush_tree::{Header, Node};
use crush_units::{Alg, BucketId, Name, TypeId};
use std::alloc::{AllocError, Allocator, Global};

/// Returns a new bucket without items. The bucket has memory for one item.
pub(crate) fn empty_bucket<A: Allocator + Clone>(
    alloc: &A,
    id: BucketId,
    kind: TypeId,
    name: &Name<Global>,
) -> Result<Node<A>, AllocError>
    ensures { IfOk result (λ node. items_of (node ∷ []) ≡ bucket
        (new_header (record { id = id; kind = kind; name = name.now })) 0 1 none none) }
{
    let items = alloc.clone()?;
    let header = new_header(alloc, id, kind, name)?;
    match Node::bucket(items, header) {
        Ok(node) => Ok(node),
        Err(_) => Err(AllocError),
    }
}

fn new_header<A: Allocator + Clone>(
    alloc: &A,
    id: BucketId,
    kind: TypeId,
    name: &Name<Global>,
) -> Result<Header<A>, AllocError>
    ensures { IfOk result (λ header. header_data header
        ≡ new_header (record { id = id; kind = kind; name = name.now })) }
{
    let class_ids = alloc.clone()?;
    let name = name.try_copy(alloc.clone()?)?;
    Ok(Header {
        id,
        kind,
        name,
        alg: Alg::Straw2,
        class_ids: Vec::new(class_ids),
    })
}

fn new_bucket<A: Allocator + Clone>(
    alloc: &A,
    id: BucketId,
    at: &Location,
    stop: Stop,
) -> Result<Node<A>, AllocError>
    requires { IsStop (stop_data at.now stop) }
    ensures { IfOk result (λ node. items_of (node ∷ []) ≡ bucket (new_header (record {
      id = id;
      kind = stop.kind;
      name = (stop_data at.now stop).name;
    })) 0 1 none none) }
{
    let pair = &at.pairs()[stop.pair];
    empty_bucket(alloc, id, stop.kind, &pair.name)
}

/// Creates a bucket for each stop, and returns these buckets as one node.
///
/// The bucket of each stop is in the bucket of the next stop. The bucket of the first stop is
/// empty, and has memory for one item. `ids` has the ids of the buckets, in the order of the stops.
/// Returns an error if memory runs out.
pub(crate) fn new_buckets<A: Allocator + Clone>(
    alloc: &A,
    ids: &[BucketId],
    at: &Location,
    stops: &[Stop],
) -> Result<Node<A>, AllocError>
    requires some { 0 < length stops.now }
    requires as_many { length ids.now ≡ length stops.now }
    requires forms { All IsStop (stops_data at.now stops.now) }
    ensures { IfOk result (λ node. items_of (node ∷ [])
        ≡ boxes 1 none (with_ids ids.now (stops_data at.now stops.now))) }
{
    let lowest = new_bucket(alloc, ids[0], at, stops[0])?;
    in_new_buckets(alloc, &ids[1..], at, &stops[1..], lowest)
}

/// Creates a bucket for each stop. Puts the item into the bucket of the first stop, and the bucket
/// of each stop into the bucket of the next stop. Returns the bucket of the last stop, with the
/// item and all other new buckets in it. If there are no stops, returns the item itself.
pub(crate) fn in_new_buckets<A: Allocator + Clone>(
    alloc: &A,
    ids: &[BucketId],
    at: &Location,
    stops: &[Stop],
    item: Node<A>,
) -> Result<Node<A>, AllocError>
    requires as_many { length ids.now ≡ length stops.now }
    requires forms { All IsStop (stops_data at.now stops.now) }
    requires light { weight_sum (items_of (item ∷ [])) ≤ HEAVIEST_BUCKET }
    ensures { IfOk result (λ node. items_of (node ∷ [])
        ≡ boxes 1 (items_of (item ∷ [])) (with_ids ids.now (stops_data at.now stops.now))) }
{
    let mut node = item;
    for k in 0..stops.len() {
        let mut above = new_bucket(alloc, ids[k], at, stops[k])?;
        above.hold(node);
        node = above;
    }
    Ok(node)
}
