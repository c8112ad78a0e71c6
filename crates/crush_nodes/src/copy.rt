//! Copies of items with everything below them.
//!
//! [`copy_items`] calls itself for each bucket, so calls nest as deep as buckets nest, and each of
//! these nested calls needs stack. So the other work of a call is in functions that are
//! `inline(never)`, which keeps their variables out of the nested frames.

ghost use Rattle.std.specs.Prelude.{◌≡◌, ℕ, ◌<◌, ◌+◌, ◌∷◌, [], map, IfOk, OnOk, vec_len, vec_capacity};
ghost use Rattle.crush_model.specs.Items.{bucket, device, none};
ghost use Rattle.crush_nodes.specs.Copies.{IsPushed};
ghost use Rattle.crush_nodes.specs.Ops.{without_capacity};
ghost use Rattle.crush_nodes.specs.Room.{bucket_room, count};
ghost use Rattle.crush_nodes.specs.Seen.{shadow_data, header_data, items_of, leaf_data};

use crate::node::{Bucket, Header, Leaf, Node, ShadowId};
use crush_units::Weight;
use std::alloc::{AllocError, Allocator};

/// Copies items with everything below them, in the same order. The memory comes from clones of
/// `alloc`. The copied lists have no memory for further items. Fails with `AllocError` if memory
/// can't be allocated. The cost is linear in the number of items at all depths.
pub fn copy_items<A: Allocator + Clone>(
    alloc: &A,
    items: &[Node<A>],
) -> Result<Vec<Node<A>, A>, AllocError>
    ensures same { IfOk result (λ copy. without_capacity (items_of copy.items)
        ≡ without_capacity (items_of items.now)) }
    ensures full { IfOk result (λ copy. vec_capacity copy ≡ count (items_of copy.items)) }
    ensures rooms { IfOk result (λ copy. (b : ℕ) → bucket_room b (items_of copy.items) ≡ 0) }
{
    let mut copies = Vec::with_capacity(alloc.clone()?, items.len())?;
    for node in items {
        match node {
            Node::Device(leaf) => push_leaf(&mut copies, alloc, leaf)?,
            Node::Bucket(bucket) => {
                let bucket: &Bucket<A> = bucket;
                let below = copy_items(alloc, bucket.items.as_slice())?;
                push_bucket(&mut copies, alloc, bucket, below)?;
            }
        }
    }
    Ok(copies)
}

/// Appends a copy of a device to `copies`, which must have room for it. Fails if memory can't be
/// allocated.
#[inline(never)]
fn push_leaf<A: Allocator + Clone>(
    copies: &mut Vec<Node<A>, A>,
    alloc: &A,
    leaf: &Leaf<A>,
) -> Result<(), AllocError>
    requires { vec_len copies.old < vec_capacity copies.old }
    ensures pushed { OnOk result
        (IsPushed copies.old.items copies.new.items (device (leaf_data leaf.now) none)) }
    ensures len { OnOk result (vec_len copies.new ≡ vec_len copies.old + 1) }
    ensures capacity { OnOk result (vec_capacity copies.new ≡ vec_capacity copies.old) }
{
    let leaf = copy_leaf(alloc, leaf)?;
    copies.push_reserved(Node::Device(leaf));
    Ok(())
}

/// Appends a copy of a bucket to `copies`, which must have room for it. `below` has the copies of
/// the bucket's items. Fails if memory can't be allocated.
#[inline(never)]
fn push_bucket<A: Allocator + Clone>(
    copies: &mut Vec<Node<A>, A>,
    alloc: &A,
    from: &Bucket<A>,
    below: Vec<Node<A>, A>,
) -> Result<(), AllocError>
    requires { vec_len copies.old < vec_capacity copies.old }
    ensures pushed { OnOk result (IsPushed copies.old.items copies.new.items
        (bucket from.now.header from.now.weight (vec_capacity below) (items_of below.items) none)) }
    ensures len { OnOk result (vec_len copies.new ≡ vec_len copies.old + 1) }
    ensures capacity { OnOk result (vec_capacity copies.new ≡ vec_capacity copies.old) }
{
    let header = copy_header(alloc, &from.header)?;
    let copy = bucket_of_parts(alloc, header, from.weight, below)?;
    copies.push_reserved(copy);
    Ok(())
}

fn bucket_of_parts<A: Allocator + Clone>(
    alloc: &A,
    header: Header<A>,
    weight: Weight,
    items: Vec<Node<A>, A>,
) -> Result<Node<A>, AllocError>
    ensures { IfOk result (λ node. items_of (node ∷ [])
        ≡ bucket (header_data header) weight (vec_capacity items) (items_of items.items) none) }
{
    let bucket = Bucket {
        header,
        weight,
        items,
    };
    Ok(Node::Bucket(Box::new(alloc.clone()?, bucket)?))
}

fn copy_leaf<A: Allocator + Clone>(alloc: &A, leaf: &Leaf<A>) -> Result<Leaf<A>, AllocError>
    ensures { IfOk result (λ copy. leaf_data copy ≡ leaf_data leaf.now) }
{
    let name = leaf.name.try_copy(alloc.clone()?)?;
    let class = match &leaf.class {
        Some(class) => Some(class.try_copy(alloc.clone()?)?),
        None => None,
    };
    Ok(Leaf {
        id: leaf.id,
        name,
        weight: leaf.weight,
        class,
    })
}

fn copy_header<A: Allocator + Clone>(alloc: &A, header: &Header<A>) -> Result<Header<A>, AllocError>
    ensures { IfOk result (λ copy. header_data copy ≡ header_data header.now) }
{
    let name = header.name.try_copy(alloc.clone()?)?;
    let class_ids = copy_shadow_ids(alloc, header.class_ids.as_slice())?;
    Ok(Header {
        id: header.id,
        kind: header.kind,
        name,
        alg: header.alg,
        class_ids,
    })
}

fn copy_shadow_ids<A: Allocator + Clone>(
    alloc: &A,
    class_ids: &[ShadowId<A>],
) -> Result<Vec<ShadowId<A>, A>, AllocError>
    ensures { IfOk result
        (λ copy. map shadow_data copy.items ≡ map shadow_data class_ids.now) }
{
    let mut copies = Vec::with_capacity(alloc.clone()?, class_ids.len())?;
    for class_id in class_ids {
        let class = class_id.class.try_copy(alloc.clone()?)?;
        copies.push_reserved(ShadowId {
            id: class_id.id,
            class,
        });
    }
    Ok(copies)
}
