//! Appends the lines of a printed map. Each function fails only if memory runs out.

ghost use Rattle.std.specs.Prelude.{◌≡◌, [], ◌∷◌, ◌++◌, None, OnOk, flat_map, map};
ghost use Rattle.crush_model.specs.ItemRows.{device_row, bucket_row};
ghost use Rattle.crush_nodes.specs.Seen.{leaf_data, header_data, items_of, shadow_data};
ghost use Rattle.crush_print.specs.Lines.{device_line, kind_line, item_line, class_id_line, bucket_head, bucket_choice, bucket_lines};
ghost use Rattle.crush_print.specs.ItemsText.{item_lines};

use crate::weight_form::WeightForm;
use crush_tree::{Bucket, Header, Leaf, Node, ShadowId};
use crush_units::{ItemId, Weight, put_all};
use itoa::Buffer;
use std::alloc::{AllocError, Allocator};

/// Appends all parts, one after the other.
pub(crate) fn push_all(parts: &[&[u8]], out: &mut Vec<u8>) -> Result<(), AllocError>
    ensures { OnOk result (out.new.items ≡ out.old.items ++ flat_map (λ part. part.now) parts.now) }
{
    put_all(out, parts).map_err(|_| AllocError)
}

/// Appends the line `device N NAME`. If the device has a class, ` class CLASS` follows after the
/// name.
#[tactic(auto, unfolding(crate::specs::Lines::device_line))]
pub(crate) fn push_device<A: Allocator>(
    device: &Leaf<A>,
    out: &mut Vec<u8>,
) -> Result<(), AllocError>
    ensures { OnOk result (out.new.items ≡ out.old.items
        ++ device_line (device_row None (leaf_data device.now))) }
{
    let mut buffer = Buffer::new();
    let number = buffer.format(device.id.number()).as_bytes();
    push_all(
        &[
            b"device ".as_slice(),
            number,
            b" ".as_slice(),
            device.name.as_bytes(),
        ],
        out,
    )?;
    match &device.class {
        Some(class) => push_all(
            &[b" class ".as_slice(), class.as_bytes(), b"\n".as_slice()],
            out,
        ),
        None => push_all(&[b"\n".as_slice()], out),
    }
}

/// Appends the line `type N NAME`.
#[tactic(auto, unfolding(crate::specs::Lines::kind_line))]
pub(crate) fn push_kind(number: u16, name: &[u8], out: &mut Vec<u8>) -> Result<(), AllocError>
    ensures { OnOk result (out.new.items ≡ out.old.items ++ kind_line number name.now) }
{
    let mut buffer = Buffer::new();
    let number = buffer.format(number).as_bytes();
    push_all(
        &[
            b"type ".as_slice(),
            number,
            b" ".as_slice(),
            name,
            b"\n".as_slice(),
        ],
        out,
    )
}

/// Appends the line `item NAME weight WEIGHT`, with the weight in the form `form`.
#[tactic(auto, unfolding(crate::specs::Lines::item_line))]
fn push_line(
    form: WeightForm,
    name: &[u8],
    weight: Weight,
    out: &mut Vec<u8>,
) -> Result<(), AllocError>
    ensures { OnOk result (out.new.items ≡ out.old.items ++ item_line form name.now weight) }
{
    let mut room = [0; 16];
    let len = form.text(weight, &mut room);
    push_all(
        &[
            b"\titem ".as_slice(),
            name,
            b" weight ".as_slice(),
            &room[..len],
            b"\n".as_slice(),
        ],
        out,
    )
}

/// Appends the line of an item of a bucket. The line has the weight that the item stores, in the
/// form `form`.
fn push_item<A: Allocator>(
    form: WeightForm,
    node: &Node<A>,
    out: &mut Vec<u8>,
) -> Result<(), AllocError>
    ensures { OnOk result (out.new.items ≡ out.old.items
        ++ item_lines form (items_of (node.now ∷ []))) }
{
    match node {
        Node::Device(leaf) => push_line(form, leaf.name.as_bytes(), leaf.weight, out),
        Node::Bucket(bucket) => {
            let bucket: &Bucket<A> = bucket;
            push_line(form, bucket.header.name.as_bytes(), bucket.weight, out)
        }
    }
}

fn push_items<A: Allocator>(
    form: WeightForm,
    items: &[Node<A>],
    out: &mut Vec<u8>,
) -> Result<(), AllocError>
    ensures { OnOk result (out.new.items ≡ out.old.items ++ item_lines form (items_of items.now)) }
{
    for node in items {
        push_item(form, node, out)?;
    }
    Ok(())
}

/// Appends the line `id -N class CLASS`, with the comment that follows each id of a bucket.
#[tactic(auto, unfolding(crate::specs::Lines::class_id_line))]
fn push_class_id<A: Allocator>(id: &ShadowId<A>, out: &mut Vec<u8>) -> Result<(), AllocError>
    ensures { OnOk result (out.new.items ≡ out.old.items ++ class_id_line (shadow_data id.now)) }
{
    let mut buffer = Buffer::new();
    let number = buffer.format(id.id.distance()).as_bytes();
    push_all(
        &[
            b"\tid -".as_slice(),
            number,
            b" class ".as_slice(),
            id.class.as_bytes(),
            b"\t\t# do not change unnecessarily\n".as_slice(),
        ],
        out,
    )
}

fn push_class_ids<A: Allocator>(ids: &[ShadowId<A>], out: &mut Vec<u8>) -> Result<(), AllocError>
    ensures { OnOk result (out.new.items ≡ out.old.items
        ++ flat_map class_id_line (map shadow_data ids.now)) }
{
    for id in ids {
        push_class_id(id, out)?;
    }
    Ok(())
}

/// Appends the line `TYPE NAME {`, and then the line of the bucket's id.
#[tactic(auto, unfolding(crate::specs::Lines::bucket_head))]
fn push_head<A: Allocator>(
    kind: &[u8],
    header: &Header<A>,
    out: &mut Vec<u8>,
) -> Result<(), AllocError>
    ensures { OnOk result (out.new.items ≡ out.old.items
        ++ bucket_head kind.now header.now.name (ItemId.Bucket header.now.id)) }
{
    push_all(&[kind, b" ".as_slice(), header.name.as_bytes()], out)?;
    let mut buffer = Buffer::new();
    let number = buffer.format(header.id.distance()).as_bytes();
    push_all(
        &[
            b" {\n\tid -".as_slice(),
            number,
            b"\t\t# do not change unnecessarily\n".as_slice(),
        ],
        out,
    )
}

/// Appends three lines of a bucket: its weight (as a comment), its algorithm, and its hash.
#[tactic(auto, unfolding(crate::specs::Lines::bucket_choice))]
fn push_choice<A: Allocator>(
    form: WeightForm,
    header: &Header<A>,
    weight: Weight,
    out: &mut Vec<u8>,
) -> Result<(), AllocError>
    ensures { OnOk result (out.new.items ≡ out.old.items
        ++ bucket_choice form (bucket_row None (header_data header.now)) weight) }
{
    let mut room = [0; 16];
    let len = form.text(weight, &mut room);
    let alg = header.alg.name().as_bytes();
    push_all(
        &[
            b"\t# weight ".as_slice(),
            &room[..len],
            b"\n\talg ".as_slice(),
            alg,
            b"\n\thash 0\t# rjenkins1\n".as_slice(),
        ],
        out,
    )
}

/// Appends all lines of a bucket whose type has the name `kind`, with weights in the form `form`.
pub(crate) fn push_bucket<A: Allocator>(
    form: WeightForm,
    kind: &[u8],
    header: &Header<A>,
    weight: Weight,
    items: &[Node<A>],
    out: &mut Vec<u8>,
) -> Result<(), AllocError>
    ensures { OnOk result (out.new.items ≡ out.old.items
        ++ bucket_lines form kind.now (bucket_row None (header_data header.now)) weight
        (item_lines form (items_of items.now))) }
{
    push_head(kind, header, out)?;
    push_class_ids(header.class_ids.as_slice(), out)?;
    push_choice(form, header, weight, out)?;
    push_items(form, items, out)?;
    out.extend_from_slice(b"}\n")
}
