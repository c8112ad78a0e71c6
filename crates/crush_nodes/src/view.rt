//! The results of reading a forest: a view of one item without the items below it, and counts.

ghost use Rattle.std.specs.Prelude.{◌≡◌};

use crate::node::{Bucket, Leaf, Node};
use crush_units::{Alg, BucketId, ItemId, TypeId, Weight};
use std::alloc::Allocator;

/// An item of a forest with its parent, but without the items below it.
#[derive(Clone, Copy, Debug)]
pub struct View<'a> {
    pub id: ItemId,
    /// The number of the item's type, which is 0 for a device.
    pub kind: TypeId,
    pub name: &'a str,
    /// The weight that the item stores. A bucket of a forest stores the sum of the weights of all
    /// devices below it.
    pub weight: Weight,
    /// The bucket that holds the item, or `None` for a root and for an unplaced device.
    pub parent: Option<BucketId>,
    /// A device's class, or `None` if the device has no class. It is `None` for a bucket.
    pub class: Option<&'a str>,
    /// A bucket's algorithm, or `None` for a device.
    pub alg: Option<Alg>,
}

/// How many devices and how many buckets there are.
#[derive(Clone, Copy, Debug, PartialEq, Eq)]
pub struct Counts {
    pub devices: u32,
    pub buckets: u32,
}

impl<'a> View<'a> {
    ghost use Rattle.std.specs.Prelude.{◌∷◌, [], Some};
    ghost use Rattle.crush_nodes.specs.Search.{first_view};
    ghost use Rattle.crush_nodes.specs.Seen.{items_of, leaf_data};
    ghost use Rattle.crush_nodes.specs.Views.{device_view, bucket_view};
    ghost use Rattle.crush_nodes.specs.SeenView.{view_data};

    /// Creates the view of a device that has this parent.
    pub fn device<A: Allocator>(leaf: &'a Leaf<A>, parent: Option<BucketId>) -> View<'a>
        ensures { view_data result ≡ device_view parent (leaf_data leaf.now) }
    {
        let class = match &leaf.class {
            Some(class) => Some(class.as_str()),
            None => None,
        };
        View {
            id: ItemId::Device(leaf.id),
            kind: TypeId::new(0),
            name: leaf.name.as_str(),
            weight: leaf.weight,
            parent,
            class,
            alg: None,
        }
    }

    /// Creates the view of a bucket that has this parent.
    pub fn bucket<A: Allocator>(bucket: &'a Bucket<A>, parent: Option<BucketId>) -> View<'a>
        ensures { view_data result ≡ bucket_view parent bucket.now.header bucket.now.weight }
    {
        View {
            id: ItemId::Bucket(bucket.header.id),
            kind: bucket.header.kind,
            name: bucket.header.name.as_str(),
            weight: bucket.weight,
            parent,
            class: None,
            alg: Some(bucket.header.alg),
        }
    }

    /// Creates the view of an item that has this parent.
    pub fn item<A: Allocator>(node: &'a Node<A>, parent: Option<BucketId>) -> View<'a>
        ensures { Some (view_data result) ≡ first_view parent (items_of (node.now ∷ [])) }
    {
        match node {
            Node::Device(leaf) => View::device(leaf, parent),
            Node::Bucket(bucket) => {
                let bucket: &'a Bucket<A> = bucket;
                View::bucket(bucket, parent)
            }
        }
    }
}
