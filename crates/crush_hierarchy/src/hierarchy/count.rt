//! Arithmetic on counts and weights. With these functions, a change of the hierarchy updates the
//! counts (the numbers of devices and buckets) and the total weight that the hierarchy stores. Only
//! the items that the change adds or removes are counted.

ghost use Rattle.std.specs.Prelude.{◌≡◌, ◌≤◌, ◌+◌, ◌∷◌, []};
ghost use Rattle.crush_units.specs.declared.limits.TheConstants.{HEAVIEST_MAP};
ghost use Rattle.crush_tree.specs.Seen.{items_of};
ghost use Rattle.crush_hierarchy.specs.Counted.{AddUp, AreAtMost, AreCountsIn, AreFew, AreFewTogether};

use crush_tree::{Bucket, Counts, Node, counts_in};
use crush_units::Weight;
use std::alloc::Allocator;

pub(super) fn counts_of<A: Allocator>(node: &Node<A>) -> Counts
    requires { AreFew (items_of (node.now ∷ [])) }
    ensures { AreCountsIn (items_of (node.now ∷ [])) result }
{
    match node {
        Node::Device(_) => Counts {
            devices: 1,
            buckets: 0,
        },
        Node::Bucket(bucket) => {
            let bucket: &Bucket<A> = bucket;
            let below = counts_in(bucket.items.as_slice());
            Counts {
                devices: below.devices,
                buckets: below.buckets + 1,
            }
        }
    }
}

pub(super) fn with_counts(counts: Counts, come: Counts) -> Counts
    requires { AreFewTogether counts come }
    ensures { AddUp counts come result }
{
    Counts {
        devices: counts.devices + come.devices,
        buckets: counts.buckets + come.buckets,
    }
}

pub(super) fn without_counts(counts: Counts, gone: Counts) -> Counts
    requires { AreAtMost gone counts }
    ensures { AddUp result gone counts }
{
    Counts {
        devices: counts.devices - gone.devices,
        buckets: counts.buckets - gone.buckets,
    }
}

pub(super) fn with_units(total: u64, come: Weight) -> u64
    requires { total ≤ HEAVIEST_MAP }
    ensures { result ≡ total + come }
{
    total + u64::from(come.units())
}

pub(super) fn without_units(total: u64, gone: Weight) -> u64
    requires { gone ≤ total }
    ensures { result + gone ≡ total }
{
    total - u64::from(gone.units())
}
