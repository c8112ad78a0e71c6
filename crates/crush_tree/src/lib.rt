//! A [`Forest`]: the devices and buckets of a CRUSH map, as nested buckets in memory.
//!
//! Most methods search the forest for the item that they read or change. A method whose name ends
//! in `_by` doesn't search: it takes a [`Guide`], which returns the place of each item.
//! `specs/Required.antt` defines what callers must ensure, and `specs/Changed.antt` defines what
//! the methods change. The crate `crush_hierarchy` combines a forest with an index of its items.
//! The index implements [`Guide`].
#![tactic(auto)]

mod forest;

pub use crush_nodes::guide::{Found, Guide, Position};
pub use crush_nodes::search::counts_in;
pub use crush_nodes::{Bucket, Counts, Header, Leaf, Node, Place, ShadowId, View};
pub use crush_walks::runs::{WeightRun, weight_runs};
pub use crush_walks::subtree::SubtreeDelta;
pub use forest::Forest;
pub use forest::stand::Stand;
