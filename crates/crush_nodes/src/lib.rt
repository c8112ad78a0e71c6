//! The items of the hierarchy, which are devices and buckets, and functions that read, test or copy
//! items together with everything below them.
//!
//! Read [`node`] first: it has the types. A *walk* is a function that goes down, level by level,
//! from a list of items to one item. At each level a [`descent`] tells the walk which item to
//! enter. A [`guide`] is an index that knows at which place each item is, and [`path`] has the
//! descent that is found with a guide. The crate `crush_walks` has the walks that change items, and
//! `crush_tree` has the forest, which is all items of a map.
#![tactic(auto)]

pub mod apart;
pub mod attachable;
pub mod child;
pub mod classed;
pub mod copy;
pub mod descent;
pub mod form;
pub mod guide;
pub mod hold;
pub mod node;
pub mod path;
pub mod place;
pub mod search;
pub mod stored;
pub mod sums;
pub mod view;

pub use node::{Bucket, Header, Leaf, Node, ShadowId};
pub use place::Place;
pub use view::{Counts, View};
