//! Walks that change items and the sums of the buckets above them, and tests whether those sums
//! stay in range. A *walk* is a function that goes down, level by level, from a list of items to
//! one item. The crate `crush_tree` calls these functions.
//!
//! A [`Descent`](crush_nodes::descent::Descent) is a *way* down to one item: at each level it
//! returns the item that the walk enters next. In comments, "`descent` leads to the item" means
//! that the way can find the item, that exactly one item has the id, and that each bucket stores
//! the sum of its items' weights.
//!
//! Read [`change`] first: it has the walk that applies a change to one item. Most other walks use
//! this walk.
#![tactic(auto)]

pub mod attach;
pub mod back;
pub mod change;
pub mod classes;
pub mod detach;
pub mod fit;
pub mod grow_buffer;
pub mod item;
pub mod moved;
pub mod rename;
pub mod replace_buffer;
pub mod runs;
pub mod subtree;
pub mod swap;
pub mod swap_fit;
pub mod weights;
