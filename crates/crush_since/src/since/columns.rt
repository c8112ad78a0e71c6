//! Compares single columns of an item between the two maps.

pub(crate) use crush_compare::same_parent;
pub use crush_compare::{same_algs, same_class_ids, same_text as same_class};
