//! An index of a hierarchy, which is the nested buckets of a map. The index finds the id of the
//! item that has a given name. It also finds the place of an item: the bucket that holds the item,
//! or the list of roots, or the list of unplaced devices. And it says whether an id is used. For
//! all this, the index doesn't search the nodes of the hierarchy.
//!
//! `crush_hierarchy`, which owns the hierarchy, makes each change of names, ids and places also in
//! the [`Index`]. The *answers* of an index are the results of its look-ups. The contracts give the
//! answers as a function of the *table*, which is a list with one row for each item of the
//! hierarchy. The answers don't depend on the order of the entries in the index, on the memory of
//! the index, or on hash values. [`law`] says after which changes of the table the index has to be
//! updated.
#![tactic(auto)]

mod chain;
mod copied;
mod dense_map;
mod digests;
mod hashing;
mod index;
mod key;
pub mod law;
mod names;
mod places;
mod slot;
mod slots;
mod used;
mod word;

pub use hashing::Hashing;
pub use index::{Index, NameMemory, RestoreMemory};
pub use places::Places;
