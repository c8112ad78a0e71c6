//! The hierarchy of a CRUSH map with an index, so that items are found without a search.
//!
//! A [`Hierarchy`] has a *forest* of `crush_tree`: all roots with everything below them, and all
//! devices that no bucket holds. It also has an index of `crush_index`, which finds items by their
//! names and ids. Each method that changes the forest also updates the index if the change requires
//! this, so that the index always matches the forest. `specs/Indexed.antt` defines what this means.
#![tactic(auto)]

mod hierarchy;

pub use crush_index::Hashing;
pub use hierarchy::{Hierarchy, OldName, RemovedItem};
