//! Applies edits to the hierarchy of a map, which is the nested buckets of the map with their
//! index. [`apply_edit`] applies one edit. [`apply_batch`] applies all edits of a batch, or none of
//! them. [`culprit`] finds the name that a refusal is about. `crush_map` calls these three
//! functions.
//!
//! `crush_edits` defines what an edit does to the table of a map; read its `specs/Edit.antt` first.
//! `specs/Answered.antt` and `specs/Batched.antt` then say how the result of a call follows from
//! what the edit does to the table.
#![tactic(auto)]

mod add_bucket;
mod addition;
mod apply;
mod batch;
mod classes;
mod culprits;
mod old_stand;
mod place;
mod relocate;
mod remove;
mod rename;
mod reweight;
mod reweight_subtree;
mod route;
mod swap;
mod undo_log;

pub use apply::apply_edit;
pub use batch::apply_batch;
pub use culprits::culprit;
