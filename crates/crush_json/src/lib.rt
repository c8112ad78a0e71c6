//! Writes JSON documents. A document contains a map, the tree of a map, what has changed from one
//! map to another, or a plan. Each document can also contain a history.
//!
//! A document is one JSON value on one line. The members of each object are sorted by name. For
//! data that Ceph's tools also print as JSON, the members have the same names as there. The page
//! `docs/user/json.md` describes each document, and `specs/` defines its value. A weight is a whole
//! number of units, of which 65536 are one TiB. The exception is a weight in a command of a plan,
//! which is a decimal number of TiB. The text of a document is built in memory, token by token,
//! before any byte of it is written.
#![tactic(auto)]

mod buckets;
mod changes;
mod class_changes;
mod class_ids;
mod commands;
mod devices;
mod document;
mod history;
mod items;
mod kinds;
mod map;
mod rule_changes;
mod rules;
mod since;
mod stays;
mod steps;
mod tree;
mod tunables;
mod write;

pub use crush_units::WriteFault;
pub use history::History;
pub use write::plan::write_plan_document;
pub use write::since::write_since_document;
pub use write::tree::write_tree_document;
pub use write::write_map_document;
