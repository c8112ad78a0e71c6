//! A CRUSH map: its setting (types, tunables and rules), its hierarchy of buckets and devices, and
//! the edits of `ceph osd crush`.
//!
//! `crush_text` reads a [`CrushMap`] from a text, `crush_print` prints a map, and `crush_editor`
//! lets several operators edit the same map at the same time.
#![tactic(auto)]

mod apply;
mod map;

pub use crush_edits::{
    BatchFault, Done, Dones, Edit, EditFault, KeptRule, KeptStep, Location, LocationFault, Pair,
    Placing, Refusal, Rule, Setting, Step, is_reserved,
};
pub use crush_hierarchy::Hashing;
pub use crush_tree::Counts;
pub use map::CrushMap;
