//! Plans: the edits that lead from one map toward another map, and the differences that remain
//! after these edits.
//!
//! [`find_plan`] finds a [`Plan`]. [`plan_text`] and [`ceph_plan_text`] print it. To find a plan,
//! the search applies edits, one after the other, to a copy of the map. The search adds an edit to
//! the plan only if the edit isn't refused and changes the copy. After the last edit, the remaining
//! differences are computed from the copy. So the edits of a plan can be applied to the map, and
//! the listed differences are those that then remain, however the search has chosen the edits.
#![tactic(auto)]

mod buckets;
mod classes;
mod devices;
mod draft;
mod expressible;
mod goal;
mod identity;
mod item_table;
mod items;
mod law;
mod moves;
mod plan;
mod removals;
mod renames;
mod search;
mod swaps;
mod text;
mod way;
mod weights;

pub use identity::Identity;
pub use law::equal_is_same;
pub use plan::{Plan, find_plan};
pub use text::{ceph_plan_text, plan_text};
