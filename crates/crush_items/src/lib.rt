//! Lists the items of a map, in one walk of the map's tree.
//!
//! [`Items::of`] returns all items of a map in the order of its tree, each with its depth, its
//! parent and its parent's name. The other functions refer to an item by its position in this list,
//! counted from 0. [`Items::seen`] and [`Items::class_ids`] return what the map says about the item
//! at a position, and [`Items::run`] returns the positions of this item and of all items below it.
//! [`Items::by_id`] sorts the positions by the ids of their items, and [`ById::find`] then finds
//! the position of an item by its id.
//!
//! No function here searches the map itself or climbs from an item to its root. The list is made in
//! one walk, which visits each item once, even if buckets are nested deeply.
#![tactic(auto)]

mod by_id;
mod items;
mod order;
mod run;
mod seen;

pub use by_id::{ById, Place};
pub use items::{Item, Items};
pub use order::nodes_in_order;
pub use run::Run;
pub use seen::Seen;
