//! Finds the lost changes of a run with several scripts. A change is lost if an operator's script
//! makes the change when only this script runs, and the map after the run doesn't have the change.
//!
//! For each item and each operator, [`lost_changes`] compares three maps: the map before the run,
//! the operator's map, and the map after the run. The operator's map is the map that results if
//! only this operator's script runs. `specs/Cases.antt` says which changes are lost, and
//! `specs/Lines.antt` says which line is printed for an item with lost changes.
#![tactic(auto)]

mod alone;
mod aspects;
mod cases;
mod conflicts;
mod differences;
mod items;
mod law;
mod lines;
mod maps;
mod new_items;
mod values;

pub use alone::map_alone;
pub use conflicts::lost_changes;
pub use law::{count_zero_means_no_loss, no_line_means_no_loss};
