//! Finds what differs between two maps if their items are matched by their names instead of their
//! ids.

mod aside;
mod law;
mod lines;
mod since;
mod staying;

pub use aside::{Counts, count_aside, push_aside};
pub use law::{nothing_changes_by_names_since_itself, nothing_stays_where_maps_are_alike};
pub use lines::push_stays;
pub use since::{is_changed_by_name, write_since_by_name, write_since_by_name_part};
pub use staying::{place_in, stays, stays_part};
