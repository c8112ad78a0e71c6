//! Finds and writes what has changed from one map to another map.
//!
//! [`write_since`] writes one line for each item that differs, and [`write_changes`] writes the
//! items that differ as a tree or as a part of a tree. [`write_changes_of_class`] writes such a
//! tree for the devices of one class. These three functions match the items of the two maps by
//! their ids, by which CRUSH itself knows them. [`write_since_by_name`] matches items by their
//! names. [`stays`] lists what differs between a map and a wanted map, and [`count_aside`] counts
//! the buckets whose ids differ between the two maps. A function that writes a text first builds
//! the whole text in memory, and then writes it. A call fails with an `AllocError` only if memory
//! runs out.
#![tactic(auto)]

mod changes;
mod names;
mod since;

pub use changes::{
    all_changes_are_a_part, no_row_changes_since_itself, write_changes, write_changes_of_class,
};
pub use names::{
    Counts, count_aside, is_changed_by_name, nothing_changes_by_names_since_itself,
    nothing_stays_where_maps_are_alike, place_in, push_aside, push_stays, stays, stays_part,
    write_since_by_name, write_since_by_name_part,
};
pub use since::{
    ClassChange, RuleChange, Seen, Tally, bucket_named, class_bytes, class_changes, count_changes,
    is_changed, is_part_changed, no_item_is_told_where_rows_are_equal,
    nothing_changes_since_itself, rule_changes, same_algs, same_class, same_class_ids, same_kinds,
    same_rules, same_tunables, since_part_text, type_bytes, write_since,
};
