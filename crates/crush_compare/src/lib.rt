//! Matches the items of two maps, and finds what the two maps say differently about each item.
#![tactic(auto)]

mod below;
mod by_id;
mod by_name;
mod columns;
mod comparison;
mod difference;
mod identity;
mod law;
mod part;

pub use by_id::Pair;
pub use columns::{same_algs, same_class_ids, same_parent, same_text};
pub use comparison::Comparison;
pub use difference::{Columns, Difference, Report, are_near, same_weight};
pub use identity::{Devices, Identity};
pub use law::{
    a_column_differs_of_other_items, a_run_is_a_part, pairs_by_ids_have_each_item_once,
    pairs_differ_as_ids_do, pairs_have_each_id_once, pairs_have_the_keys_of_all_ids,
    pairs_of_a_part_are_those_in_the_part, the_steps_of_an_item_are_a_part,
    two_lists_have_one_list_of_pairs,
};
pub use part::is_in;
