//! Prints a map: as Ceph's text, and as a tree.
//!
//! [`write_map`] writes the text of a map. `specs/MapText.antt` defines this text. A [`WeightForm`]
//! says how many digits the weights in this text have. [`write_tree`] writes the map's tree as
//! lines for people to read. `specs/TreeText.antt` defines these lines. [`devices`] and [`buckets`]
//! return the ids of a map's devices and buckets in the order of the map's text. [`walk`] returns
//! the items of a map in the order of the map's tree.
#![tactic(auto)]

mod classes;
pub mod columns;
mod lines;
mod order;
mod part;
mod printer;
mod steps;
mod tree;
mod tree_line;
mod weight_form;
pub mod words;

pub use classes::{class_weights, has_class};
pub use crush_items::nodes_in_order;
pub use crush_units::WriteFault;
pub use order::{buckets, devices};
pub use part::{TreePart, walk_part};
pub use printer::{same_tables_print_alike, taken_buckets_are_named, write_map};
pub use steps::{WalkStep, walk, walk_below};
pub use tree::{
    id_column, same_tables_have_one_tree, whole_tree_is_a_part, wider, wider_id, write_tree,
    write_tree_of_class, write_tree_part,
};
pub use weight_form::WeightForm;
