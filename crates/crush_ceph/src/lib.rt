//! Writes edits as Ceph's own commands.
//!
//! [`ceph_text`] takes a list of edits, and the map before the first edit. It returns a text with
//! the number of commands, and a line for each command. If one command of Ceph can do several edits
//! that follow one another, one line has the command for all of these edits.
#![tactic(auto)]

mod commands;
mod for_ceph;
mod law;
mod steps;
mod text;

pub use for_ceph::redo_edit;
pub use law::{commands_do_the_edits, lines_mean_the_edits};
pub use text::ceph_text;
