//! Calls on a map, the replies to them, and the history of calls and replies.
//!
//! A [`Call`] is one edit or one batch that an operator sends, and a [`Reply`] is the result of a
//! call. An [`Entry`] of a history has a call, the reply to the call, and the operator's index.
//! [`make_call`] makes one call on a map, and [`history_text`] prints a history. `crush_script`
//! parses calls. With `crush_editor`, several operators send calls for the same map at the same
//! time, and the editor makes these calls one after the other.
#![tactic(auto)]

mod call;
mod ceph;
mod device;
mod display;
mod entry;
mod history;
mod law;
mod making;
mod push;
mod put;
mod refused;
mod script;

pub use call::{Call, Edits, Reply, copy_edits};
pub use ceph::{has_dash, push_ceph_heading, push_ceph_line};
pub use device::device_named;
pub use display::Line;
pub use entry::{Entry, Slip, count_changes, is_change};
pub use history::{history_text, operator_name};
pub use law::{equal_is_same, runs_keep_lawful, same_count_is_same_table, turns_are_history};
pub use making::make_call;
pub use push::{push_edit, push_entry};
pub use put::write_entry;
pub use refused::{count_refused, is_refused, refused_text};
pub use script::Script;
