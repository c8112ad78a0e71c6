//! The edits of a CRUSH map. This crate defines edits as values, and says what each edit does. The
//! crate `crush_apply` applies edits to the nested buckets of a map.
//!
//! An [`Edit`] is the change that one command makes. A [`Location`] says where a command puts an
//! item. A [`Refusal`] says why an edit is refused. A [`Setting`] has the other parts of a map: its
//! types, tunables and rules. The *table* of a map is the model that contracts use for its items: a
//! list with one row for each item. `specs/Edit.antt` defines what each edit does to the table.
//! Read this file first.
#![tactic(auto)]

mod display;
mod edit;
mod keyword;
pub mod law;
mod location;
mod place;
mod refusal;
mod rule;
mod setting;

pub use edit::{Edit, Placing};
pub use keyword::Keyword;
pub use location::{Location, LocationFault, Pair};
pub use refusal::{BatchFault, Done, Dones, EditFault, Refusal};
pub use rule::{Rule, Step};
pub use setting::{KeptRule, KeptStep, Setting, is_reserved};
