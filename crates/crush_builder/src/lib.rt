//! [`MapBuilder`] builds a map from the statements of a map's text, with one call for each
//! statement or part of a statement. A call fails with a [`BuildFault`] or a [`RuleFault`] if the
//! statement can't be added to the map. `crush_text` parses the text and makes the calls.
#![tactic(auto)]

mod builder;
mod fault;

pub use builder::MapBuilder;
pub use fault::{BuildFault, RuleFault, RulePart};
