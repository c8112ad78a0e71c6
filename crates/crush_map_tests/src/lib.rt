//! Tests `crush_map`, `crush_builder` and crates that these two use. The module `units` tests
//! `crush_units`, and `edits` tests `crush_edits`. The module `tree` tests forests, `hierarchy`
//! tests a hierarchy and its index, and `map` tests `crush_map` and `crush_builder`.
#![tactic(auto)]

#[cfg(test)]
mod edits;
#[cfg(test)]
mod hierarchy;
#[cfg(test)]
mod map;
#[cfg(test)]
mod tree;
#[cfg(test)]
mod units;
