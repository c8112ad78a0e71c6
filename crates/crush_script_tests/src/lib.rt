//! Tests how the texts of maps and jobs are read, and everything that is printed about maps. The
//! tests call only public functions.
//!
//! The module `script` tests `crush_text`, `crush_print`, `crush_history`, `crush_script` and
//! `crush_units`. The module `view` tests `crush_print`, `crush_items`, `crush_compare` and
//! `crush_since`. The module `plan` tests `crush_plan`, and it tests `crush_since` for maps whose
//! items are matched by their names. The module `json` tests `crush_json`, `reasons` tests
//! `crush_reasons`, `ceph` tests `crush_ceph`, and `conflicts` tests `crush_conflicts`.
//!
//! A test calls `drop` for each map, job and call that it owns. So the proofs about freeing the
//! parts of these values are needed in only one place.
#![tactic(auto)]

#[cfg(test)]
mod ceph;
#[cfg(test)]
mod conflicts;
#[cfg(test)]
mod histories;
#[cfg(test)]
mod json;
#[cfg(test)]
mod maps;
#[cfg(test)]
mod plan;
#[cfg(test)]
mod reasons;
#[cfg(test)]
mod script;
#[cfg(test)]
mod texts;
#[cfg(test)]
mod view;
