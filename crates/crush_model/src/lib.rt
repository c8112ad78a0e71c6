//! The *table*: the model that contracts use for a map's items. A table is a flat list of rows,
//! with one row for each item (a device or a bucket), and without stored sums. Contracts describe a
//! change of the items by what the change does to the table. In the code, the items are a *forest*
//! of nested buckets and devices, and the forest *represents* a table.
//!
//! This crate has no code that does anything at run time. `specs/` has the definitions. Read the
//! definitions in `Table` and `Lawful` first. [`law`] has the laws. In `proofs/`, the modules
//! `Unlawful`, `TooMany` and `TooHeavy` have examples of tables and rows, each of which breaks
//! exactly one of the conditions of a lawful table.
#![tactic(auto)]

pub mod law;
