//! Explains faults and refusals to operators, and prints the commands of a history as Ceph's own
//! commands.
//!
//! A *fault* says why a text or a job is rejected, and a *refusal* says why an edit or a batch is
//! refused. In this crate, the *reason* for a fault or a refusal is the sentence with which a
//! message explains it. Most of these sentences are defined in the folder `specs/`: in `Flaws.antt`
//! for faults of a map's text, in `Commands.antt` and `Misfit.antt` for faults of the lines of a
//! script, in `Named.antt` for refused edits, and in `Sentences.antt` for faults and refusals whose
//! sentence depends neither on a text nor on a map.
//!
//! A *call* is an edit or a batch that an operator has sent. An *entry* of a history is a call with
//! its reply. The functions [`made_text`] and [`created_text`] list the calls in which the location
//! of an edit created a bucket. To explain the refused calls of a history, a function takes the map
//! before the first call. Some calls of the history changed the map. The function applies the edits
//! of these calls once more, in the order of the history. In this way, it has the map from just
//! before each refused edit, and can look for the reason in this map.
//!
//! `crush_input` prints reasons with the functions of this crate, for example if `--explain` is
//! given. With `--as-ceph`, `crush_run` uses the function [`ceph_text`] to print the commands that
//! changed the map as Ceph's own commands. The functions of this crate fail only if memory runs
//! out.
#![tactic(auto)]

mod around;
mod ceph;
mod commands;
mod created;
mod edits_left;
mod explained;
mod fault;
mod flaws;
mod locates;
mod made;
mod misfit;
mod named;
mod near;
mod place;
mod ranges;
mod replay;
mod sentences;
mod shown;
mod sums;
mod way;
mod words;
mod written;

pub use ceph::ceph_text;
pub use created::{created_buckets_are_new_stops, created_text};
pub use explained::{explained_job, explained_text};
pub use fault::{fault_line, fault_text, flaw_place_text};
pub use locates::{JobLines, Locates};
pub use made::{count_makings, made_text};
pub use place::Origin;
pub use replay::edits_lead_to_the_map_after;
pub use shown::shown_byte;
pub use written::written_text;
