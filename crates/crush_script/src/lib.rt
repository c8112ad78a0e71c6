//! Reads jobs. A job is the text of a map, followed by sections. Each section has the script of one
//! operator. A section begins with a line `%operator NAME`. Each further line of the section has a
//! command, begins or ends a batch of commands, or has no words.
//!
//! [`read_job`] reads a whole job, and reads the map's text with `crush_text`. If the bytes aren't
//! a job, [`read_job`] fails with their first fault, a [`JobFault`]. If memory runs out, it can
//! report this instead. The crate `crush_run` runs jobs. The file `specs/Job.antt` defines what a
//! job is.
#![tactic(auto)]

mod command;
mod fault;
mod job;
mod keyword;
mod law;
mod line;
mod sections;
mod word;

pub use fault::{BadLine, Due, JobFault, Misfit};
pub use job::{Job, read_job};
pub use keyword::Form;
pub use law::{misfits_are_first, placed_is_read, printed_is_read, scripts_are_read_back};
pub use line::{PlacedWord, line_feeds, map_part, placed_word};
