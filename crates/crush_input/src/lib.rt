//! Reads the input of a run, and writes the run's report and notes. The crate uses no editor and no
//! threads.
//!
//! [`read_whole`] reads the job that a command line names, and [`output_of`] reads the map of
//! `--since` or `--to`, if the output needs it. A [`RunFault`] says why a run failed. [`report`]
//! writes to standard error and returns the status. The definitions are in `specs/Input.antt`,
//! `specs/Notes.antt` and `specs/Report.antt`.
#![tactic(auto)]

mod aborted;
mod ending;
mod fault;
mod files;
mod input;
mod job;
mod joined;
mod law;
mod lost;
mod made;
mod notes;
mod origins;
mod output;
mod second_map;
mod shown;
mod summary;
mod verb_maps;
mod words;

pub use aborted::{Aborted, KeptText, ParsedJob};
pub use ending::{ReportOutcome, report, report_options};
pub use fault::{RunFault, SecondMap, SecondMapFault};
pub use files::{Opens, SystemFiles};
pub use input::read_bytes;
pub use job::{job_of, read_whole};
pub use law::maps_of_runs_are_verb_maps;
pub use lost::{LostChanges, check_lost, lost_notes, notes_with_lost, notes_with_made_and_lost};
pub use made::{check_made, made_notes};
pub use notes::{History, check_strict, file_notes, history_notes};
pub use origins::Origins;
pub use output::{OldMap, OldTree, Output, Request, TargetMap, output_of};
pub use summary::Summary;
pub use verb_maps::{
    VerbMap, VerbMapFault, VerbMapRefusal, check_verb_map, may_precede_maps, read_verb_map,
    report_verb_map,
};
pub use words::Words;
