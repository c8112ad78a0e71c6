//! Runs a job, from the bytes that are read to the bytes that are written.
//!
//! [`run_options`] runs the job that a command line selects, and [`run_job`] runs a job that it
//! reads from a reader. [`run_at_once`] only runs scripts on a map: it reads and writes no text.
//!
//! In a run, `crush_script` parses the job, and `crush_editor` runs its scripts. One of the crates
//! `crush_print`, `crush_since`, `crush_reasons`, `crush_plan` and `crush_json` writes the output.
//! `crush_input` reports how the run ended. `specs/Output.antt` defines what is written, and
//! `specs/Run.antt` defines how a run ends.
#![tactic(auto)]

mod at_once;
mod completed_run;
mod differing;
mod document;
mod ending;
mod finding;
mod gate;
mod in_turn;
mod lost;
mod options;
mod outcome;
mod planned;
mod run;
mod text;
mod worker;
mod workers;

pub use at_once::run_at_once;
pub use crush_input::{
    OldMap, Opens, Output, Request, RunFault, SecondMap, SecondMapFault, Summary, SystemFiles,
    TargetMap,
};
pub use ending::Ending;
pub use gate::{Gate, NoGate};
pub use options::run_options;
pub use run::run_job;
