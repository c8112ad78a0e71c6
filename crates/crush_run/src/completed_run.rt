//! The results of a job's scripts, after all of them have run.

use crush_history::{Entry, Script};
use crush_input::{KeptText, LostChanges};
use crush_map::CrushMap;
use crush_plan::Plan;
use crush_text::Adjusted;
use std::alloc::Global;

/// The results of a run's scripts. The checks, the output and the notes of the run are made from
/// these results.
#[derive(Drop)]
pub(crate) struct CompletedRun<'a> {
    /// The number of bucket weights in the map's text that weren't the sum of the weights of the
    /// devices below the bucket, and were replaced by this sum.
    pub(crate) adjusted: Adjusted,
    /// A copy of the map before the scripts, if the run needs it.
    pub(crate) opening: &'a Option<CrushMap<Global>>,
    /// The map after the scripts.
    pub(crate) map: &'a CrushMap<Global>,
    /// The changes of operators that the run has lost. If the run doesn't look for lost changes,
    /// there are none.
    pub(crate) lost: &'a LostChanges,
    /// The plan that leads toward the wanted map. If no map is wanted, the plan is empty.
    pub(crate) plan: &'a Plan,
    /// The scripts with their names, but without their calls, which are in `entries`.
    pub(crate) scripts: &'a [Script],
    /// The entries of the history.
    pub(crate) entries: &'a [Entry],
    /// The part of the job's text that the notes need.
    pub(crate) text: &'a KeptText<'a>,
}
