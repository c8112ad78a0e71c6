//! How a run ended, and the notes that are printed on standard error after its first line.

ghost use Rattle.std.specs.Prelude.{◌≡◌, [], Err};

use crush_input::{Aborted, RunFault, Summary};
use std::alloc::Global;

/// The result of a run, and its notes.
#[derive(Debug, Drop)]
pub struct Ending {
    /// What the run did, or why it failed.
    pub outcome: Result<Summary, RunFault>,
    /// The lines that are printed on standard error after the first line. With `explain`, they
    /// explain a fault of the job's bytes or of another map, a file that can't be read, and each
    /// refused call. With `explain`, they also warn of a map's text that has carriage returns and
    /// no line feed, and list each bucket whose weight in the map's text isn't the sum of the
    /// weights of the devices below the bucket. If refused calls, created buckets, lost changes or
    /// differences that remain after the plan ended the run, the lines list them, even without
    /// `explain`. If refused calls or created buckets ended the run, the lines also list the lost
    /// changes. If refused calls ended the run, and the run has `no_make`, the lines also list the
    /// calls that created more buckets than they have `add-bucket` commands. In all other cases
    /// there are no lines.
    pub notes: Vec<u8>,
}

impl Ending {
    /// Returns the ending of a run that failed with this fault, without notes.
    pub(crate) fn without_notes(alloc: Global, fault: RunFault) -> Ending
        ensures outcome { result.outcome ≡ Err fault }
        ensures quiet { result.notes.items ≡ [] }
    {
        Ending {
            outcome: Err(fault),
            notes: Vec::new(alloc),
        }
    }

    /// Returns the ending of a run that stopped before its scripts ran.
    pub(crate) fn of_aborted(aborted: Aborted) -> Ending
        ensures outcome { result.outcome ≡ Err aborted.fault }
        ensures notes { result.notes.items ≡ aborted.notes.items }
    {
        let Aborted { fault, notes } = aborted;
        Ending {
            outcome: Err(fault),
            notes,
        }
    }
}
