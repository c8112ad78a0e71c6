//! The parsed job of a run, or the reason why the run stopped before its scripts ran.

ghost use Rattle.std.specs.Prelude.{◌≡◌, []};

use crate::fault::RunFault;
use crate::origins::Origins;
use crush_script::Job;
use std::alloc::Global;
use thiserror::Error;

/// The parts of a job's text that are stored, so that notes about the text can be written later.
#[derive(Drop)]
pub struct KeptText<'a> {
    /// The bytes of the job. They are stored only with `explain`; otherwise this vector is empty.
    pub bytes: Vec<u8>,
    /// For each script of the job, the numbers of the lines of the job that have the script's
    /// edits, one number for each edit. The first line of the job has the number 1.
    pub lines: Vec<Vec<u32>>,
    /// The files from which the lines of the job come.
    pub origins: Origins<'a>,
    /// The notes on the map's text: a warning if the text has carriage returns and no line feed,
    /// and a line for each bucket whose weight in the text isn't the sum of the weights of the
    /// devices below the bucket. Without `explain` this vector is empty.
    pub weights: Vec<u8>,
}

/// A parsed job, and the stored parts of its text.
#[derive(Drop)]
pub struct ParsedJob<'a> {
    /// The job, but without the line numbers of its edits. These numbers are stored in `text`.
    pub job: Job,
    pub text: KeptText<'a>,
}

/// Why a run stopped before its scripts ran. `{}` prints the fault, without the notes.
#[derive(Debug, Drop, Error)]
#[error("{fault}")]
pub struct Aborted {
    pub fault: RunFault,
    /// The lines that follow the first line on standard error.
    pub notes: Vec<u8>,
}

impl Aborted {
    pub(crate) fn without_notes(alloc: Global, fault: RunFault) -> Aborted
        ensures fault { result.fault ≡ fault }
        ensures quiet { result.notes.items ≡ [] }
    {
        Aborted {
            fault,
            notes: Vec::new(alloc),
        }
    }
}
