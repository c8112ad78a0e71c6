//! The reasons why a run fails.

use crush_script::JobFault;
use crush_text::TextFault;
use crush_units::WriteFault;
use std::alloc::{AllocError, AllocFailed};
use thiserror::Error;

/// The option that names a second map, which is a map other than the job's map.
#[derive(Clone, Copy, Debug, PartialEq, Eq)]
pub enum SecondMap {
    /// `--since`: the changes since this map are printed.
    Since,
    /// `--to`: the commands that lead to this map are printed.
    To,
}

/// Why the map of `--since` or `--to` can't be used.
#[derive(Clone, Copy, Debug, PartialEq, Eq, Error)]
pub enum SecondMapFault {
    /// The map's text has this fault. The place of the fault is an index in the bytes of the file,
    /// from 0. The fault is never that memory ran out.
    #[error("{0}")]
    Text(TextFault),
    /// The map's file has more than 16,777,216 bytes.
    #[error("TooLong")]
    TooLong,
    /// The map's file couldn't be opened or read.
    #[error("read fault")]
    Read,
}

/// Why a run failed. Nothing was written, except in the case of [`RunFault::Write`].
#[derive(Clone, Copy, Debug, PartialEq, Eq, Error)]
pub enum RunFault {
    /// The bytes that were read aren't a job. The `JobFault` never says that memory ran out,
    /// because the fault of the run is then [`RunFault::Memory`].
    #[error("{0}")]
    Job(JobFault),
    /// Standard input or a file of the job couldn't be opened or read.
    #[error("read fault")]
    Read,
    /// Writing the output failed. A prefix of the output was written, which may be empty.
    #[error("write fault")]
    Write,
    /// Memory ran out. `run_at_once` of `crush_run` also fails with this fault if its scripts have
    /// more calls than a history can have.
    #[error("out of memory")]
    Memory,
    /// A thread for an operator couldn't be started.
    #[error("no thread")]
    Thread,
    /// The run is strict, and this many of its calls were refused.
    #[error("refused {0}")]
    Refused(u32),
    /// The run has `--no-make`, and this many of its calls created more buckets than they have
    /// `add-bucket` commands.
    #[error("made {0}")]
    Made(usize),
    /// The run looks for lost changes, and this many items have a lost change. The run of a command
    /// line that begins with `apply` looks for them if its job has at least two scripts, and the
    /// command line doesn't have `--last-wins`.
    #[error("conflicts {0}")]
    Conflicts(usize),
    /// The bytes of the job are a job, but the map of `--since` or `--to` can't be used: its file
    /// couldn't be read, is too long, or isn't the text of a map.
    #[error("another map: {1}")]
    SecondMap(SecondMap, SecondMapFault),
    /// The run is strict, and this many differences remain after the commands of the plan.
    #[error("differs {0}")]
    Differs(usize),
    /// `--under` names no item of the map after the scripts.
    #[error("no item")]
    NoItem,
    /// `--down-to` names no type of the map.
    #[error("no type")]
    NoType,
    /// `--class` names a class that no device of the map after the scripts has. For a tree of what
    /// has changed, no device of the old map has the class either.
    #[error("no class")]
    NoClass,
}

impl<T: Drop> From<AllocFailed<T>> for RunFault {
    ghost use Rattle.crush_input.specs.declared.fault.RunFault.TheVariants.{Memory};
    ghost use Rattle.std.specs.Prelude.{◌≡◌};

    ghost from_gives = { λ _ fault. fault ≡ Memory };

    fn from(_failed: AllocFailed<T>) -> RunFault {
        RunFault::Memory
    }
}

impl From<AllocError> for RunFault {
    ghost use Rattle.crush_input.specs.declared.fault.RunFault.TheVariants.{Memory};
    ghost use Rattle.std.specs.Prelude.{◌≡◌};

    ghost from_gives = { λ _ fault. fault ≡ Memory };

    fn from(_error: AllocError) -> RunFault {
        RunFault::Memory
    }
}

impl From<WriteFault> for RunFault {
    ghost use Rattle.crush_input.specs.Faults.{of_write};
    ghost use Rattle.std.specs.Prelude.{◌≡◌};

    ghost from_gives = { λ fault made. made ≡ of_write fault };

    fn from(fault: WriteFault) -> RunFault {
        match fault {
            WriteFault::Write => RunFault::Write,
            WriteFault::OutOfMemory => RunFault::Memory,
        }
    }
}
