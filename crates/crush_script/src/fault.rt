//! The faults of a job, and the faults of its lines.

ghost use Rattle.std.specs.Prelude.{◌≡◌, Some};
ghost use Rattle.crush_script.specs.Fault.{due_text};

use crate::command::LineFault;
use crush_text::{TextFault, TextFaultKind};
use std::alloc::AllocFailed;
use std::fmt::{self, Display, Formatter};
use thiserror::Error;

/// What the form of a line requires at a place.
#[derive(Clone, Copy, Debug, PartialEq, Eq)]
pub enum Due {
    /// The name of a device: `osd.N`, where N is a number from 0 to 2147483647 without leading
    /// zeros.
    Device,
    /// A weight of at most 4294967295 units. A weight of 1.0 has 65536 units.
    Weight,
    /// A name: 1 to 255 bytes, each of which is a letter, a digit, `-`, `_` or `.`.
    Name,
    /// A pair `TYPE=NAME`, whose two parts are names, or the end of the line.
    Pair,
    /// The end of the line, because the line already has a location with 16 pairs. No location may
    /// have more pairs.
    NoMorePairs,
    /// The word `at`, or the end of the line.
    At,
    /// A number of changes, from 0 to 65,536, which is written with digits only.
    Changes,
    /// The end of the line.
    End,
}

impl Due {
    fn text(self) -> &'static str
        ensures { result.now ≡ due_text self }
    {
        match self {
            Due::Device => "the name of a device, osd.N",
            Due::Weight => "a weight",
            Due::Name => "a name",
            Due::Pair => "a pair TYPE=NAME or the end of the line",
            Due::NoMorePairs => "the end of the line, because a location has at most 16 pairs",
            Due::At => "`at` or the end of the line",
            Due::Changes => "a number from 0 to 65536",
            Due::End => "the end of the line",
        }
    }
}

impl Display for Due {
    ghost output = { λ due. Some (due_text due) };

    fn fmt<W: fmt::Write>(&self, f: &mut Formatter<W>) -> fmt::Result {
        f.write_str(self.text())
    }
}

/// The first word that doesn't fit in a line. Either the line ends where this word is required, or
/// the word isn't what the form of the line requires.
#[derive(Clone, Copy, Debug, PartialEq, Eq, Error)]
#[error("word {word}: expected {due}")]
pub struct Misfit {
    /// The index of this word in its line, from 0. If the word is missing, this is the number of
    /// words that the line has.
    pub word: usize,
    /// What the form of the line requires at this index.
    pub due: Due,
}

/// Why a line of a section isn't allowed at its place. Other faults of a line, such as an unknown
/// command, are variants of [`JobFault`].
#[derive(Clone, Copy, Debug, PartialEq, Eq, Error)]
pub enum BadLine {
    /// A word is missing, or isn't what the form of the line requires.
    #[error("{0}")]
    Word(Misfit),
    /// The line begins with `%`, but its first word isn't `%operator`.
    #[error("expected `%operator NAME`")]
    NoOperator,
    /// The line is a `begin` inside a batch.
    #[error("`begin` inside a batch")]
    BatchOpen,
    /// The line is a `commit` outside a batch.
    #[error("`commit` outside a batch")]
    NoBatch,
    /// The line is the 65,537th edit of a batch.
    #[error("a batch has at most 65536 edits")]
    BatchFull,
}

/// Why bytes can't be read as a job. Lines are numbered from 1, beginning with the first line of
/// the map's text.
#[derive(Clone, Copy, Debug, PartialEq, Eq, Error)]
pub enum JobFault {
    /// The line doesn't have the form that its first word requires, or it begins with `%` and isn't
    /// a line `%operator NAME`. Or the line is a `begin` inside a batch, a `commit` outside a
    /// batch, or the 65,537th edit of a batch.
    #[error("line {line}: BadLine: {why}")]
    BadLine {
        /// The number of the line.
        line: usize,
        /// What is wrong with the line.
        why: BadLine,
    },
    /// The first word of the line isn't `begin`, `commit` or the name of a command, and the line
    /// doesn't begin with `%`.
    #[error("line {0}: NoSuchCommand")]
    NoSuchCommand(usize),
    /// The batch that begins in this line has no `commit` before the next section begins or the job
    /// ends.
    #[error("line {0}: OpenBatch")]
    OpenBatch(usize),
    /// The line begins the 17th section. A job can have at most 16 operators.
    #[error("line {0}: TooManyOperators")]
    TooManyOperators(usize),
    /// The line begins a section whose operator has the same name as the operator of an earlier
    /// section.
    #[error("line {0}: DuplicateOperator")]
    DuplicateOperator(usize),
    /// The map's text has this fault, or memory for the map ran out. The place of the fault is an
    /// index in the job, which counts bytes from 0.
    #[error("{0}")]
    Text(TextFault),
    /// The map was read, but memory for the scripts ran out. `read_job` may report this even if a
    /// line of the sections is faulty.
    #[error("out of memory")]
    OutOfMemory,
    /// The job has more than 16,777,216 bytes.
    #[error("TooLong")]
    TooLong,
    /// The line begins the 65,537th call. Each batch is one call, and each command outside a batch
    /// is one call.
    #[error("line {0}: TooManyCalls")]
    TooManyCalls(usize),
}

impl JobFault {
    ghost use Rattle.crush_script.specs.Fault.{lacks_memory};

    /// Whether the fault is that memory ran out, for the map or for the scripts.
    pub fn lacks_memory(self) -> bool
        ensures { result ≡ lacks_memory self }
    {
        match self {
            JobFault::OutOfMemory => true,
            JobFault::Text(fault) => matches!(fault.kind, TextFaultKind::OutOfMemory),
            _ => false,
        }
    }
}

impl From<TextFault> for JobFault {
    ghost use Rattle.std.specs.Prelude.{◌≡◌};
    ghost use Rattle.crush_script.specs.declared.fault.JobFault.TheVariants.{Text};

    ghost from_gives = { λ fault told. told ≡ Text fault };

    fn from(fault: TextFault) -> JobFault {
        JobFault::Text(fault)
    }
}

impl<T: Drop> From<AllocFailed<T>> for JobFault {
    ghost use Rattle.std.specs.Prelude.{◌≡◌};
    ghost use Rattle.crush_script.specs.declared.fault.JobFault.TheVariants.{OutOfMemory};

    ghost from_gives = { λ _ fault. fault ≡ OutOfMemory };

    fn from(_failed: AllocFailed<T>) -> JobFault {
        JobFault::OutOfMemory
    }
}

impl LineFault {
    ghost use Rattle.crush_script.specs.Sections.{fault_at};

    pub(crate) fn at(self, number: usize) -> JobFault
        ensures { result ≡ fault_at number self }
    {
        match self {
            LineFault::Word(misfit) => JobFault::BadLine {
                line: number,
                why: BadLine::Word(misfit),
            },
            LineFault::NoOperator => JobFault::BadLine {
                line: number,
                why: BadLine::NoOperator,
            },
            LineFault::NoSuchCommand => JobFault::NoSuchCommand(number),
            LineFault::OutOfMemory => JobFault::OutOfMemory,
        }
    }
}
