//! Says from which file each line of a job comes.

ghost use Rattle.std.specs.Prelude.{◌≡◌, ℕ};
ghost use Rattle.crush_reasons.specs.Place.{OriginData, origin_data};

use crate::place::Origin;

/// Says from which file each line of a job comes.
pub trait Locates {
    ghost origin: { Self → ℕ → OriginData };

    /// Returns the file from which a line of the job comes. Lines count from 1.
    fn at(&self, line: usize) -> Origin<'_>
        ensures { origin_data result ≡ origin self.now line };
}

/// The lines of a job that have edits, and the file from which each line of the job comes.
#[derive(Clone, Copy)]
pub struct JobLines<'a, O> {
    /// For each script of the job, the numbers of the lines that have the script's edits: one
    /// number for each edit, in order. Lines count from 1 in the whole job.
    /// `crush_script::read_job` returns these numbers in the field `lines` of a job.
    pub edits: &'a [Vec<u32>],
    /// Says from which file each line comes.
    pub origins: &'a O,
}

/// Gives an origin without a file's name for every line. It is used if the text of a job isn't
/// known.
#[derive(Clone, Copy, Drop)]
pub(crate) struct Nowhere;

impl Locates for Nowhere {
    ghost use Rattle.std.specs.Prelude.{[]};

    ghost origin = { λ _ _. record { name = []; before = 0 } };

    fn at(&self, line: usize) -> Origin<'_> {
        let _ = line;
        Origin {
            name: b"",
            before: 0,
        }
    }
}
