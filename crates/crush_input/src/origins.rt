//! Finds the file from which each line of a job comes.

ghost use Rattle.std.specs.Prelude.{◌≡◌, map as each};
ghost use Rattle.crush_reasons.specs.Place.{origin_data};
ghost use Rattle.crush_input.specs.Joined.{script_span_data};
ghost use Rattle.crush_input.specs.Origins.{first_name, no_origin, origin_in, origin_of, whole_of, within};

use crate::joined::ScriptSpan;
use crush_options::Options;
use crush_reasons::{Locates, Origin};
use std::alloc::Global;

/// The files of a job: the file with which the job begins, and the files whose scripts follow.
#[derive(Drop)]
pub struct Origins<'a> {
    /// The name of the first file, as notes show it. It is empty if notes don't name this file.
    pub(crate) first: &'a [u8],
    pub(crate) spans: Vec<ScriptSpan<'a>>,
}

impl Origins<'_> {
    /// Returns the origins for a job that comes from one file, whose name isn't shown in notes.
    pub fn none(alloc: Global) -> Origins<'static>
        ensures { origin_of result ≡ no_origin }
    {
        Origins {
            first: b"",
            spans: Vec::new(alloc),
        }
    }
}

impl Locates for Origins<'_> {
    ghost use Rattle.crush_input.specs.Origins.{origin_of};

    ghost origin = { λ origins line. origin_of origins line };

    fn at(&self, line: usize) -> Origin<'_> {
        origin_in(self.first, self.spans.as_slice(), line)
    }
}

fn origin_in<'a>(first: &'a [u8], spans: &[ScriptSpan<'a>], line: usize) -> Origin<'a>
    ensures { origin_data result
        ≡ origin_in (whole_of first.now) (each script_span_data spans.now) line }
{
    let mut origin = Origin {
        name: first,
        before: 0,
    };
    for span in spans {
        if span.from <= line {
            origin = span.origin();
        }
    }
    origin
}

impl<'a> ScriptSpan<'a> {
    fn origin(&self) -> Origin<'a>
        ensures { origin_data result ≡ within (script_span_data self.now) }
    {
        Origin {
            name: self.name,
            before: self.before,
        }
    }
}

/// Returns the name of the job's file, as notes show it. It is empty if the job is read from
/// standard input, or if no scripts of other files follow.
pub(crate) fn first_name(options: &Options) -> &[u8]
    ensures { result.now ≡ first_name options.now.file options.now.scripts.items }
{
    match &options.file {
        Some(name) if !options.scripts.is_empty() => name.as_bytes(),
        _ => b"",
    }
}
