//! The files that a run of the program opens. A *verb* is the word `apply`, `diff`, `plan` or
//! `tree` at the beginning of a command line. On a command line with a verb, the file name `-`
//! means standard input. The files with the verb's maps are read before the run.

use crush_input::{Opens, VerbMap};
use std::fs::File;
use std::io::{self, Read, Stdin};

/// A file with one of the verb's maps. The file was read before the run.
#[derive(Drop)]
pub(crate) struct Kept<'a> {
    pub(crate) map: VerbMap,
    pub(crate) name: &'a str,
    /// The name of the file in notes about the map's text. It is empty if these notes name no file.
    pub(crate) shown: &'a str,
    pub(crate) bytes: Vec<u8>,
}

/// The files that a run may open.
#[derive(Drop)]
pub(crate) struct ProgramFiles<'a> {
    pub(crate) rt: &'a HostRuntime,
    /// Whether the name `-` means standard input. It means standard input only on a command line
    /// with a verb.
    pub(crate) has_dash: bool,
    /// The files that were read before the run. Their bytes are kept because a pipe can't be read
    /// twice.
    pub(crate) kept: &'a [Kept<'a>],
}

/// A file that is open for reading.
#[derive(Drop)]
pub(crate) enum Opened<'a> {
    File(File),
    Input(Stdin),
    /// A file that was read before the run. These are the bytes of the file that the run hasn't
    /// read yet.
    Kept(&'a [u8]),
}

impl Read for Opened<'_> {
    fn read(&mut self, buf: &mut [u8]) -> io::Result<usize> {
        match self {
            Opened::File(file) => file.read(buf),
            Opened::Input(input) => input.read(buf),
            Opened::Kept(bytes) => bytes.read(buf),
        }
    }
}

impl<'a> Opens for ProgramFiles<'a> {
    type Opened = Opened<'a>;

    ghost use Rattle.std.specs.Prelude.{None};

    ghost content = { λ _ _. None };

    fn open(&self, name: &str) -> io::Result<Opened<'a>> {
        for file in self.kept {
            if file.name == name {
                return Ok(Opened::Kept(file.bytes.as_slice()));
            }
        }
        if self.has_dash && name == "-" {
            return Ok(Opened::Input(self.rt.stdin()));
        }
        Ok(Opened::File(File::open(self.rt, name)?))
    }
}
