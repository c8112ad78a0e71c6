//! Opens files by name.

ghost use Rattle.std.specs.Prelude.{◌≡◌, ℕ, List, None, Option, Some, IfOk, IfSome};

use std::fs::File;
use std::io::{self, Read};
use std::rt::Files;

/// Opens files by name, for reading.
pub trait Opens {
    /// The type of a file that is open for reading.
    type Opened: Read + Drop;

    // The bytes of the file with this name, or `None` if contracts don't know the bytes.
    ghost content: { Self → List ℕ → Option (List ℕ) };

    /// Opens the file with this name. If it can't be opened, fails with the system's error.
    fn open(&self, name: &str) -> io::Result<Self::Opened>
        ensures { IfOk result (λ file. IfSome (content self.now name.now)
            (λ bytes. Self.Opened.remaining file ≡ Some bytes)) };
}

/// The files of the operating system. Contracts know nothing about their bytes.
#[derive(Drop)]
pub struct SystemFiles<'a, F>(pub &'a F);

impl<F: Files> Opens for SystemFiles<'_, F> {
    type Opened = F::File;

    ghost use Rattle.std.specs.Prelude.{None};

    ghost content = { λ _ _. None };

    fn open(&self, name: &str) -> io::Result<F::File> {
        File::open(self.0, name)
    }
}
