//! Why an editor can't be opened.

ghost use Rattle.std.specs.Prelude.{Some, codes};

use crush_map::CrushMap;
use std::alloc::{Allocator, Global};
use std::error::Error;
use std::fmt;

/// The error of a function that creates a [`Book`](crate::Book) (a map with its history) or an
/// [`Editor`](crate::Editor), if memory runs out. The error gives back the map from which the book
/// or the editor was to be created. `{}` prints `out of memory`, and `{:?}` prints `OpenFault`.
#[derive(Drop)]
pub struct OpenFault<A: Allocator = Global> {
    /// The map, unchanged.
    pub map: CrushMap<A>,
}

impl<A: Allocator> fmt::Debug for OpenFault<A> {
    fn fmt<W: fmt::Write>(&self, f: &mut fmt::Formatter<W>) -> fmt::Result {
        f.write_str("OpenFault")
    }
}

impl<A: Allocator> fmt::Display for OpenFault<A> {
    ghost output = { λ _. Some (codes "out of memory") };

    fn fmt<W: fmt::Write>(&self, f: &mut fmt::Formatter<W>) -> fmt::Result {
        f.write_str("out of memory")
    }
}

impl<A: Allocator> Error for OpenFault<A> {}
