//! What a book, which is a map with its history, keeps of its opening map: the whole map, or
//! nothing. The opening map is the map before the first call.

use crush_map::CrushMap;
use std::alloc::Allocator;

/// What a [`Book`](crate::Book) (a map with its history) or an editor keeps of its opening map,
/// which is the map before the first call. With [`CrushMap`], the book keeps the whole opening map,
/// and returns it when the book is closed. This costs the time and the memory of one copy of the
/// map. With [`WithoutSnapshot`], the book keeps nothing, and the opening map exists only in
/// contracts.
pub trait KeptOpening: Drop {
    ghost use Rattle.std.specs.Prelude.{Option};
    ghost use Rattle.crush_map.specs.MapData.{MapData};

    ghost kept: { Self → Option MapData };
}

/// The value that a [`Book`](crate::Book) (a map with its history) keeps if it doesn't keep its
/// opening map. The value has no data.
#[derive(Clone, Copy, Debug, PartialEq, Eq)]
pub struct WithoutSnapshot;

impl<A: Allocator> KeptOpening for CrushMap<A> {
    ghost use Rattle.std.specs.Prelude.{Some};

    ghost kept = { λ map. Some map };
}

impl KeptOpening for WithoutSnapshot {
    ghost use Rattle.std.specs.Prelude.{None};

    ghost kept = { λ _. None };
}
